// What the plans of the heap keep through each power cut, whatever is played beside them.
ghost use Rattle.std.specs.Prelude.{Contains, ◌≢◌, ℕ, List};
ghost use Rattle.pm_model.specs.Changes.{Survives};
ghost use Rattle.image_layout.specs.Blocks.{Block, live_blocks};
ghost use Rattle.image_layout.specs.Fresh.{fresh_words};
ghost use Rattle.heap_palloc.specs.Parts.{Allocation, allocation_parts, freeing_parts};
ghost use Rattle.heap_palloc.specs.Shown.{MayAllocate, MayFree, IsAtomic};
ghost use Rattle.heap_palloc.specs.Calls.{KeepsHeapRules, OwnsBlock};
ghost use Rattle.heap_palloc.specs.Choice.{Choice, choice_block, MayMake, Freed, MayRelease};
ghost use Rattle.heap_palloc.specs.Changes.{allocating, freeing, choice_owner, IsBeside, IsOther, allocated_words, released_words};

/// A law for proofs: by words, the log of a lane makes an allocation and a freeing atomic.
pub fn lane_law()
    ensures allocation { (base : List ℕ) (a : Allocation) → MayAllocate base a →
        IsAtomic a.lane (allocation_parts a) base }
    ensures freeing { (base : List ℕ) (a : Allocation) (clear : ℕ) → MayFree base a clear →
        IsAtomic a.lane (freeing_parts a clear) base }
{}

/// A law for proofs: an allocation, whichever way it goes. Once its lane is mended, each cut shows the live blocks
/// before it and a null owner's word, or one block more and its pointer.
///
/// What a cut can leave of it, and who completes it in how many stores:
///
/// | op | the mark | the owner's word | completed by | stores |
/// |---|---|---|---|---|
/// | 0 | without the block | 0 | nobody: nothing is allocated; a free page may be small, one given back just free | 0 |
/// | 1 | without the block | 0 | the mending of the lane: nothing is allocated | 1 |
/// | 1 | with the block | 0 | the mending of the lane: nothing is allocated | 2 |
/// | 1 | with the block | its pointer | the mending of the lane: the block is allocated | 1 |
/// | 0 | with the block | its pointer | nobody: the block is allocated | 0 |
pub fn allocation_law()
    ensures { (choice : Choice) → Survives (allocating choice) }
{}

/// A law for proofs: a freeing, of whichever block. Once its lane is mended, each cut shows the live blocks before it
/// and the block's pointer, or one block less and a null owner's word.
///
/// What a cut can leave of it, and who completes it in how many stores:
///
/// | op | the mark | the owner's word | completed by | stores |
/// |---|---|---|---|---|
/// | 0 | with the block | its pointer | nobody: nothing is freed | 0 |
/// | 2 | with the block | its pointer | the mending of the lane | 3 |
/// | 2 | with the block | 0 | the mending of the lane | 2 |
/// | 2 | without the block | 0 | the mending of the lane | 1 |
/// | 0 | without the block | 0 | nobody: the block is freed, though its small page may be left without a block | 0 |
pub fn freeing_law()
    ensures { (freed : Freed) → Survives (freeing freed) }
{}

/// A law for proofs: which words own a block. Once an allocation was played, its owner's word owns the block, where no
/// live block began before, and once a freeing was played, each other block has its owner still. A word that no plan on
/// these pages writes owns what it did.
pub fn owners_law()
    ensures gives { (base : List ℕ) (choice : Choice) →
        MayMake base choice → OwnsBlock (allocated_words base choice) (choice_owner choice) (choice_block choice) }
    ensures new { (base : List ℕ) (choice : Choice) (block : Block) →
        MayMake base choice → Contains (live_blocks base) block → block.first ≢ (choice_block choice).first }
    ensures keeps { (base : List ℕ) (choice : Choice) (w : ℕ) (block : Block) →
        KeepsHeapRules base → MayMake base choice → IsBeside choice w → OwnsBlock base w block →
        OwnsBlock (allocated_words base choice) w block }
    ensures keeps_others { (base : List ℕ) (freed : Freed) (w : ℕ) (block : Block) →
        KeepsHeapRules base → MayRelease base freed → IsOther freed w block → OwnsBlock base w block →
        OwnsBlock (released_words base freed) w block }
{}

/// A law for proofs: a formatted image keeps the heap's rules.
pub fn fresh_heap_law()
    ensures { (segments : ℕ) → KeepsHeapRules (fresh_words segments) }
{}
