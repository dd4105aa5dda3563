// That the laws of the writing of a text and of a freeing say something.
ghost use Rattle.std.specs.Prelude.{◌≡◌, ℕ, ◌<◌, ◌≤◌, IsUtf8, List, length};
ghost use Rattle.image_layout.specs.Fresh.{fresh_words};
ghost use Rattle.image_layout.specs.Trees.{text_at};
ghost use Rattle.heap_palloc.specs.Choice.{MayRelease, of_pages, of_slot};
ghost use Rattle.heap_palloc.specs.Law.{pages_by, slot_by};
ghost use Rattle.shown_state.specs.CommitLaws.{two_commit_image};
ghost use Rattle.text_block.specs.Blocks.{IsTextBlock};
ghost use Rattle.text_block.specs.Changes.{IsWritten, MayWrite};
ghost use Rattle.law_instances.specs.FirstText.{first_text, texted_words};

/// A text of up to 2,000 bytes may be written into a formatted image, is written once its plan was played, and reads
/// back.
pub fn text_law()
    ensures may { (segments : ℕ) (text : List ℕ) → 0 < segments → length text ≤ 2000 →
        MayWrite (fresh_words segments) (first_text text) }
    ensures written { (segments : ℕ) (text : List ℕ) → 0 < segments → length text ≤ 2000 →
        IsWritten (first_text text) (fresh_words segments) (texted_words segments text) }
    ensures back { (segments : ℕ) (text : List ℕ) → 0 < segments → length text ≤ 2000 → IsUtf8 text →
        text_at (texted_words segments text) 2056 ≡ text }
    ensures sound { (segments : ℕ) (text : List ℕ) → 0 < segments → length text ≤ 2000 → IsUtf8 text →
        IsTextBlock (texted_words segments text) 2056 }
{}

/// In the image with two commits a block of either kind may be freed: the first extension, a slot of page 9, from the
/// pointer in its table's block, and the chunk of its rows' creators, page 5, from its array's pointer.
pub fn freeing_law()
    ensures slot { MayRelease two_commit_image (of_slot (slot_by 1 2061 9 3 0)) }
    ensures pages { MayRelease two_commit_image (of_pages (pages_by 1 2065 5 1)) }
{}
