// The parts of the plans of the heap, added to a plan.
ghost use Rattle.std.specs.Prelude.{◌≡◌, ◌+◌, ◌*◌, ◌^◌, ◌<◌, ◌≤◌, ◌++◌, length};
ghost use Rattle.std.specs.List.{range_with_len};
ghost use Rattle.image_layout.specs.Pointer.{pointer_word};
ghost use Rattle.pm_model.specs.Plans.{part_actions, plan_of, one_store, unless_empty};
ghost use Rattle.image_layout.specs.Fixed.{lane_at, lane_op_at};
ghost use Rattle.heap_palloc.specs.Lane.{mark_at};
ghost use Rattle.heap_palloc.specs.Parts.{Allocation, lane_part, allocation_parts, freeing_parts, new_page_parts, free_page_parts, forget_given_back};

use heap_big::Run;
use pm_model::{
    ALLOCATING, Action, FREEING, GIVEN_BACK, IDLE, LINE_WORDS, Memory, PAGE_WORDS, PPtr, Page,
    Place, Plan, SMALL_PAGE, descriptor, lane_block, lane_dest, lane_op,
};

// The actions of a part of one store: the store, a flush and a fence.
pub(crate) const STORE_ACTIONS: u32 = 3;

// The actions of a lane's part: two stores into its line, a flush and a fence.
const LANE_ACTIONS: u32 = 4;

// The actions of an allocation and of a freeing: the lane's part, and four parts of one store.
pub(crate) const ALLOCATION_ACTIONS: u32 = LANE_ACTIONS + 4 * STORE_ACTIONS;

pub(crate) const NEW_PAGE_ACTIONS: u32 = 2 * STORE_ACTIONS;

/// The word that says whether a block is allocated.
pub(crate) fn mark_of(block: Place) -> Place
    requires { block.0 < 4194304 }
    ensures { result.0 ≡ mark_at block.0 }
{
    let page = block.0 / PAGE_WORDS;
    if block.0 % PAGE_WORDS == 0 {
        descriptor(Page(page as u16))
    } else {
        Place(PAGE_WORDS * page)
    }
}

/// Adds the part in which a lane gets the owner and the block.
pub(crate) fn push_lane(plan: &mut Plan, lane: u8, owner: Place, block: Place)
    requires lane { lane < 16 }
    requires owner { owner.0 < 4194304 }
    requires block { block.0 < 4194304 }
    requires room { 4 ≤ plan.old.spare }
    ensures left { plan.new.left ≡ plan.old.left
        ++ part_actions (lane_part (record { lane = lane; owner = owner.0; block = block.0; marked = 0 })) }
    ensures spare { plan.new.spare + 4 ≡ plan.old.spare }
{
    let dest = lane_dest(lane);
    plan.push(Action::Store {
        place: dest,
        value: PPtr::of(owner).word(),
    });
    plan.push(Action::Store {
        place: lane_block(lane),
        value: PPtr::of(block).word(),
    });
    // Both words lie in the lane's line.
    plan.push(Action::Flush {
        line: dest.0 / LINE_WORDS,
    });
    plan.push(Action::Fence);
}

/// Adds an allocation, whose mark becomes `marked`.
pub(crate) fn push_allocation(plan: &mut Plan, lane: u8, owner: Place, block: Place, marked: u64)
    requires lane { lane < 16 }
    requires owner { owner.0 < 4194304 }
    requires block { block.0 < 4194304 }
    requires room { 16 ≤ plan.old.spare }
    ensures left { plan.new.left ≡ plan.old.left
        ++ plan_of (allocation_parts (record { lane = lane; owner = owner.0; block = block.0; marked = marked })) }
    ensures spare { plan.new.spare + 16 ≡ plan.old.spare }
{
    push_lane(plan, lane, owner, block);
    // From here on opening undoes the allocation.
    plan.push_store(lane_op(lane), ALLOCATING);
    // The mark comes before the owner's word: else that would name a block that isn't live.
    plan.push_store(mark_of(block), marked);
    // From here on the block is allocated, also once the lane is mended.
    plan.push_store(owner, PPtr::of(block).word());
    // From here on opening passes over the lane. Idle before the owner's word, a cut would leave a block that no word
    // names.
    plan.push_store(lane_op(lane), IDLE);
}

/// Adds a freeing, whose mark becomes `clear`.
pub(crate) fn push_freeing(plan: &mut Plan, lane: u8, owner: Place, block: Place, clear: u64)
    requires lane { lane < 16 }
    requires owner { owner.0 < 4194304 }
    requires block { block.0 < 4194304 }
    requires room { 16 ≤ plan.old.spare }
    ensures left { plan.new.left ≡ plan.old.left
        ++ plan_of (freeing_parts (record { lane = lane; owner = owner.0; block = block.0; marked = 0 }) clear) }
    ensures spare { plan.new.spare + 16 ≡ plan.old.spare }
{
    push_lane(plan, lane, owner, block);
    // From here on the block is freed, also once the lane is mended.
    plan.push_store(lane_op(lane), FREEING);
    // The owner's word comes before the mark: else it would name a block that isn't live.
    plan.push_store(owner, 0);
    // From here on the block's words are free, and no word names them.
    plan.push_store(mark_of(block), clear);
    // From here on opening passes over the lane. Idle before the mark, a cut would leave a live block that no word
    // names.
    plan.push_store(lane_op(lane), IDLE);
}

/// Adds the parts in which a free page becomes a small page.
pub(crate) fn push_new_page(plan: &mut Plan, page: Page, class: u8)
    requires page { page.0 < 8192 }
    requires class { class < 6 }
    requires room { 6 ≤ plan.old.spare }
    ensures left { plan.new.left ≡ plan.old.left ++ plan_of (new_page_parts page.0 class) }
    ensures spare { plan.new.spare + 6 ≡ plan.old.spare }
{
    // The bitmap comes before the descriptor: else the page would have the blocks that old words happen to say.
    plan.push_store(Place(PAGE_WORDS * u32::from(page.0)), 0);
    // From here on the page is a small one, with each slot free.
    plan.push_store(descriptor(page), SMALL_PAGE + u64::from(class));
}

/// Adds the part that stores 0 over the descriptors of those pages of a run that were given back, where there are any.
pub(crate) fn push_forgetting<M: Memory>(plan: &mut Plan, mem: &M, run: Run)
    requires in_image { 512 * (run.first + run.pages) ≤ length (M.device mem.now).cached }
    requires room { 2 * run.pages + 1 ≤ plan.old.spare }
    ensures left { plan.new.left ≡ plan.old.left
        ++ plan_of (unless_empty (forget_given_back (M.device mem.now).cached (range_with_len run.first run.pages))) }
    ensures spare { plan.old.spare ≤ plan.new.spare + (2 * run.pages + 1) }
{
    let count = push_given_back(plan, mem, run);
    if count > 0 {
        plan.end_part(count);
    }
}

// Adds the stores of that part, and gives how many there are.
fn push_given_back<M: Memory>(plan: &mut Plan, mem: &M, run: Run) -> u32
    requires in_image { 512 * (run.first + run.pages) ≤ length (M.device mem.now).cached }
    requires room { run.pages ≤ plan.old.spare }
    ensures left { plan.new.left ≡ plan.old.left
        ++ forget_given_back (M.device mem.now).cached (range_with_len run.first run.pages) }
    ensures count { result ≡ length (forget_given_back (M.device mem.now).cached (range_with_len run.first run.pages)) }
    ensures most { result ≤ run.pages }
    ensures spare { plan.new.spare + result ≡ plan.old.spare }
{
    let mut count = 0;
    for page in 0..run.pages {
        let place = descriptor(Page(run.first + page as u16));
        if mem.load(place) == GIVEN_BACK {
            // Before the block is live: behind its head each descriptor is 0.
            plan.push(Action::Store { place, value: 0 });
            count += 1;
        }
    }
    count
}
