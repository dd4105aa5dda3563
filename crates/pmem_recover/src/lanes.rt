// The first step of opening: the lanes that a power cut left at work.
ghost use Rattle.std.specs.Prelude.{◌≡◌, ◌≢◌, ◌↔◌, ◌+◌, ◌*◌, ◌<◌, ◌≤◌, ◌%◌, IsTrue, IsNone, IfSome, IfOk, length, slice_index};
ghost use Rattle.image_layout.specs.Fixed.{lane_op_at};
ghost use Rattle.image_layout.specs.Places.{place_in, is_pointer};
ghost use Rattle.pm_model.specs.Plans.{plan_of};
ghost use Rattle.image_layout.specs.Blocks.{is_slot};
ghost use Rattle.pmem_recover.specs.Changes.{change};
ghost use Rattle.shown_state.specs.LaneRules.{KeepsLaneRules};
ghost use Rattle.shown_state.specs.Mending.{lane_mending};
ghost use Rattle.pmem_recover.specs.Lanes.{release as released_change};
ghost use Rattle.pmem_recover.specs.Steps.{step_parts, IsNext, NoneFrom};

use crate::change::{CHANGE_ACTIONS, WordChange, push_needed};
use crate::layout::{ALLOCATING, FIRST_SLOT, IDLE, SMALL_PAGE};
use heap_small::{Class, class_words, without};
use pm_model::{
    LANES, Memory, NoMemory, PAGE_WORDS, Page, Place, Plan, descriptor, lane_block, lane_dest,
    lane_op, named_place,
};
use std::alloc::Global;

/// The first lane from `from` on that a power cut left at work, with the plan that mends it: an allocation is done
/// where the owner's word holds the block's pointer, and else undone, and a freeing is done. `None` where no such lane
/// is left, so from 16 on always.
///
/// A plan has at most three parts of one store each. A store that would leave its word as it is isn't made.
pub fn next_lane<M: Memory>(
    alloc: Global,
    mem: &M,
    from: u32,
) -> Result<Option<(u32, Plan)>, NoMemory>
    requires { KeepsLaneRules (M.device mem.now).cached }
    ensures next { IfOk result (λ found.
        IfSome found (λ next. IsNext (step_parts lane_mending (M.device mem.now).cached) 16 from next.0 next.1.left)) }
    ensures none { IfOk result (λ found.
        IsNone found ↔ NoneFrom (step_parts lane_mending (M.device mem.now).cached) 16 from) }
{
    for lane in from..u32::from(LANES) {
        if mem.load(lane_op(lane as u8)) != IDLE {
            return Ok(Some((lane, plan_lane(alloc, mem, lane as u8)?)));
        }
    }
    Ok(None)
}

// Plans the mending of a lane that is at work.
fn plan_lane<M: Memory>(alloc: Global, mem: &M, lane: u8) -> Result<Plan, NoMemory>
    requires rules { KeepsLaneRules (M.device mem.now).cached }
    requires lane { lane < 16 }
    requires at_work { slice_index (M.device mem.now).cached (lane_op_at lane) ≢ 0 }
    ensures { IfOk result (λ plan. plan.left ≡ plan_of (step_parts lane_mending (M.device mem.now).cached lane)) }
{
    let owner = named_place(mem, lane_dest(lane));
    let block = named_place(mem, lane_block(lane));
    let release = release(mem, block);
    let idle = WordChange {
        place: lane_op(lane),
        value: IDLE,
    };
    let mut plan = Plan::with_room(alloc, 3 * CHANGE_ACTIONS)?;
    // The lane is idle last: until then a cut of the step is mended to the same words.
    if mem.load(lane_op(lane)) != ALLOCATING {
        let disown = WordChange {
            place: owner,
            value: 0,
        };
        push_needed(&mut plan, mem, &[disown, release, idle]);
    } else if mem.load(owner) == mem.load(lane_block(lane)) {
        push_needed(&mut plan, mem, &[idle]);
    } else {
        push_needed(&mut plan, mem, &[release, idle]);
    }
    Ok(plan)
}

/// The change that clears the mark of a block.
pub(crate) fn release<M: Memory>(mem: &M, block: Place) -> WordChange
    requires in_image { block.0 < length (M.device mem.now).cached }
    requires slot { block.0 % 512 ≢ 0 → IsTrue (is_slot (M.device mem.now).cached block.0) }
    ensures change { result ≡ released_change (M.device mem.now).cached block.0 }
    ensures within { result.place.0 < length (M.device mem.now).cached }
{
    let page = block.0 / PAGE_WORDS;
    let head = descriptor(Page(page as u16));
    if block.0 % PAGE_WORDS == 0 {
        return WordChange {
            place: head,
            value: 0,
        };
    }
    let class = Class::new((mem.load(head) - SMALL_PAGE) as u8);
    let slot = (block.0 % PAGE_WORDS - FIRST_SLOT) / class_words(class);
    let bitmap = Place(PAGE_WORDS * page);
    WordChange {
        place: bitmap,
        value: without(mem.load(bitmap), slot as u8),
    }
}
