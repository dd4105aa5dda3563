// The step of opening that frees the block of a table that was being created.
ghost use Rattle.std.specs.Prelude.{◌≡◌, ◌≢◌, ◌↔◌, ◌*◌, ◌<◌, ◌≤◌, IsNone, IfSome, IfOk, IsTrue, length, slice_index};
ghost use Rattle.image_layout.specs.Blocks.{is_block_pointer};
ghost use Rattle.pm_model.specs.Plans.{plan_of};
ghost use Rattle.pm_model.specs.Needed.{needed_parts};
ghost use Rattle.image_layout.specs.Checks.{Keeps};
ghost use Rattle.image_layout.specs.EntryRules.{table_slot_rule};
ghost use Rattle.shown_state.specs.Mending.{free_block, slot_mending};
ghost use Rattle.pmem_recover.specs.Steps.{step_parts, IsNext, NoneFrom};

use crate::change::WordChange;
use crate::lanes::release;
use crate::layout::{FREEING, IDLE};
use crate::part::push_parts;
use pm_model::{
    Memory, NoMemory, PAGE_WORDS, PPtr, Page, Place, Plan, TABLES, descriptor, lane_block,
    lane_dest, lane_op, named_place, table_count, table_slot,
};
use std::alloc::Global;

// The lane through which opening frees.
const LANE: u8 = 0;

// A freeing has at most 7 stores, a flush for each and 6 fences.
const FREEING_ACTIONS: u32 = 22;

/// The plan by which the block is freed that the table slot at the table count names: a table that was being created.
/// It has the number 0; `None` where no slot is left or the slot is null, and from 1 on always.
pub fn next_slot<M: Memory>(
    alloc: Global,
    mem: &M,
    from: u32,
) -> Result<Option<(u32, Plan)>, NoMemory>
    requires { Keeps (M.device mem.now).cached table_slot_rule }
    ensures next { IfOk result (λ found. IfSome found (λ next.
        IsNext (step_parts (λ number. slot_mending) (M.device mem.now).cached) 1 from next.0 next.1.left)) }
    ensures none { IfOk result (λ found.
        IsNone found ↔ NoneFrom (step_parts (λ number. slot_mending) (M.device mem.now).cached) 1 from) }
{
    if from > 0 {
        return Ok(None);
    }
    let plan = plan_slot(alloc, mem)?;
    if plan.is_empty() {
        Ok(None)
    } else {
        Ok(Some((0, plan)))
    }
}

// Plans the freeing of the block that the slot at the table count names, where there is one.
fn plan_slot<M: Memory>(alloc: Global, mem: &M) -> Result<Plan, NoMemory>
    requires { Keeps (M.device mem.now).cached table_slot_rule }
    ensures { IfOk result (λ plan.
        plan.left ≡ plan_of (step_parts (λ number. slot_mending) (M.device mem.now).cached 0)) }
{
    let tables = mem.load(table_count());
    if tables >= u64::from(TABLES) {
        return Plan::with_room(alloc, 0);
    }
    let slot = table_slot(tables as u8);
    if mem.load(slot) == 0 {
        return Plan::with_room(alloc, 0);
    }
    plan_freeing(alloc, mem, slot)
}

/// Plans the freeing of the block that the word at a place names, through lane 0.
pub(crate) fn plan_freeing<M: Memory>(alloc: Global, mem: &M, at: Place) -> Result<Plan, NoMemory>
    requires in_image { at.0 < length (M.device mem.now).cached }
    requires pointer { IsTrue (is_block_pointer (M.device mem.now).cached
        (slice_index (M.device mem.now).cached at.0)) }
    ensures { IfOk result (λ plan.
        plan.left ≡ plan_of (needed_parts (M.device mem.now).cached (free_block (M.device mem.now).cached at.0))) }
{
    let block = named_place(mem, at);
    let released = release(mem, block);
    let changes = [
        store(lane_dest(LANE), PPtr::of(at).word()),
        store(lane_block(LANE), mem.load(at)),
        store(lane_op(LANE), FREEING),
        store(at, 0),
        released,
        store(lane_op(LANE), IDLE),
        store(descriptor(Page((block.0 / PAGE_WORDS) as u16)), 0),
    ];
    let is_page_left = block.0 % PAGE_WORDS == 0 || released.value != 0;
    let count = if is_page_left { 6 } else { 7 };
    let mut plan = Plan::with_room(alloc, FREEING_ACTIONS)?;
    push_parts(alloc, &mut plan, mem, &changes[..count], 2)?;
    Ok(plan)
}

fn store(place: Place, value: u64) -> WordChange
    ensures place { result.place ≡ place }
    ensures value { result.value ≡ value }
{
    WordChange { place, value }
}
