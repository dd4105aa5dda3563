// The last step of opening: an image of version 1 becomes one of version 2.
ghost use Rattle.std.specs.Prelude.{◌≡◌, ◌↔◌, ◌+◌, ◌<◌, ◌≤◌, ◌++◌, [], ◌∷◌, true, All, IsNone, IfSome, IfOk, length, map};
ghost use Rattle.image_layout.specs.Fixed.{version_at};
ghost use Rattle.image_layout.specs.Tables.{is_first_version, table_count as count_of_tables};
ghost use Rattle.image_layout.specs.Checks.{Keeps};
ghost use Rattle.image_layout.specs.EntryRules.{table_count_rule, table_slot_rule};
ghost use Rattle.pm_model.specs.Plans.{plan_of};
ghost use Rattle.shown_state.specs.Mending.{version_mending};
ghost use Rattle.pmem_recover.specs.Steps.{step_parts, IsNext, NoneFrom};
ghost use Rattle.pmem_recover.specs.Changes.{change};
ghost use Rattle.pmem_recover.specs.VersionStep.{count_change, version_changes};

use crate::change::{CHANGE_ACTIONS, WordChange, push_needed};
use image_layout::inner_columns;
use pm_model::{
    FIRST_VERSION, Memory, NoMemory, Plan, TABLES, VERSION, column_count, named_place, table_count,
    table_slot, version,
};
use std::alloc::Global;

/// The plan by which an image of version 1 becomes one of version 2: the block of each table says how many columns
/// stand in it, which are all, and then the version is 2. It has the number 0; `None` where the version isn't 1, and
/// from 1 on always.
///
/// A plan has a part of one store for each table and one for the version. A store that would leave its word as it is
/// isn't made.
pub fn next_version<M: Memory>(
    alloc: Global,
    mem: &M,
    from: u32,
) -> Result<Option<(u32, Plan)>, NoMemory>
    requires tables { Keeps (M.device mem.now).cached table_count_rule }
    requires slots { Keeps (M.device mem.now).cached table_slot_rule }
    ensures next { IfOk result (λ found. IfSome found (λ next.
        IsNext (step_parts (λ number. version_mending) (M.device mem.now).cached) 1 from next.0 next.1.left)) }
    ensures none { IfOk result (λ found.
        IsNone found ↔ NoneFrom (step_parts (λ number. version_mending) (M.device mem.now).cached) 1 from) }
{
    if from > 0 {
        return Ok(None);
    }
    if mem.load(version()) != FIRST_VERSION {
        return Ok(None);
    }
    let plan = plan_version(alloc, mem)?;
    Ok(Some((0, plan)))
}

// Plans it, where the version is 1.
fn plan_version<M: Memory>(alloc: Global, mem: &M) -> Result<Plan, NoMemory>
    requires tables { Keeps (M.device mem.now).cached table_count_rule }
    requires slots { Keeps (M.device mem.now).cached table_slot_rule }
    requires first { is_first_version (M.device mem.now).cached ≡ true }
    ensures { IfOk result (λ plan.
        plan.left ≡ plan_of (step_parts (λ number. version_mending) (M.device mem.now).cached 0)) }
{
    let changes = version_changes_of(alloc, mem)?;
    let mut plan = Plan::with_room(alloc, CHANGE_ACTIONS * changes.len() as u32)?;
    push_needed(&mut plan, mem, &changes);
    Ok(plan)
}

// The words that it changes, in order. The version comes last: until then a cut of the step is mended to the same
// words.
fn version_changes_of<M: Memory>(alloc: Global, mem: &M) -> Result<Vec<WordChange>, NoMemory>
    requires tables { Keeps (M.device mem.now).cached table_count_rule }
    requires slots { Keeps (M.device mem.now).cached table_slot_rule }
    ensures changes { IfOk result (λ changes. changes.items ≡ version_changes (M.device mem.now).cached) }
    ensures few { IfOk result (λ changes. length changes.items ≤ 33) }
    ensures in_image { IfOk result (λ changes.
        All (λ change. change.place.0 < length (M.device mem.now).cached) changes.items) }
{
    let count = mem.load(table_count()) as u8;
    let mut changes = Vec::with_capacity(alloc, TABLES as usize + 1)?;
    for table in 0..count {
        changes.push_reserved(count_columns(mem, table));
    }
    changes.push_reserved(latest_version());
    Ok(changes)
}

// The version is 2.
fn latest_version() -> WordChange
    ensures { result ≡ change version_at 2 }
{
    WordChange {
        place: version(),
        value: VERSION,
    }
}

// A table's block says how many columns stand in it: all that the table has.
fn count_columns<M: Memory>(mem: &M, table: u8) -> WordChange
    requires tables { Keeps (M.device mem.now).cached table_count_rule }
    requires slots { Keeps (M.device mem.now).cached table_slot_rule }
    requires published { table < count_of_tables (M.device mem.now).cached }
    ensures change { result ≡ count_change (M.device mem.now).cached table }
    ensures in_image { result.place.0 < length (M.device mem.now).cached }
{
    let block = named_place(mem, table_slot(table));
    WordChange {
        place: inner_columns(block),
        value: mem.load(column_count(block)),
    }
}
