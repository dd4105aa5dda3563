// The step of opening that takes back the transactions that a power cut left undecided.
ghost use Rattle.std.specs.Prelude.{◌≡◌, ◌↔◌, ◌+◌, ◌<◌, ◌≤◌, ◌++◌, [], max, All, IsTrue, IsNone, IfSome, IfOk, length, map, slice_index, vec_len, vec_capacity};
ghost use Rattle.std.specs.List.{flat_map};
ghost use Rattle.image_layout.specs.Places.{below};
ghost use Rattle.pm_model.specs.Plans.{plan_of, store};
ghost use Rattle.image_layout.specs.Records.{high_at};
ghost use Rattle.image_layout.specs.Tables.{table_count as table_count_of, table_block as table_block_of};
ghost use Rattle.image_layout.specs.EntryRules.{is_entry};
ghost use Rattle.shown_state.specs.LogicalState.{row_bound as row_bound_of};
ghost use Rattle.shown_state.specs.Mending.{undo_mending, undo_entry};
ghost use Rattle.pmem_recover.specs.Changes.{change_part};
ghost use Rattle.pmem_recover.specs.Steps.{step_parts, IsNext, NoneFrom};
ghost use Rattle.pmem_recover.specs.Undo.{KeepsUndoRules, bounds_part, created_among, words_at};

use crate::change::WordChange;
use crate::entries::filled_entries;
use crate::part::push_parts;
use pm_model::{
    CLOSED, Memory, NO_COMMIT, NoMemory, OBJECTS, OPEN, Place, Plan, TABLES, commit_word,
    created_header, ended_header, high, last_commit, named_place, object_state, table_count,
    table_slot,
};
use seg_array::place_of;
use std::alloc::Global;
use txn_object::{Entry, EntryKind};

/// The first object from `from` on that is open and has no commit word, with the plan that takes its transaction back:
/// one part in which each row that it created and no commit did gets the stamp of a dead row, each row that it ended
/// and no commit did gets the stamp 0, and each table's bound rises above the rows that it created; then its state 0.
/// `None` where no such object is left, so from 16 on always.
pub fn next_undo<M: Memory>(
    alloc: Global,
    mem: &M,
    from: u32,
) -> Result<Option<(u32, Plan)>, NoMemory>
    requires { KeepsUndoRules (M.device mem.now).cached }
    ensures next { IfOk result (λ found.
        IfSome found (λ next. IsNext (step_parts undo_mending (M.device mem.now).cached) 16 from next.0 next.1.left)) }
    ensures none { IfOk result (λ found.
        IsNone found ↔ NoneFrom (step_parts undo_mending (M.device mem.now).cached) 16 from) }
{
    for number in from..u32::from(OBJECTS) {
        let plan = plan_undo(alloc, mem, number as u8)?;
        if !plan.is_empty() {
            return Ok(Some((number, plan)));
        }
    }
    Ok(None)
}

// Plans the taking back of an object's transaction, where it is open and has no commit word.
fn plan_undo<M: Memory>(alloc: Global, mem: &M, object: u8) -> Result<Plan, NoMemory>
    requires rules { KeepsUndoRules (M.device mem.now).cached }
    requires object { object < 16 }
    ensures { IfOk result (λ plan. plan.left ≡ plan_of (step_parts undo_mending (M.device mem.now).cached object)) }
{
    if mem.load(object_state(object)) != OPEN || mem.load(commit_word(object)) != 0 {
        return Plan::with_room(alloc, 0);
    }
    let entries = filled_entries(alloc, mem, object)?;
    let mut changes = Vec::with_capacity(alloc, entries.len() + usize::from(TABLES) + 1)?;
    push_stamps(mem, &entries, &mut changes);
    push_bounds(mem, &entries, &mut changes);
    let first = changes.len();
    changes.push_reserved(WordChange {
        place: object_state(object),
        value: CLOSED,
    });
    let mut plan = Plan::with_room(alloc, 3 * changes.len() as u32 + 1)?;
    // The object is closed behind its stamps and bounds: else a cut would leave rows that no entry names any more.
    push_parts(alloc, &mut plan, mem, &changes, first)?;
    Ok(plan)
}

// Adds the changes that take back the stamps of these entries.
fn push_stamps<M: Memory>(mem: &M, entries: &[Place], changes: &mut Vec<WordChange>)
    requires rules { KeepsUndoRules (M.device mem.now).cached }
    requires in_image { All (λ at. at.0 < length (M.device mem.now).cached) entries.now }
    requires each { All (λ at. IsTrue (is_entry (M.device mem.now).cached (slice_index (M.device mem.now).cached at.0)))
        entries.now }
    requires empty { changes.old.items ≡ [] }
    requires room { length entries.now ≤ vec_capacity changes.old }
    ensures part { change_part changes.new.items
        ≡ flat_map (undo_entry (M.device mem.now).cached) (words_at (M.device mem.now).cached entries.now) }
    ensures within { All (λ change. change.place.0 < length (M.device mem.now).cached) changes.new.items }
    ensures len { vec_len changes.new ≤ length entries.now }
    ensures capacity { vec_capacity changes.new ≡ vec_capacity changes.old }
{
    for at in entries {
        push_stamp(mem, mem.load(*at), changes);
    }
}

// Adds the change that takes back the stamp of an entry's row, where it isn't that of a commit.
fn push_stamp<M: Memory>(mem: &M, word: u64, changes: &mut Vec<WordChange>)
    requires rules { KeepsUndoRules (M.device mem.now).cached }
    requires entry { IsTrue (is_entry (M.device mem.now).cached word) }
    requires room { vec_len changes.old < vec_capacity changes.old }
    ensures part { change_part changes.new.items ≡ change_part changes.old.items
        ++ undo_entry (M.device mem.now).cached word }
    ensures within { All (λ change. change.place.0 < length (M.device mem.now).cached) changes.old.items →
        All (λ change. change.place.0 < length (M.device mem.now).cached) changes.new.items }
    ensures len { vec_len changes.new ≤ vec_len changes.old + 1 }
    ensures capacity { vec_capacity changes.new ≡ vec_capacity changes.old }
{
    let entry = Entry::of_word(word);
    let table = named_place(mem, table_slot(entry.table as u8));
    let last = mem.load(last_commit());
    match entry.kind {
        EntryKind::Created => {
            let place = place_of(mem, created_header(table), entry.row);
            let stamp = mem.load(place);
            if stamp == 0 || last < stamp {
                changes.push_reserved(WordChange {
                    place,
                    value: NO_COMMIT,
                });
            }
        }
        EntryKind::Ended => {
            let place = place_of(mem, ended_header(table), entry.row);
            if last < mem.load(place) {
                changes.push_reserved(WordChange { place, value: 0 });
            }
        }
    }
}

// Adds the changes that raise the bounds of the tables above the rows that these entries created.
fn push_bounds<M: Memory>(mem: &M, entries: &[Place], changes: &mut Vec<WordChange>)
    requires rules { KeepsUndoRules (M.device mem.now).cached }
    requires in_image { All (λ at. at.0 < length (M.device mem.now).cached) entries.now }
    requires within { All (λ change. change.place.0 < length (M.device mem.now).cached) changes.old.items }
    requires room { vec_len changes.old + 32 ≤ vec_capacity changes.old }
    ensures part { change_part changes.new.items ≡ change_part changes.old.items
        ++ bounds_part (M.device mem.now).cached (words_at (M.device mem.now).cached entries.now) }
    ensures within { All (λ change. change.place.0 < length (M.device mem.now).cached) changes.new.items }
    ensures len { vec_len changes.new ≤ vec_len changes.old + 32 }
    ensures capacity { vec_capacity changes.new ≡ vec_capacity changes.old }
{
    for table in 0..mem.load(table_count()) {
        let place = high(named_place(mem, table_slot(table as u8)));
        let bound = row_bound(mem, entries, table);
        changes.push_reserved(WordChange {
            place,
            value: mem.load(place).max(bound),
        });
    }
}

// One more than the greatest row of a table that these entries created.
fn row_bound<M: Memory>(mem: &M, entries: &[Place], table: u64) -> u64
    requires { All (λ at. at.0 < length (M.device mem.now).cached) entries.now }
    ensures { result ≡ row_bound_of (created_among (words_at (M.device mem.now).cached entries.now) table) }
{
    let mut bound = 0;
    for at in entries {
        let entry = Entry::of_word(mem.load(*at));
        if entry.kind == EntryKind::Created && u64::from(entry.table) == table {
            bound = (u64::from(entry.row) + 1).max(bound);
        }
    }
    bound
}
