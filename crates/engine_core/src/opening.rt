// Opening mends a memory by one plan after the other, each made from the words as they are.
ghost use Rattle.std.specs.Prelude.{◌≡◌, false, not, ◌&&◌, ◌==◌, drop, slice_index_or, ℕ, ◌+◌, ◌-◌, ◌*◌, ◌<◌, ◌≤◌, ◌++◌, max, [], ◌∷◌, length, slice_index, map, IfOk, IfNone, IfSome, None, Some, vec_len, vec_capacity};
ghost use Rattle.std.specs.List.{flat_map};
ghost use Rattle.image_layout.specs.Fixed.{entry_at, last_at, commit_word_at, state_at};
ghost use Rattle.pm_model.specs.Device.{IsWhole};
ghost use Rattle.image_layout.specs.Places.{below};
ghost use Rattle.pm_model.specs.Plans.{Part, IsPlan, finished, one_store, stores, part_actions, plan_of, unless_empty, at_rest};
ghost use Rattle.stage_object.specs.Object.{entries_in};
ghost use Rattle.engine_core.specs.Stage.{high_at};
ghost use Rattle.engine_core.specs.LogicalState.{commit_count, of_open, past_entry};
ghost use Rattle.engine_core.specs.ImageRules.{KeepsEntryRules};
ghost use Rattle.pm_model.specs.Needed.{needed_stores, needed_parts, after_mending};
ghost use Rattle.engine_core.specs.Opening.{is_open, last_mending, undo_mending, close_mending, clear_mending, undo_entry, undo_part, past_created, recovered, mendings};
ghost use Rattle.engine_core.specs.Mended.{mending_of, mended_plan, cleared_part, AreMended, IsMending, IsOfObject, IsTaken};

use crate::layout::{born, ended, high};
use pm_model::{
    Action, Memory, NO_COMMIT, NoMemory, OBJECT_ENTRIES, OBJECTS, Place, Plan, commit_word,
    entry_word, last_commit, object_state, play,
};
use std::alloc::Global;
use txn_object::{Entry, EntryKind};

// How many mendings there are: the last commit number, and three rounds over the objects.
const MENDINGS: u8 = 1 + 3 * OBJECTS;

// The stores that a part of a mending may have: those of the entries of an object, and one more.
const PART_STORES: usize = OBJECT_ENTRIES as usize + 1;

// A mending has at most 62 stores, a flush for each but the last, and two fences.
const MENDING_ACTIONS: u32 = 128;

// No mending stores behind the stamps.
const MENDED_WORDS: usize = 10_240;

/// What opening mends: the last commit number, and then the objects, of which it undoes those without a commit word,
/// closes the others and clears all.
#[derive(Clone, Copy, Debug)]
pub(crate) enum Mending {
    Last,
    Undo(u8),
    Close(u8),
    Clear(u8),
}

impl Mending {
    // The mending at this place in their order.
    fn nth(place: u8) -> Mending
        requires { place < 49 }
        ensures mending { drop place mendings ≡ mending_of result ∷ drop (place + 1) mendings }
        ensures object { IsOfObject result }
    {
        if place == 0 {
            Mending::Last
        } else if place <= OBJECTS {
            Mending::Undo(place - 1)
        } else if place <= 2 * OBJECTS {
            Mending::Close(place - 1 - OBJECTS)
        } else {
            Mending::Clear(place - 1 - 2 * OBJECTS)
        }
    }
}

/// Mends a memory that rests, by all mendings in their order. Where memory is refused, some of them were played.
pub(crate) fn mend_all<M: Memory>(alloc: Global, memory: &mut M) -> Result<(), NoMemory>
    requires whole { IsWhole (M.device memory.old) }
    requires rests { M.device memory.old ≡ at_rest (M.device memory.old).cached }
    requires rules { KeepsEntryRules (M.device memory.old).cached }
    ensures { IfOk result (λ _. M.device memory.new ≡ at_rest (recovered (M.device memory.old).cached)) }
{
    for place in 0..MENDINGS {
        mend(alloc, memory, Mending::nth(place))?;
    }
    Ok(())
}

// Plays the plan of one mending.
fn mend<M: Memory>(alloc: Global, memory: &mut M, mending: Mending) -> Result<(), NoMemory>
    requires whole { IsWhole (M.device memory.old) }
    requires rests { M.device memory.old ≡ at_rest (M.device memory.old).cached }
    requires rules { KeepsEntryRules (M.device memory.old).cached }
    requires object { IsOfObject mending }
    requires plan { IsMending (mending_of mending) (M.device memory.old).cached }
    ensures { IfOk result
        (λ _. M.device memory.new ≡ at_rest (after_mending (mending_of mending) (M.device memory.old).cached)) }
{
    let mut plan = plan_mending(alloc, memory, mending)?;
    let count = plan.len();
    play(memory, 0, &mut plan, count);
    Ok(())
}

/// The plan of one mending, made from the words as they are.
pub(crate) fn plan_mending<M: Memory>(
    alloc: Global,
    memory: &M,
    mending: Mending,
) -> Result<Plan, NoMemory>
    requires whole { IsWhole (M.device memory.now) }
    requires rules { KeepsEntryRules (M.device memory.now).cached }
    requires object { IsOfObject mending }
    ensures { IfOk result (λ plan. plan.left ≡ mended_plan (mending_of mending) (M.device memory.now).cached) }
{
    match mending {
        Mending::Last => plan_last(alloc, memory),
        Mending::Undo(object) => plan_undo(alloc, memory, object),
        Mending::Close(object) => plan_close(alloc, memory, object),
        Mending::Clear(object) => plan_clear(alloc, memory, object),
    }
}

fn plan_last<M: Memory>(alloc: Global, memory: &M) -> Result<Plan, NoMemory>
    requires whole { IsWhole (M.device memory.now) }
    ensures { IfOk result (λ plan. plan.left ≡ mended_plan (last_mending) (M.device memory.now).cached) }
{
    let mut part = Vec::with_capacity(alloc, PART_STORES)?;
    // The last number rises before an object is closed: a closed object's commit word counts no longer.
    part.push_reserved(Action::Store {
        place: last_commit(),
        value: count_commits(memory),
    });
    let mut plan = Plan::with_room(alloc, MENDING_ACTIONS)?;
    push_needed(alloc, memory, &part, &mut plan)?;
    Ok(plan)
}

fn plan_undo<M: Memory>(alloc: Global, memory: &M, object: u8) -> Result<Plan, NoMemory>
    requires whole { IsWhole (M.device memory.now) }
    requires rules { KeepsEntryRules (M.device memory.now).cached }
    requires object { object < 16 }
    ensures { IfOk result (λ plan. plan.left ≡ mended_plan (undo_mending object) (M.device memory.now).cached) }
{
    let mut plan = Plan::with_room(alloc, MENDING_ACTIONS)?;
    if !is_undecided(memory, object) {
        return Ok(plan);
    }
    let part = undo_stores(alloc, memory, object)?;
    push_needed(alloc, memory, &part, &mut plan)?;
    push_idle(&mut plan, object);
    Ok(plan)
}

fn plan_close<M: Memory>(alloc: Global, memory: &M, object: u8) -> Result<Plan, NoMemory>
    requires whole { IsWhole (M.device memory.now) }
    requires object { object < 16 }
    ensures { IfOk result (λ plan. plan.left ≡ mended_plan (close_mending object) (M.device memory.now).cached) }
{
    let mut plan = Plan::with_room(alloc, MENDING_ACTIONS)?;
    if !is_decided(memory, object) {
        return Ok(plan);
    }
    push_idle(&mut plan, object);
    Ok(plan)
}

// Whether an object is open and has no commit word.
fn is_undecided<M: Memory>(memory: &M, object: u8) -> bool
    requires whole { IsWhole (M.device memory.now) }
    requires object { object < 16 }
    ensures { result ≡ (is_open (M.device memory.now).cached object
        && slice_index (M.device memory.now).cached (commit_word_at object) == 0) }
{
    memory.load(object_state(object)) == 1 && memory.load(commit_word(object)) == 0
}

// Whether an object is open and has its commit word.
fn is_decided<M: Memory>(memory: &M, object: u8) -> bool
    requires whole { IsWhole (M.device memory.now) }
    requires object { object < 16 }
    ensures { result ≡ (is_open (M.device memory.now).cached object
        && not (slice_index (M.device memory.now).cached (commit_word_at object) == 0)) }
{
    memory.load(object_state(object)) == 1 && memory.load(commit_word(object)) != 0
}

fn plan_clear<M: Memory>(alloc: Global, memory: &M, object: u8) -> Result<Plan, NoMemory>
    requires whole { IsWhole (M.device memory.now) }
    requires object { object < 16 }
    ensures { IfOk result (λ plan. plan.left ≡ mended_plan (clear_mending object) (M.device memory.now).cached) }
{
    let part = clear_stores(alloc, object)?;
    let mut plan = Plan::with_room(alloc, MENDING_ACTIONS)?;
    push_needed(alloc, memory, &part, &mut plan)?;
    Ok(plan)
}

// Adds the part that makes an object idle.
fn push_idle(plan: &mut Plan, object: u8)
    requires object { object < 16 }
    requires room { 3 ≤ plan.old.spare }
    ensures { plan.new.left ≡ plan.old.left ++ part_actions (one_store (state_at object) 0) }
{
    // Once this is durable the object has no transaction: its stamps were taken back, or its commit is kept, before.
    plan.push(Action::Store {
        place: object_state(object),
        value: 0,
    });
    plan.end_part(1);
}

// How many commits the words stand for.
fn count_commits<M: Memory>(memory: &M) -> u64
    requires whole { IsWhole (M.device memory.now) }
    ensures { result ≡ commit_count (M.device memory.now).cached }
{
    let mut count = 0;
    for object in 0..OBJECTS {
        count = open_commit(memory, object).max(count);
    }
    memory.load(last_commit()).max(count)
}

// The commit word of an open object, and 0 of an idle one.
fn open_commit<M: Memory>(memory: &M, object: u8) -> u64
    requires whole { IsWhole (M.device memory.now) }
    requires object { object < 16 }
    ensures { result ≡ of_open (M.device memory.now).cached
        (λ k. slice_index (M.device memory.now).cached (commit_word_at k)) object }
{
    if memory.load(object_state(object)) == 1 {
        memory.load(commit_word(object))
    } else {
        0
    }
}

// One more than the greatest row that an object's entries created.
fn past_rows<M: Memory>(memory: &M, object: u8) -> u64
    requires whole { IsWhole (M.device memory.now) }
    requires object { object < 16 }
    ensures { result ≡ past_created (M.device memory.now).cached object }
{
    let mut past = 0;
    for nth in 0..OBJECT_ENTRIES {
        past = past_row(memory.load(entry_word(object, nth))).max(past);
    }
    past
}

// One more than the row that an entry word says was created.
fn past_row(word: u64) -> u64
    ensures { result ≡ past_entry word }
{
    let entry = Entry::of_word(word);
    match entry.kind {
        EntryKind::Created => u64::from(entry.row) + 1,
        EntryKind::Ended => 0,
    }
}

// The stores that take back the stamps of an object's rows, and then the one that says how many rows are used up.
fn undo_stores<M: Memory>(alloc: Global, memory: &M, object: u8) -> Result<Vec<Action>, NoMemory>
    requires whole { IsWhole (M.device memory.now) }
    requires rules { KeepsEntryRules (M.device memory.now).cached }
    requires object { object < 16 }
    requires opened { slice_index (M.device memory.now).cached (state_at object) ≡ 1 }
    ensures part { IfOk result (λ part. part.items ≡ undo_part (M.device memory.now).cached object) }
    ensures few { IfOk result (λ part. length part.items ≤ 61) }
{
    let mut part = Vec::with_capacity(alloc, PART_STORES)?;
    for nth in 0..OBJECT_ENTRIES {
        let word = memory.load(entry_word(object, nth));
        if word == 0 {
            break;
        }
        push_undo(memory, Entry::of_word(word), &mut part);
    }
    part.push_reserved(Action::Store {
        place: high(),
        value: memory.load(high()).max(past_rows(memory, object)),
    });
    Ok(part)
}

// Adds the store that takes back the stamp of an entry's row, where one is needed.
fn push_undo<M: Memory>(memory: &M, entry: Entry, part: &mut Vec<Action>)
    requires whole { IsWhole (M.device memory.now) }
    requires row { entry.row < 4096 }
    requires room { vec_len part.old < vec_capacity part.old }
    ensures items { part.new.items ≡ part.old.items ++ undo_entry (M.device memory.now).cached entry }
    ensures len { vec_len part.new ≤ vec_len part.old + 1 }
    ensures capacity { vec_capacity part.new ≡ vec_capacity part.old }
{
    let last = memory.load(last_commit());
    match entry.kind {
        EntryKind::Created => {
            let place = born(entry.row);
            let stamp = memory.load(place);
            if stamp == 0 || last < stamp {
                part.push_reserved(Action::Store {
                    place,
                    value: NO_COMMIT,
                });
            }
        }
        EntryKind::Ended => {
            let place = ended(entry.row);
            if last < memory.load(place) {
                part.push_reserved(Action::Store { place, value: 0 });
            }
        }
    }
}

// 0 over an object's entries and its commit word.
fn clear_stores(alloc: Global, object: u8) -> Result<Vec<Action>, NoMemory>
    requires object { object < 16 }
    ensures part { IfOk result (λ part. part.items ≡ cleared_part object) }
    ensures few { IfOk result (λ part. length part.items ≤ 61) }
{
    let mut part = Vec::with_capacity(alloc, PART_STORES)?;
    for nth in 0..OBJECT_ENTRIES {
        part.push_reserved(Action::Store {
            place: entry_word(object, nth),
            value: 0,
        });
    }
    part.push_reserved(Action::Store {
        place: commit_word(object),
        value: 0,
    });
    Ok(part)
}

// Adds the stores of a part that are needed, and its end where there are any.
fn push_needed<M: Memory>(
    alloc: Global,
    memory: &M,
    part: &[Action],
    plan: &mut Plan,
) -> Result<(), NoMemory>
    requires whole { IsWhole (M.device memory.now) }
    requires stores { AreMended part.now }
    requires few { length part.now ≤ 61 }
    requires empty { plan.old.left ≡ [] }
    requires room { 126 ≤ plan.old.spare }
    ensures left { IfOk result
        (λ _. plan.new.left ≡ plan_of (unless_empty (needed_stores (M.device memory.now).cached part.now))) }
    ensures spare { IfOk result (λ _. 3 ≤ plan.new.spare) }
{
    let needed = needed(alloc, memory, part)?;
    if needed.is_empty() {
        return Ok(());
    }
    push_stores(plan, &needed);
    plan.end_part(needed.len() as u32);
    Ok(())
}

// Adds actions.
fn push_stores(plan: &mut Plan, stores: &[Action])
    requires { length stores.now ≤ plan.old.spare }
    ensures left { plan.new.left ≡ plan.old.left ++ stores.now }
    ensures spare { plan.new.spare + length stores.now ≡ plan.old.spare }
{
    for store in stores {
        plan.push(*store);
    }
}

// Of several stores to one word the last one, and of those the ones that change their word.
fn needed<M: Memory>(alloc: Global, memory: &M, part: &[Action]) -> Result<Vec<Action>, NoMemory>
    requires whole { IsWhole (M.device memory.now) }
    requires stores { AreMended part.now }
    requires few { length part.now ≤ 61 }
    ensures needed { IfOk result (λ kept. kept.items ≡ needed_stores (M.device memory.now).cached part.now) }
    ensures few { IfOk result (λ kept. length kept.items ≤ length part.now) }
{
    let mut marks = no_marks(alloc, MENDED_WORDS)?;
    let mut kept = Vec::with_capacity(alloc, part.len())?;
    take_stores(memory, part, &mut kept, &mut marks);
    kept.reverse();
    Ok(kept)
}

// Takes the needed stores of a part, the last one first.
fn take_stores<M: Memory>(memory: &M, part: &[Action], kept: &mut Vec<Action>, marks: &mut [bool])
    requires whole { IsWhole (M.device memory.now) }
    requires stores { AreMended part.now }
    requires none { kept.old.items ≡ [] }
    requires room { length part.now ≤ vec_capacity kept.old }
    requires size { length marks.old ≡ 10240 }
    requires unmarked { (w : ℕ) → w < 10240 → slice_index_or marks.old w false ≡ false }
    ensures taken { IsTaken (M.device memory.now).cached part.now kept.new.items marks.new }
    ensures len { vec_len kept.new ≤ length part.now }
{
    for done in 0..part.len() {
        take_store(memory, part[part.len() - 1 - done], kept, marks);
    }
}

// So many words, none of which is marked.
fn no_marks(alloc: Global, count: usize) -> Result<Vec<bool>, NoMemory>
    ensures size { IfOk result (λ marks. length marks.items ≡ count) }
    ensures none { IfOk result (λ marks. (w : ℕ) → w < count → slice_index_or marks.items w false ≡ false) }
{
    Ok(vec![in alloc; false; count]?)
}

// Takes a store before those that were taken, where it is needed, and marks its word.
fn take_store<M: Memory>(memory: &M, store: Action, kept: &mut Vec<Action>, marks: &mut [bool])
    requires whole { IsWhole (M.device memory.now) }
    requires stores { AreMended (store ∷ []) }
    requires marks { length marks.old ≡ 10240 }
    requires room { vec_len kept.old < vec_capacity kept.old }
    ensures taken { (part : Part) → IsTaken (M.device memory.now).cached part kept.old.items marks.old
        → IsTaken (M.device memory.now).cached (store ∷ part) kept.new.items marks.new }
    ensures len { vec_len kept.new ≤ vec_len kept.old + 1 }
    ensures capacity { vec_capacity kept.new ≡ vec_capacity kept.old }
    ensures size { length marks.new ≡ 10240 }
{
    let Action::Store { place, value } = store else {
        unreachable!()
    };
    let word = place.0 as usize;
    if !marks[word] && memory.load(place) != value {
        kept.push_reserved(store);
    }
    marks[word] = true;
}
