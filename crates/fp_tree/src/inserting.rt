// The insertion of a pair.
ghost use Rattle.std.specs.Prelude.{◌≡◌, ◌+◌, ◌<◌, ◌≤◌, ◌++◌, [], IfOk, IsTrue, None, length};
ghost use Rattle.fp_inner.specs.Keys.{kind_of};
ghost use Rattle.image_layout.specs.Trees.{integer_fingerprint, leaf_list};
ghost use Rattle.tree_cuts.specs.Insertion.{IsLead, lead_part, with_byte};
ghost use Rattle.fp_tree.specs.Inserted.{HasInsertion, IsInserted, IsPlaceFor, lead_of, new_pair_stores};
ghost use Rattle.fp_tree.specs.Standing.{HasNoKey, Stands, is_key, print_of, room_in};
ghost use Rattle.fp_tree.specs.declared.room.Room.TheVariants.{Free};

use crate::reading::{fingerprint, key_place};
use crate::tree::Tree;
use fp_inner::Probe;
use fp_leaf::free_slot;
use heap_small::with;
use pm_model::{Action, Memory, NoMemory, Place, Plan};
use std::alloc::Global;

// The lead, the three stores of the pair, a flush for each of the four and a fence; a store, a flush and a fence.
const INSERTION_ACTIONS: u32 = 12;

// A pair that is put into a slot of a leaf, and its fingerprint.
#[derive(Clone, Copy)]
pub struct NewPair {
    pub leaf: Place,
    pub slot: u8,
    pub key: u64,
    pub code: u32,
    pub print: u8,
}

impl Tree {
    /// Plans the insertion of a key with its code, into the least free slot of its leaf. `lead` is one more store, with
    /// which the plan begins: to a word outside the column's record and its leaves. `key` is the key word of `probe`.
    ///
    /// The pair is fenced before its slot is used. The plan may be played by any session, where the words that it
    /// writes are clean.
    pub fn plan_insert<M: Memory>(
        &self,
        alloc: Global,
        mem: &M,
        lead: Option<(Place, u64)>,
        key: u64,
        probe: &Probe,
        code: u32,
    ) -> Result<Plan, NoMemory>
        requires stands { Stands (M.device mem.now).cached self.now }
        requires kind { kind_of probe.now ≡ self.now.inner.kind }
        requires key { IsTrue (is_key (M.device mem.now).cached probe.now key) }
        requires absent { HasNoKey (M.device mem.now).cached self.now.column probe.now }
        requires room { room_in (M.device mem.now).cached probe.now
            (leaf_list (M.device mem.now).cached self.now.column) ≡ Free }
        requires lead { IsLead (length (M.device mem.now).cached) self.now.column
            (leaf_list (M.device mem.now).cached self.now.column) (lead_of lead) }
        ensures { IfOk result (λ plan.
            IsInserted (M.device mem.now).cached self.now.column (lead_of lead) probe.now key code [] plan.left) }
    {
        let mut plan = Plan::with_room(alloc, INSERTION_ACTIONS)?;
        let pair = self.new_pair(mem, key, probe, code);
        let led = push_lead(&mut plan, lead);
        push_insertion(&mut plan, mem, pair, led);
        Ok(plan)
    }

    /// Adds the actions of `plan_insert` without a lead to a plan. It takes no memory.
    pub fn push_insert<M: Memory>(
        &self,
        plan: &mut Plan,
        mem: &M,
        key: u64,
        probe: &Probe,
        code: u32,
    )
        requires stands { Stands (M.device mem.now).cached self.now }
        requires kind { kind_of probe.now ≡ self.now.inner.kind }
        requires key { IsTrue (is_key (M.device mem.now).cached probe.now key) }
        requires absent { HasNoKey (M.device mem.now).cached self.now.column probe.now }
        requires room { room_in (M.device mem.now).cached probe.now
            (leaf_list (M.device mem.now).cached self.now.column) ≡ Free }
        requires spare { 12 ≤ plan.old.spare }
        ensures { IsInserted (M.device mem.now).cached self.now.column None probe.now key code
            plan.old.left plan.new.left }
    {
        push_insertion(plan, mem, self.new_pair(mem, key, probe, code), 0);
    }

    // The pair, in the least free slot of its leaf.
    fn new_pair<M: Memory>(&self, mem: &M, key: u64, probe: &Probe, code: u32) -> NewPair
        requires stands { Stands (M.device mem.now).cached self.now }
        requires kind { kind_of probe.now ≡ self.now.inner.kind }
        requires key { IsTrue (is_key (M.device mem.now).cached probe.now key) }
        requires absent { HasNoKey (M.device mem.now).cached self.now.column probe.now }
        requires room { room_in (M.device mem.now).cached probe.now
            (leaf_list (M.device mem.now).cached self.now.column) ≡ Free }
        ensures place { IsPlaceFor (M.device mem.now).cached self.now.column probe.now key result.leaf.0 result.slot }
        ensures key { result.key ≡ key }
        ensures code { result.code ≡ code }
        ensures print { result.print ≡ integer_fingerprint key }
    {
        let leaf = self.leaf(mem, probe).unwrap();
        let slot = free_slot(mem.load(leaf)).unwrap();
        NewPair {
            leaf,
            slot,
            key,
            code,
            print: fingerprint(probe),
        }
    }
}

// Adds the lead, where there is one, and says how many stores that makes.
fn push_lead(plan: &mut Plan, lead: Option<(Place, u64)>) -> u32
    requires { 0 < plan.old.spare }
    ensures left { plan.new.left ≡ plan.old.left ++ lead_part (lead_of lead) }
    ensures count { result ≡ length (lead_part (lead_of lead)) }
    ensures most { result ≤ 1 }
    ensures spare { plan.new.spare + result ≡ plan.old.spare }
{
    let Some((place, value)) = lead else {
        return 0;
    };
    plan.push(Action::Store { place, value });
    1
}

// Adds the insertion of a pair, whose first part begins with the last `led` actions of the plan.
fn push_insertion<M: Memory>(plan: &mut Plan, mem: &M, pair: NewPair, led: u32)
    requires slot { pair.slot < 48 }
    requires within { pair.leaf.0 + 104 ≤ length (M.device mem.now).cached }
    requires print { pair.print ≡ integer_fingerprint pair.key }
    requires led { led ≤ 1 }
    requires count { led ≤ length plan.old.left }
    requires room { 10 + led ≤ plan.old.spare }
    ensures { HasInsertion (M.device mem.now).cached pair led plan.old.left plan.new.left }
{
    push_pair(plan, mem, pair);
    // The pair is fenced before its slot is used: else the slot's old words would be a pair.
    plan.end_part(led + 3);
    // From here on the slot is used.
    plan.push_store(pair.leaf, with(mem.load(pair.leaf), pair.slot));
}

// Adds the stores of a pair: its key word, its code, and its fingerprint among those of its word.
fn push_pair<M: Memory>(plan: &mut Plan, mem: &M, pair: NewPair)
    requires slot { pair.slot < 48 }
    requires within { pair.leaf.0 + 104 ≤ length (M.device mem.now).cached }
    requires room { 3 ≤ plan.old.spare }
    ensures left { plan.new.left ≡ plan.old.left ++ new_pair_stores (M.device mem.now).cached pair }
    ensures spare { plan.new.spare + 3 ≡ plan.old.spare }
{
    let at = key_place(pair.leaf, pair.slot);
    plan.push(Action::Store {
        place: at,
        value: pair.key,
    });
    plan.push(Action::Store {
        place: Place(at.0 + 1),
        value: u64::from(pair.code),
    });
    let prints = Place(pair.leaf.0 + 2 + u32::from(pair.slot / 8));
    plan.push(Action::Store {
        place: prints,
        value: with_byte(mem.load(prints), pair.slot % 8, pair.print),
    });
}

// A word in which one byte, the lowest being the first, has another value.
fn with_byte(word: u64, byte: u8, value: u8) -> u64
    requires { byte < 8 }
    ensures { result ≡ with_byte word byte value }
{
    let unit = 1u64 << (8 * byte);
    word - word / unit % 256 * unit + u64::from(value) * unit
}
