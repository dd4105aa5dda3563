// What is looked for, and its order among the key words of a column.
ghost use Rattle.std.specs.Prelude.{◌≡◌, ◌+◌, ◌≤◌, IsTrue, length};
ghost use Rattle.image_layout.specs.EntryRules.{is_text_pointer};
ghost use Rattle.image_layout.specs.Places.{place_in};
ghost use Rattle.image_layout.specs.Trees.{text_length, text_words};
ghost use Rattle.std.specs.Ordering.{is_lt, is_gt};
ghost use Rattle.fp_inner.specs.Keys.{IsKey, is_below, is_above, kind_of};

use crate::steps::Steps;
use mv_model::Text;
use pm_model::{Memory, PPtr, Place, compare_text};
use std::cmp::Ordering;
use std::sync::ledger::Ledger;

/// A key that is looked for.
#[derive(Clone, Copy, Debug, PartialEq, Eq)]
pub enum Probe<'a> {
    /// An integer, by its key word.
    Int(u64),
    /// A text.
    Text(&'a Text),
}

// The place of the text that a key word names.
fn text_place<M: Memory>(mem: &M, key: u64) -> Place
    requires { IsTrue (is_text_pointer (M.device mem.now).cached key) }
    ensures place { result.0 ≡ place_in key }
    ensures short { text_length (M.device mem.now).cached result.0 ≤ 2000 }
    ensures within { result.0 + text_words (text_length (M.device mem.now).cached result.0)
        ≤ length (M.device mem.now).cached }
{
    let pointer = PPtr::try_read(key, mem.len()).unwrap();
    pointer.place().unwrap()
}

impl Probe<'_> {
    /// How it compares with the key that a key word of its column names. This is a step.
    pub fn compare<M: Memory, L: Ledger>(&self, mem: &M, key: u64, steps: &mut Steps<L>) -> Ordering
        requires key { IsKey (M.device mem.now).cached (kind_of self.now) key }
        ensures below { is_lt result ≡ is_below (M.device mem.now).cached self.now key }
        ensures above { is_gt result ≡ is_above (M.device mem.now).cached self.now key }
        ensures step { steps.new ≡ steps.old + 1 }
    {
        steps.tick();
        match self {
            Probe::Int(wanted) => wanted.cmp(&key),
            Probe::Text(wanted) => {
                let at = text_place(mem, key);
                compare_text(mem, at, wanted.as_str().as_bytes()).reverse()
            }
        }
    }
}
