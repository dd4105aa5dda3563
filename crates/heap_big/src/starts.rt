ghost use Rattle.std.specs.Prelude.{◌≡◌, ◌≢◌, ◌⊎◌, ◌↔◌, ◌<◌, ◌≤◌, [], IsNone, IfOk, IfSome, ℕ, List};
ghost use Rattle.heap_big.specs.declared.run.Run.{Run};
ghost use Rattle.heap_big.specs.Starts.{starts_of, HasRun, IsShortest};

use crate::page_set::PageSet;
use crate::{NoMemory, Run};
use std::alloc::Global;
use std::marker::Model;

// A run lies in one segment of 64 pages.
const LENGTHS: usize = 64;

/// Where the free runs of each length begin. No call but `new` takes memory, and none looks at all runs.
#[derive(Debug, Drop)]
pub(crate) struct Starts {
    // For each number of pages, from 1 on, the first pages of the runs that have so many.
    sets: Vec<PageSet>,
    // A bit for each of these that has any.
    used: u64,
}

impl Model for Starts {
    ghost use Rattle.std.specs.Prelude.{List, ℕ};

    ghost Value = { List (List ℕ) };

    ghost use Rattle.heap_big.specs.Starts.{starts_in, IsStarts};

    ghost view = { starts_in };

    ghost invariant = { IsStarts };
}

impl Starts {
    /// No runs.
    pub(crate) fn new(alloc: Global) -> Result<Starts, NoMemory>
        ensures { IfOk result (λ starts. (run : Run) → HasRun starts run → ⊥) }
    {
        let mut sets = Vec::with_capacity(alloc, LENGTHS)?;
        for _ in 0..LENGTHS {
            sets.push_reserved(PageSet::new());
        }
        Ok(Starts { sets, used: 0 })
    }

    /// Adds a run; one of no pages adds nothing.
    pub(crate) fn add(&mut self, run: Run)
        requires short { run.pages ≤ 64 }
        requires within { 0 < run.pages → run.first < 8192 }
        requires new { HasRun self.old run → ⊥ }
        ensures { (other : Run) → HasRun self.new other ↔ (HasRun self.old other ⊎ ((0 < run.pages) × (other ≡ run))) }
    {
        if run.pages > 0 {
            self.add_some(run);
        }
    }

    // Adds a run that has a page.
    fn add_some(&mut self, run: Run)
        requires some { 0 < run.pages }
        requires short { run.pages ≤ 64 }
        requires within { run.first < 8192 }
        requires new { HasRun self.old run → ⊥ }
        ensures { (other : Run) → HasRun self.new other ↔ (HasRun self.old other ⊎ (other ≡ run)) }
    {
        let at = run.pages as usize - 1;
        let set = &mut self.sets[at];
        set.insert(run.first);
        self.used |= 1 << at;
    }

    /// Takes a run out; one of no pages takes nothing.
    pub(crate) fn remove(&mut self, run: Run)
        requires { 0 < run.pages → HasRun self.old run }
        ensures { (other : Run) → HasRun self.new other ↔ (HasRun self.old other × (other ≢ run)) }
    {
        if run.pages > 0 {
            self.remove_some(run);
        }
    }

    // Takes a run out that has a page.
    fn remove_some(&mut self, run: Run)
        requires { HasRun self.old run }
        ensures { (other : Run) → HasRun self.new other ↔ (HasRun self.old other × (other ≢ run)) }
    {
        let at = run.pages as usize - 1;
        let set = &mut self.sets[at];
        set.remove(run.first);
        if set.is_empty() {
            self.used &= !(1 << at);
        }
    }

    /// The shortest run that has so many pages, and of several the lowest; none where each is shorter.
    pub(crate) fn shortest(&self, pages: u32) -> Option<Run>
        ensures none { IsNone result ↔ ((run : Run) → HasRun self.now run → run.pages < pages) }
        ensures shortest { IfSome result (IsShortest self.now pages) }
    {
        let least = pages.max(1) - 1;
        let longer = self.used.checked_shr(least)?;
        if longer == 0 {
            return None;
        }
        let at = least + longer.trailing_zeros();
        let first = self.sets[at as usize].lowest()?;
        Some(Run {
            first,
            pages: at + 1,
        })
    }

    /// The pages of the longest run, 0 where there is none.
    pub(crate) fn longest(&self) -> u32
        ensures reached { (result ≡ 0) ⊎ ((run : Run) × HasRun self.now run × (run.pages ≡ result)) }
        ensures bound { (run : Run) → HasRun self.now run → run.pages ≤ result }
    {
        64 - self.used.leading_zeros()
    }
}
