ghost use Rattle.std.specs.Prelude.{◌≡◌, ◌⊎◌, ◌+◌, ◌*◌, ◌/◌, ◌%◌, ◌<◌, ◌≤◌, ◌↔◌, All, IsNone, IfOk, IfSome, IfNone, length, ℕ, slice_index, vec_len};
ghost use Rattle.heap_big.specs.Runs.{end_of, HasPage, IsFree, IsInSegment, longest, IsGreatest, IsWellFormed, Adds, Removes};
ghost use Rattle.heap_big.specs.Fit.{TakesBestFit};
ghost use Rattle.heap_big.specs.Descriptors.{inside_next, IsFreePage, EndsAt};

use crate::segment::{bits_of, neighbours};
use crate::starts::Starts;
use crate::{NoMemory, Run};
use std::alloc::Global;
use std::marker::Model;

// How many pages of a big block are left behind a page; none where a segment ends.
fn left_behind(page: u16, descriptor: u64, inside: u64) -> u64
    ensures { result ≡ inside_next page inside descriptor }
{
    if page % 64 == 63 {
        return 0;
    }
    if inside > 0 {
        return inside - 1;
    }
    descriptor.saturating_sub(17)
}

const NO_PAGES: Run = Run { first: 0, pages: 0 };

/// The index of the free runs of a heap.
#[derive(Debug, Drop)]
pub struct Runs {
    // For each segment the bits of its free pages.
    free: Vec<u64>,
    starts: Starts,
}

impl Model for Runs {
    ghost use Rattle.heap_big.specs.Runs.{FreeRuns};

    ghost Value = { FreeRuns };

    ghost use Rattle.heap_big.specs.Index.{free_runs, IsIndex};

    ghost view = { free_runs };

    ghost invariant = { IsIndex };
}

impl Runs {
    /// The index of a heap whose pages have these descriptors, 64 for each segment.
    ///
    /// No other call takes memory.
    pub fn from_descriptors(alloc: Global, descriptors: &[u64]) -> Result<Runs, NoMemory>
        requires whole { length descriptors.now % 64 ≡ 0 }
        requires small { length descriptors.now ≤ 8192 }
        ensures page_count { IfOk result (λ free. free.page_count ≡ length descriptors.now) }
        ensures pages { IfOk result (λ free. (page : ℕ)
            → IsFree free.runs page ↔ IsFreePage descriptors.now page) }
        ensures well_formed { IfOk result IsWellFormed }
    {
        let mut index = Runs {
            free: vec![in alloc; 0; descriptors.len() / 64]?,
            starts: Starts::new(alloc)?,
        };
        let mut inside = 0;
        let mut pending = NO_PAGES;
        for (page, descriptor) in descriptors.iter().enumerate() {
            pending = index.scan(page as u16, *descriptor, inside, pending);
            inside = left_behind(page as u16, *descriptor, inside);
        }
        Ok(index)
    }

    // Reads the next page, behind free ones that aren't in the index yet, and gives those that aren't so behind it.
    // They are put back together, where a page isn't free or the segment ends.
    fn scan(&mut self, page: u16, descriptor: u64, inside: u64, pending: Run) -> Run
        requires well_formed { IsWellFormed self.old }
        requires within { page < self.old.page_count }
        requires not_free { IsFree self.old.runs page → ⊥ }
        requires pending { EndsAt pending page }
        requires apart { (other : ℕ) → HasPage pending other → IsFree self.old.runs other → ⊥ }
        ensures free { inside ≡ 0 → descriptor ≤ 1 → (other : ℕ)
            → (IsFree self.new.runs other ⊎ HasPage result other) ↔
            ((IsFree self.old.runs other ⊎ HasPage pending other) ⊎ (other ≡ page)) }
        ensures inside { 0 < inside → (other : ℕ)
            → (IsFree self.new.runs other ⊎ HasPage result other) ↔
            (IsFree self.old.runs other ⊎ HasPage pending other) }
        ensures used { 1 < descriptor → (other : ℕ)
            → (IsFree self.new.runs other ⊎ HasPage result other) ↔
            (IsFree self.old.runs other ⊎ HasPage pending other) }
        ensures pending { EndsAt result (page + 1) }
        ensures apart { (other : ℕ) → HasPage result other → IsFree self.new.runs other → ⊥ }
        ensures page_count { self.new.page_count ≡ self.old.page_count }
        ensures well_formed { IsWellFormed self.new }
    {
        if inside > 0 || descriptor > 1 {
            self.put_back_any(pending);
            return NO_PAGES;
        }
        let longer = Run {
            first: page - pending.pages as u16,
            pages: pending.pages + 1,
        };
        if page % 64 < 63 {
            return longer;
        }
        self.put_back(longer);
        NO_PAGES
    }

    // Makes the pages of the run free, where it has any.
    fn put_back_any(&mut self, run: Run)
        requires well_formed { IsWellFormed self.old }
        requires in_segment { 0 < run.pages → IsInSegment run }
        requires within { 0 < run.pages → end_of run ≤ self.old.page_count }
        requires not_free { (page : ℕ) → HasPage run page → IsFree self.old.runs page → ⊥ }
        ensures pages { Adds self.old.runs run self.new.runs }
        ensures page_count { self.new.page_count ≡ self.old.page_count }
        ensures well_formed { IsWellFormed self.new }
    {
        if run.pages > 0 {
            self.put_back(run);
        }
    }

    /// Takes so many pages from the front of the shortest run that has them, and of several such
    /// runs from the first; none where each run is shorter.
    pub fn take(&mut self, pages: u32) -> Option<Run>
        ensures none { IsNone result ↔ All (λ run. run.pages < pages) self.old.runs }
        ensures best { IfSome result (λ run. TakesBestFit self.old.runs pages run self.new.runs) }
        ensures size { IfSome result (λ run. run.pages ≡ pages) }
        ensures were_free { IfSome result (λ run. (page : ℕ)
            → HasPage run page → IsFree self.old.runs page) }
        ensures pages { IfSome result (λ run. Removes self.old.runs run self.new.runs) }
        ensures in_segment { IfSome result (λ run. run.first % 64 + run.pages ≤ 64) }
        ensures within { IfSome result (λ run. end_of run ≤ self.old.page_count) }
        ensures unchanged { IfNone result (self.new ≡ self.old) }
        ensures page_count { self.new.page_count ≡ self.old.page_count }
        ensures well_formed { IsWellFormed self.new }
    {
        let best = self.starts.shortest(pages)?;
        self.starts.remove(best);
        self.starts.add(Run {
            first: best.first + pages as u16,
            pages: best.pages - pages,
        });
        let taken = Run {
            first: best.first,
            pages,
        };
        self.free[usize::from(taken.first / 64)] &= !bits_of(taken);
        Some(taken)
    }

    /// Makes the pages of the run free. It joins its neighbours of the same segment.
    pub fn put_back(&mut self, run: Run)
        requires in_segment { IsInSegment run }
        requires within { end_of run ≤ self.old.page_count }
        requires not_free { (page : ℕ) → HasPage run page → IsFree self.old.runs page → ⊥ }
        ensures pages { Adds self.old.runs run self.new.runs }
        ensures page_count { self.new.page_count ≡ self.old.page_count }
        ensures well_formed { IsWellFormed self.new }
    {
        let at = usize::from(run.first / 64);
        let free = self.free[at];
        let (left, right) = neighbours(free, run);
        self.starts.remove(left);
        self.starts.remove(right);
        self.starts.add(Run {
            first: left.first,
            pages: left.pages + run.pages + right.pages,
        });
        self.free[at] = free | bits_of(run);
    }

    /// The pages of the longest run, 0 where no page is free.
    pub fn largest(&self) -> u32
        ensures longest { result ≡ longest self.now.runs }
        ensures greatest { IsGreatest self.now.runs result }
        ensures well_formed { IsWellFormed self.now }
    {
        self.starts.longest()
    }
}
