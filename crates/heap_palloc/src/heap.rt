// The volatile index of a heap's words.
ghost use Rattle.std.specs.Prelude.{◌≡◌, ◌≢◌, ◌+◌, ◌%◌, ◌<◌, ◌≤◌, ◌↔◌, [], ◌∷◌, Contains, IsNone, IfSome, IfOk, IfErr, OnErr, List, ℕ};
ghost use Rattle.heap_big.specs.Runs.{end_of, HasPage, IsFree, IsInSegment, IsGreatest, IsWellFormed, Adds, Removes};
ghost use Rattle.heap_big.specs.Fit.{TakesBestFit};
ghost use Rattle.heap_palloc.specs.declared.error.AllocError.TheVariants.{Full};
ghost use Rattle.heap_palloc.specs.Index.{rooms_of};
ghost use Rattle.heap_big.specs.Pages.{IsRising};
ghost use Rattle.heap_palloc.specs.Shown.{GainsOne};

use crate::error::AllocError;
use heap_big::{PageSet, Run, Runs};
use heap_small::Class;
use std::marker::Model;

/// The volatile index of a heap: its free runs, and of each class the small pages with a free slot.
#[derive(Debug, Drop)]
pub struct Heap {
    pub(crate) runs: Runs,
    pub(crate) rooms: [PageSet; 6],
}

impl Model for Heap {
    ghost use Rattle.heap_palloc.specs.Index.{HeapIndex};

    ghost Value = { HeapIndex };

    ghost view = { λ heap. record { free = heap.runs; rooms = heap.rooms } };
}

impl Heap {
    /// The index with these free runs and no page with room.
    pub(crate) fn with_runs(runs: Runs) -> Heap
        ensures free { result.free ≡ runs }
        ensures rooms { (class : ℕ) → rooms_of result class ≡ [] }
    {
        Heap {
            runs,
            rooms: [
                PageSet::new(),
                PageSet::new(),
                PageSet::new(),
                PageSet::new(),
                PageSet::new(),
                PageSet::new(),
            ],
        }
    }

    /// The lowest small page of the class with a free slot; none where there is none.
    pub(crate) fn lowest_room(&self, class: Class) -> Option<u16>
        ensures none { IsNone result ↔ (rooms_of self.now class ≡ []) }
        ensures lowest { IfSome result (λ page. (rest : List ℕ) × (rooms_of self.now class ≡ page ∷ rest)) }
    {
        self.rooms[usize::from(class.number())].lowest()
    }

    /// Adds a small page that has a free slot from now on.
    pub(crate) fn add_room(&mut self, class: Class, page: u16)
        requires within { page < 8192 }
        requires new { Contains (rooms_of self.old class) page → ⊥ }
        ensures gains { GainsOne (rooms_of self.old class) page (rooms_of self.new class) }
        ensures rising { IsRising 0 (rooms_of self.new class) 8192 }
        ensures others { (other : ℕ) → other ≢ class → rooms_of self.new other ≡ rooms_of self.old other }
        ensures free { self.new.free ≡ self.old.free }
    {
        let pages = &mut self.rooms[usize::from(class.number())];
        pages.insert(page);
    }

    /// Takes out a small page that has no free slot from now on.
    pub(crate) fn remove_room(&mut self, class: Class, page: u16)
        requires { Contains (rooms_of self.old class) page }
        ensures loses { GainsOne (rooms_of self.new class) page (rooms_of self.old class) }
        ensures others { (other : ℕ) → other ≢ class → rooms_of self.new other ≡ rooms_of self.old other }
        ensures free { self.new.free ≡ self.old.free }
    {
        let pages = &mut self.rooms[usize::from(class.number())];
        pages.remove(page);
    }

    /// Takes so many neighbouring free pages; where there are none, says so with the pages of the longest free run.
    pub(crate) fn take_run(&mut self, pages: u32) -> Result<Run, AllocError>
        requires { 0 < pages }
        ensures best { IfOk result (λ run. TakesBestFit self.old.free.runs pages run self.new.free.runs) }
        ensures size { IfOk result (λ run. run.pages ≡ pages) }
        ensures were_free { IfOk result (λ run. (page : ℕ) → HasPage run page → IsFree self.old.free.runs page) }
        ensures in_segment { IfOk result (λ run. run.first % 64 + run.pages ≤ 64) }
        ensures within { IfOk result (λ run. end_of run ≤ self.old.free.page_count) }
        ensures taken { IfOk result (λ run. Removes self.old.free.runs run self.new.free.runs) }
        ensures well_formed { IsWellFormed self.new.free }
        ensures page_count { self.new.free.page_count ≡ self.old.free.page_count }
        ensures rooms { self.new.rooms ≡ self.old.rooms }
        ensures full { IfErr result (λ error.
            (largest : ℕ) × IsGreatest self.old.free.runs largest × (largest < pages) × (error ≡ Full pages largest)) }
        ensures unchanged { OnErr result (self.new ≡ self.old) }
    {
        match self.runs.take(pages) {
            Some(run) => Ok(run),
            None => Err(AllocError::Full {
                need: pages,
                largest: self.runs.largest(),
            }),
        }
    }

    /// Makes pages free again.
    pub(crate) fn put_back(&mut self, run: Run)
        requires in_segment { IsInSegment run }
        requires within { end_of run ≤ self.old.free.page_count }
        requires not_free { (page : ℕ) → HasPage run page → IsFree self.old.free.runs page → ⊥ }
        ensures added { Adds self.old.free.runs run self.new.free.runs }
        ensures well_formed { IsWellFormed self.new.free }
        ensures page_count { self.new.free.page_count ≡ self.old.free.page_count }
        ensures rooms { self.new.rooms ≡ self.old.rooms }
    {
        self.runs.put_back(run);
    }
}
