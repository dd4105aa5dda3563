// The free pages of one segment, as the bits of a word.
ghost use Rattle.std.specs.Prelude.{◌≡◌, ℕ, ◌+◌, ◌-◌, ◌%◌, ◌^◌, ◌<◌, ◌≤◌};
ghost use Rattle.std.specs.Int.{bit_at};
ghost use Rattle.heap_big.specs.Runs.{end_of, IsInSegment};

use crate::Run;

/// The bits of the pages of a run.
pub(crate) fn bits_of(run: Run) -> u64
    requires { run.first % 64 + run.pages ≤ 64 }
    ensures { result ≡ 2 ^ (run.first % 64 + run.pages) - 2 ^ (run.first % 64) }
{
    let first = u32::from(run.first % 64);
    ones_below(first + run.pages) - ones_below(first)
}

// The bits of all pages below this one.
fn ones_below(page: u32) -> u64
    requires { page ≤ 64 }
    ensures { result ≡ 2 ^ page - 1 }
{
    if page < 64 { (1 << page) - 1 } else { u64::MAX }
}

/// The free runs of the segment that end where the run begins, and that begin where it ends. One that isn't there has
/// no pages.
pub(crate) fn neighbours(free: u64, run: Run) -> (Run, Run)
    requires in_segment { IsInSegment run }
    requires low { end_of run ≤ 8192 }
    ensures left { end_of result.0 ≡ run.first }
    ensures left_in_segment { result.0.pages ≤ run.first % 64 }
    ensures left_free { (page : ℕ) → run.first % 64 - result.0.pages ≤ page → page < run.first % 64 →
        bit_at free page ≡ 1 }
    ensures left_whole { result.0.pages < run.first % 64 → bit_at free (run.first % 64 - result.0.pages - 1) ≡ 0 }
    ensures right { result.1.first ≡ end_of run }
    ensures right_in_segment { run.first % 64 + run.pages + result.1.pages ≤ 64 }
    ensures right_free { (page : ℕ) → run.first % 64 + run.pages ≤ page →
        page < run.first % 64 + run.pages + result.1.pages → bit_at free page ≡ 1 }
    ensures right_whole { run.first % 64 + run.pages + result.1.pages < 64 →
        bit_at free (run.first % 64 + run.pages + result.1.pages) ≡ 0 }
{
    let first = u32::from(run.first % 64);
    let before = free_before(free, first);
    let behind = free_from(free, first + run.pages);
    let left = Run {
        first: run.first - before as u16,
        pages: before,
    };
    let right = Run {
        first: run.first + run.pages as u16,
        pages: behind,
    };
    (left, right)
}

// How many pages are free directly before this one.
fn free_before(free: u64, page: u32) -> u32
    requires { page < 64 }
    ensures within { result ≤ page }
    ensures free { (other : ℕ) → page - result ≤ other → other < page → bit_at free other ≡ 1 }
    ensures whole { result < page → bit_at free (page - result - 1) ≡ 0 }
{
    let used = !free & ones_below(page);
    page + used.leading_zeros() - 64
}

// How many pages are free from this one on.
fn free_from(free: u64, page: u32) -> u32
    requires { page ≤ 64 }
    ensures within { page + result ≤ 64 }
    ensures free { (other : ℕ) → page ≤ other → other < page + result → bit_at free other ≡ 1 }
    ensures whole { page + result < 64 → bit_at free (page + result) ≡ 0 }
{
    match free.checked_shr(page) {
        Some(here) => here.trailing_ones(),
        None => 0,
    }
}
