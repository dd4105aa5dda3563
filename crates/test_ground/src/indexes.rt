// Indexes above leaves.
ghost use Rattle.std.specs.Prelude.{◌<◌, ◌≤◌, IfOk};
ghost use Rattle.fp_inner.specs.TestIndex.{IsEven};

use fp_inner::Inner;
use mv_model::Kind;
use pm_model::{Memory, NoMemory, PPtr, Place};
use std::alloc::Global;

/// The key word of the integer 0.
const ZERO: u64 = 1 << 63;

/// An index of the leaves of the integers 0, 24, 48 and so on, so many of them, which are put into it one by one.
#[tactic(auto, using(crate::proofs::EvenIndex::even_more))]
pub fn even_index<M: Memory>(alloc: Global, mem: &M, count: u32) -> Result<Inner, NoMemory>
    requires some { 0 < count }
    requires few { count ≤ 100000 }
    ensures { IfOk result (λ inner. IsEven count inner) }
{
    let mut inner = Inner::build(alloc, mem, Kind::Int, &[(ZERO, PPtr::of(Place(0)))])?;
    for number in 1..count {
        inner.reserve()?;
        inner.insert(
            number as usize,
            ZERO + 24 * u64::from(number),
            PPtr::of(Place(number)),
        );
    }
    Ok(inner)
}
