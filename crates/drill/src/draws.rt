ghost use Rattle.std.specs.Prelude.{◌≡◌, ◌+◌, ◌%◌, ◌<◌, ◌^◌};
ghost use Rattle.drill.specs.Draws.{draw};

use pm_model::mix;

/// The draws of a number, one after the other.
#[derive(Clone, Copy)]
pub(crate) struct Draws {
    pub(crate) number: u64,
    /// The draw that comes next, counted from 0.
    pub(crate) next: u32,
}

/// A draw of a number, counted from 0.
pub(crate) fn draw(number: u64, i: u64) -> u64
    ensures { result ≡ draw number i }
{
    mix(number.wrapping_add(i))
}

impl Draws {
    /// The next draw modulo the limit.
    pub(crate) fn take_below(&mut self, limit: u64) -> u64
        requires some { 0 < limit }
        requires fits { self.old.next + 1 < 2 ^ 32 }
        ensures drawn { result ≡ draw self.old.number self.old.next % limit }
        ensures taken { self.new ≡ record self.old { next = self.old.next + 1 } }
    {
        let drawn = draw(self.number, u64::from(self.next));
        self.next += 1;
        drawn % limit
    }
}
