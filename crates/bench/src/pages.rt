// The pages that are given out, one block after the other.
ghost use Rattle.std.specs.Prelude.{◌≡◌, ◌+◌, ◌*◌, ◌<◌, ◌≤◌, IfSome};

use pm_model::{FIXED_PAGES, SEGMENT_PAGES};

/// Gives out the pages of an image in their order.
#[derive(Drop)]
pub(crate) struct Pages {
    next: u32,
    end: u32,
    blocks: u32,
    ghost within: { next ≤ 8256 },
    ghost most: { end ≤ 8192 },
}

impl Pages {
    pub(crate) fn new(segments: u32) -> Pages
        requires { segments ≤ 128 }
    {
        Pages {
            next: FIXED_PAGES,
            end: SEGMENT_PAGES * segments,
            blocks: 0,
        }
    }

    /// The first of so many neighbouring pages, for a block. It passes over the first page of each segment, and over
    /// pages that are too few. `None` where none are left.
    pub(crate) fn take(&mut self, count: u32) -> Option<u32>
        requires { count ≤ 32 }
        ensures { IfSome result (λ first. first + count ≤ 8192) }
    {
        let mut first = self.next;
        if first % SEGMENT_PAGES == 0 || first % SEGMENT_PAGES + count > SEGMENT_PAGES {
            first = (first + SEGMENT_PAGES - 1) / SEGMENT_PAGES * SEGMENT_PAGES + 1;
        }
        if first + count > self.end {
            return None;
        }
        self.next = first + count;
        self.blocks = self.blocks.wrapping_add(1);
        Some(first)
    }

    /// How many blocks were given out.
    pub(crate) fn blocks(&self) -> u32 {
        self.blocks
    }
}
