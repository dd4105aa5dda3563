// The rule of lanes.
ghost use Rattle.std.specs.Prelude.{◌≡◌, ◌<◌, ◌≤◌, length};
ghost use Rattle.image_layout.specs.Checks.{first_failing};
ghost use Rattle.image_layout.specs.HeapRules.{lane_rule, is_lane as lane_is_sound};

use crate::layout::{FREEING, IDLE};
use crate::pointers::{is_block_pointer, pointed_place};
use pm_model::{LANES, lane_block, lane_dest, lane_op};

/// The first lane that is neither idle nor at work on a block: the place of its op.
pub fn lane_fault(words: &[u64]) -> Option<u32>
    requires one_or_more { 32768 ≤ length words.now }
    requires most { length words.now ≤ 4194304 }
    ensures { result ≡ first_failing (lane_rule words.now) }
{
    for lane in 0..LANES {
        if !is_lane(words, lane) {
            return Some(lane_op(lane).0);
        }
    }
    None
}

fn is_lane(words: &[u64], lane: u8) -> bool
    requires lane { lane < 16 }
    requires one_or_more { 32768 ≤ length words.now }
    requires most { length words.now ≤ 4194304 }
    ensures { result ≡ lane_is_sound words.now lane }
{
    let op = words[lane_op(lane).0 as usize];
    let dest = words[lane_dest(lane).0 as usize];
    let block = words[lane_block(lane).0 as usize];
    op == IDLE
        || (op <= FREEING && pointed_place(words, dest).is_some() && is_block_pointer(words, block))
}
