// The plan that writes a text.
ghost use Rattle.std.specs.Prelude.{◌≡◌, ◌+◌, ◌*◌, ◌<◌, ◌≤◌, ◌++◌, IfOk, length};
ghost use Rattle.image_layout.specs.Trees.{text_words};
ghost use Rattle.pm_model.specs.Plans.{plan_of};
ghost use Rattle.shown_state.specs.Mending.{fill_from};
ghost use Rattle.shown_state.specs.Packed.{packed_word};
ghost use Rattle.text_block.specs.Blocks.{FitsAt, text_record, write_parts};

use mv_model::Text;
use pm_model::{Action, NoMemory, Place, Plan};
use std::alloc::Global;

/// How many words the block of a text of so many bytes has. A text has 2,000 bytes at most.
pub fn words_of(bytes: u32) -> u32
    requires { bytes ≤ 2000 }
    ensures { result ≡ text_words bytes }
{
    1 + bytes.div_ceil(8)
}

/// Plans the one part that writes a text at a place: its stores, a flush for each line that they touch, and a fence.
/// The one error is want of memory.
pub fn plan_write(alloc: Global, at: Place, text: &Text) -> Result<Plan, NoMemory>
    requires { FitsAt at.0 text.now }
    ensures { IfOk result (λ plan. plan.left ≡ plan_of (write_parts at.0 text.now)) }
{
    let words = words_of(text.as_str().len() as u32);
    let mut plan = Plan::with_room(alloc, 2 * words + 1)?;
    push_write(&mut plan, at, text);
    Ok(plan)
}

/// Adds the part of `plan_write` to a plan. It takes no memory.
pub fn push_write(plan: &mut Plan, at: Place, text: &Text)
    requires fits { FitsAt at.0 text.now }
    requires room { 2 * text_words (length text.now) + 1 ≤ plan.old.spare }
    ensures left { plan.new.left ≡ plan.old.left ++ plan_of (write_parts at.0 text.now) }
    ensures spare { plan.new.spare + length (plan_of (write_parts at.0 text.now)) ≡ plan.old.spare }
{
    let bytes = text.as_str().as_bytes();
    push_words(plan, at, bytes);
    plan.end_part(words_of(bytes.len() as u32));
}

// Adds the stores of the words of a text's block.
fn push_words(plan: &mut Plan, at: Place, bytes: &[u8])
    requires fits { FitsAt at.0 bytes.now }
    requires room { text_words (length bytes.now) ≤ plan.old.spare }
    ensures left { plan.new.left ≡ plan.old.left ++ fill_from at.0 (text_record bytes.now) }
    ensures spare { plan.new.spare + text_words (length bytes.now) ≡ plan.old.spare }
{
    plan.push(Action::Store {
        place: at,
        value: bytes.len() as u64,
    });
    for word in 0..words_of(bytes.len() as u32) - 1 {
        plan.push(Action::Store {
            place: Place(at.0 + 1 + word),
            value: packed(bytes, word as usize),
        });
    }
}

// A word of the packed bytes, the first one lowest; behind the last one they are 0.
fn packed(bytes: &[u8], word: usize) -> u64
    requires { word < 250 }
    ensures { result ≡ packed_word bytes.now word }
{
    let mut eight = [0; 8];
    for byte in 0..8 {
        if 8 * word + byte < bytes.len() {
            eight[byte] = bytes[8 * word + byte];
        }
    }
    u64::from_le_bytes(eight)
}
