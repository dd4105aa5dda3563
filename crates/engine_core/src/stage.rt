// The words of a formatted stage image.
ghost use Rattle.std.specs.Prelude.{◌≡◌, ℕ, ◌*◌, ◌<◌, ◌≤◌, ◌==◌, nat_lt, if◌then◌else◌, IfOk, length, slice_index};
ghost use Rattle.engine_core.specs.Stage.{stage_words};

use pm_model::{NoMemory, RESERVED, fresh, version};
use std::alloc::Global;

/// The version of the format of a stage image.
pub(crate) const STAGE_VERSION: u64 = 102;

/// The words of a formatted stage image of so many segments: one empty table `t a:int`.
pub fn stage_fresh(alloc: Global, segments: u32) -> Result<Vec<u64>, NoMemory>
    requires one_or_more { 1 ≤ segments }
    requires most { segments ≤ 128 }
    ensures words { IfOk result (λ words. words.items ≡ stage_words segments) }
    ensures size { IfOk result (λ words. length words.items ≡ 32768 * segments) }
{
    let mut words = fresh(alloc, segments)?;
    make_stage(&mut words);
    Ok(words)
}

// Makes the words of a formatted image those of a stage image.
fn make_stage(words: &mut [u64])
    requires { 514 ≤ length words.old }
    ensures { (w : ℕ) → slice_index words.new w
        ≡ (if nat_lt w 28 then 8 else if w == 513 then 102 else slice_index words.old w) }
{
    reserve_stage_pages(words);
    words[version().0 as usize] = STAGE_VERSION;
}

// Reserves the pages with the arrays of the table.
fn reserve_stage_pages(words: &mut [u64])
    requires { 28 ≤ length words.old }
    ensures { (w : ℕ) → slice_index words.new w ≡ (if nat_lt w 28 then 8 else slice_index words.old w) }
{
    for page in 0..28 {
        words[page] = RESERVED;
    }
}
