// Images that are built word by word.
ghost use Rattle.std.specs.Prelude.{◌≡◌, ◌*◌, ◌≤◌, IfOk, length};
ghost use Rattle.image_layout.specs.Fresh.{fresh_words};
ghost use Rattle.pm_model.specs.Plain.{device_of};
ghost use Rattle.pm_model.specs.Plans.{at_rest};
ghost use Rattle.test_ground.specs.Changed.{with_words};

use image_layout::inner_columns;
use pm_model::{
    NoMemory, PPtr, Page, Place, Plain, SMALL_PAGE, column, column_count, column_kind, column_name,
    descriptor, fresh, table_count, table_name, table_slot,
};
use std::alloc::Global;

/// The block of the table of `one_table`: the first slot of page 4, with 128 words.
pub const TABLE: Place = Place(2056);

/// Sets words of an image. Each change is a place and the word that goes there; one past the end changes nothing.
pub fn set_words(words: &mut [u64], changes: &[(usize, u64)])
    ensures { words.new ≡ with_words changes.now words.old }
{
    for (place, word) in changes {
        if *place < words.len() {
            words[*place] = *word;
        }
    }
}

/// A formatted image of so many segments in which words are set.
pub fn changed_image(
    alloc: Global,
    segments: u32,
    changes: &[(usize, u64)],
) -> Result<Vec<u64>, NoMemory>
    requires one_or_more { 1 ≤ segments }
    requires most { segments ≤ 128 }
    ensures words { IfOk result (λ words. words.items ≡ with_words changes.now (fresh_words segments)) }
    ensures size { IfOk result (λ words. length words.items ≡ 32768 * segments) }
{
    let mut words = fresh(alloc, segments)?;
    set_words(&mut words, changes);
    Ok(words)
}

/// A memory at rest with the words of a formatted image of so many segments.
pub fn formatted_memory(alloc: Global, segments: u32) -> Result<Plain, NoMemory>
    requires one_or_more { 1 ≤ segments }
    requires most { segments ≤ 128 }
    ensures { IfOk result (λ memory. device_of memory ≡ at_rest (fresh_words segments)) }
{
    Plain::new(alloc, fresh(alloc, segments)?)
}

/// The words that make of a formatted image one with the table `t a:int` without rows and values.
pub fn one_table() -> [(usize, u64); 9] {
    let a = column(TABLE, 0);
    [
        (table_count().0 as usize, 1),
        (table_slot(0).0 as usize, PPtr::of(TABLE).word()),
        (descriptor(Page(4)).0 as usize, SMALL_PAGE + 4),
        (2048, 1),
        (column_count(TABLE).0 as usize, 1),
        (inner_columns(TABLE).0 as usize, 1),
        (table_name(TABLE).0 as usize, u64::from(b't')),
        (column_kind(a).0 as usize, 1),
        (column_name(a).0 as usize, u64::from(b'a')),
    ]
}
