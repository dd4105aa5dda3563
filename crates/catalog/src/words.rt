// The words of a new table's block, added to a plan.
ghost use Rattle.std.specs.Prelude.{◌≡◌, ◌+◌, ◌*◌, ◌<◌, ◌≤◌, ◌++◌, [], ◌∷◌, IsTrue, length, replicate};
ghost use Rattle.mv_model.specs.Name.{is_name};
ghost use Rattle.pm_model.specs.Plans.{part_actions, plan_of};
ghost use Rattle.image_layout.specs.Records.{table_words as words_of_table};
ghost use Rattle.shown_state.specs.Mending.{fill_from};
ghost use Rattle.shown_state.specs.Packed.{packed_word, packed_words};
ghost use Rattle.catalog.specs.Creation.{kind_word as word_of_kind, column_record, head_record, table_record};
ghost use Rattle.catalog.specs.Entries.{HasNames};

use mv_model::{Column, Kind, Name, Shape};
use pm_model::{Action, COLUMN_WORDS, Place, Plan, TABLE_HEAD_WORDS, column, table_words};

// A word of the bytes of a name, the first one lowest; behind the last one they are 0.
fn packed(bytes: &[u8], word: usize) -> u64
    requires { word < 3 }
    ensures { result ≡ packed_word bytes.now word }
{
    let mut eight = [0; 8];
    for byte in 0..8 {
        if 8 * word + byte < bytes.len() {
            eight[byte] = bytes[8 * word + byte];
        }
    }
    u64::from_le_bytes(eight)
}

// The word of a kind.
fn kind_word(kind: Kind) -> u64
    ensures { result ≡ word_of_kind kind }
{
    match kind {
        Kind::Int => 1,
        Kind::Text => 2,
    }
}

// Adds the stores of some values from a place on.
fn push_words(plan: &mut Plan, first: Place, values: &[u64])
    requires place { first.0 + length values.now ≤ 4194304 }
    requires room { length values.now ≤ plan.old.spare }
    ensures left { plan.new.left ≡ plan.old.left ++ fill_from first.0 values.now }
    ensures spare { plan.new.spare + length values.now ≡ plan.old.spare }
{
    for (index, value) in values.iter().enumerate() {
        plan.push(Action::Store {
            place: Place(first.0 + index as u32),
            value: *value,
        });
    }
}

// Adds the stores of the words before the columns.
fn push_head(plan: &mut Plan, block: Place, name: &Name, columns: u64)
    requires place { block.0 + 40 ≤ 4194304 }
    requires room { 40 ≤ plan.old.spare }
    ensures name { IsTrue (is_name name.now) }
    ensures left { plan.new.left ≡ plan.old.left ++ fill_from block.0 (head_record name.now columns) }
    ensures spare { plan.new.spare + 40 ≡ plan.old.spare }
{
    let bytes = name.as_str().as_bytes();
    let mut words = [0; TABLE_HEAD_WORDS as usize];
    words[0] = columns;
    words[2] = packed(bytes, 0);
    words[3] = packed(bytes, 1);
    words[4] = packed(bytes, 2);
    words[6] = columns;
    push_words(plan, block, &words);
}

// Adds the stores of the words of a column.
fn push_column(plan: &mut Plan, first: Place, column: &Column)
    requires place { first.0 + 40 ≤ 4194304 }
    requires room { 40 ≤ plan.old.spare }
    ensures name { IsTrue (is_name column.now.name) }
    ensures left { plan.new.left ≡ plan.old.left ++ fill_from first.0 (column_record column.now) }
    ensures spare { plan.new.spare + 40 ≡ plan.old.spare }
{
    let bytes = column.name.as_str().as_bytes();
    let mut words = [0; COLUMN_WORDS as usize];
    words[0] = kind_word(column.kind);
    words[1] = packed(bytes, 0);
    words[2] = packed(bytes, 1);
    words[3] = packed(bytes, 2);
    push_words(plan, first, &words);
}

// Adds the part that stores all words of a new table's block.
pub(crate) fn push_table(plan: &mut Plan, block: Place, name: &Name, shape: &Shape)
    requires place { block.0 + words_of_table (length shape.now) ≤ 4194304 }
    requires room { 2 * words_of_table (length shape.now) + 1 ≤ plan.old.spare }
    ensures names { HasNames name.now shape.now }
    ensures left { plan.new.left ≡ plan.old.left ++ part_actions (fill_from block.0 (table_record name.now shape.now)) }
    ensures spare { plan.old.spare ≤ plan.new.spare + (2 * words_of_table (length shape.now) + 1) }
{
    let columns = shape.columns();
    push_head(plan, block, name, columns.len() as u64);
    for (number, described) in columns.iter().enumerate() {
        push_column(plan, column(block, number as u8), described);
    }
    plan.end_part(table_words(columns.len() as u8));
}
