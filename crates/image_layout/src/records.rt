// The places of the words of a table's block, of a column's record, of an array's header and of a segment of entries. A
// record is named by the place where it begins.
ghost use Rattle.std.specs.Prelude.{◌≡◌, ◌<◌, ◌≤◌};
ghost use Rattle.image_layout.specs.Arrays.{chunk_pointer_at};
ghost use Rattle.image_layout.specs.Records.{columns_at, high_at, table_name_at, first_extension_at, inner_columns_at, created_header as created_header_at, ended_header as ended_header_at, column_at, table_words as words_of_table, extension_column_at, kind_at, since_at, column_name_at, first_leaf_at, split_leaf_at, new_leaf_at, codes_header as codes_header_at, dictionary_header as dictionary_header_at, segment_entry_at};

use crate::layout::{COLUMN_WORDS, EXTENSION_HEAD_WORDS, TABLE_HEAD_WORDS};
use crate::place::Place;

/// How many words a table's block needs for so many columns in it.
pub fn table_words(columns: u8) -> u32
    ensures { result ≡ words_of_table columns }
{
    TABLE_HEAD_WORDS + COLUMN_WORDS * u32::from(columns)
}

/// How many columns a table has.
pub fn column_count(table: Place) -> Place
    ensures { result.0 ≡ columns_at table.0 }
{
    table
}

/// A bound on the rows of a table that have a stamp.
pub fn high(table: Place) -> Place
    requires { table.0 < 4194304 }
    ensures { result.0 ≡ high_at table.0 }
{
    Place(table.0 + 1)
}

/// The first of the three words of a table's name.
pub fn table_name(table: Place) -> Place
    requires { table.0 < 4194304 }
    ensures { result.0 ≡ table_name_at table.0 }
{
    Place(table.0 + 2)
}

/// The pointer to the first extension of a table, in version 2.
pub fn first_extension(table: Place) -> Place
    requires { table.0 < 4194304 }
    ensures { result.0 ≡ first_extension_at table.0 }
{
    Place(table.0 + 5)
}

/// How many of a table's columns stand in its block, in version 2.
pub fn inner_columns(table: Place) -> Place
    requires { table.0 < 4194304 }
    ensures { result.0 ≡ inner_columns_at table.0 }
{
    Place(table.0 + 6)
}

/// The header of a table's array of the commits that created each row.
pub fn created_header(table: Place) -> Place
    requires { table.0 < 4194304 }
    ensures { result.0 ≡ created_header_at table.0 }
{
    Place(table.0 + 8)
}

/// The header of a table's array of the commits that ended each row.
pub fn ended_header(table: Place) -> Place
    requires { table.0 < 4194304 }
    ensures { result.0 ≡ ended_header_at table.0 }
{
    Place(table.0 + 24)
}

/// The record of a column that stands in its table's block, by its number, counted from 0.
pub fn column(table: Place, column: u8) -> Place
    requires { table.0 < 4194304 }
    ensures { result.0 ≡ column_at table.0 column }
{
    Place(table.0 + TABLE_HEAD_WORDS + COLUMN_WORDS * u32::from(column))
}

/// The pointer to the extension behind this one.
pub fn next_extension(extension: Place) -> Place
    ensures { result.0 ≡ extension.0 }
{
    extension
}

/// The record of the column that an extension has.
pub fn extension_column(extension: Place) -> Place
    requires { extension.0 < 4194304 }
    ensures { result.0 ≡ extension_column_at extension.0 }
{
    Place(extension.0 + EXTENSION_HEAD_WORDS)
}

/// A column's kind: 1 for integers, 2 for texts.
pub fn column_kind(column: Place) -> Place
    ensures { result.0 ≡ kind_at column.0 }
{
    column
}

/// The first of the three words of a column's name.
pub fn column_name(column: Place) -> Place
    requires { column.0 < 4194304 }
    ensures { result.0 ≡ column_name_at column.0 }
{
    Place(column.0 + 1)
}

/// The pointer to the first leaf of a column's tree.
pub fn first_leaf(column: Place) -> Place
    requires { column.0 < 4194304 }
    ensures { result.0 ≡ first_leaf_at column.0 }
{
    Place(column.0 + 4)
}

/// The pointer to the leaf that a column is splitting.
pub fn split_leaf(column: Place) -> Place
    requires { column.0 < 4194304 }
    ensures { result.0 ≡ split_leaf_at column.0 }
{
    Place(column.0 + 5)
}

/// The pointer to the leaf that a column is adding.
pub fn new_leaf(column: Place) -> Place
    requires { column.0 < 4194304 }
    ensures { result.0 ≡ new_leaf_at column.0 }
{
    Place(column.0 + 6)
}

/// The first row that a column has a word for: the rows below have the zero value of its kind.
pub fn since(column: Place) -> Place
    requires { column.0 < 4194304 }
    ensures { result.0 ≡ since_at column.0 }
{
    Place(column.0 + 7)
}

/// The header of a column's array of the rows' codes.
pub fn codes_header(column: Place) -> Place
    requires { column.0 < 4194304 }
    ensures { result.0 ≡ codes_header_at column.0 }
{
    Place(column.0 + 8)
}

/// The header of a column's dictionary.
pub fn dictionary_header(column: Place) -> Place
    requires { column.0 < 4194304 }
    ensures { result.0 ≡ dictionary_header_at column.0 }
{
    Place(column.0 + 24)
}

/// The pointer to a chunk of the array with this header.
pub fn chunk_pointer(header: Place, chunk: u32) -> Place
    requires chunk { chunk ≤ 12 }
    requires header { header.0 < 4194304 }
    ensures { result.0 ≡ chunk_pointer_at header.0 chunk }
{
    Place(header.0 + 1 + chunk)
}

/// One of the 255 entries of a segment of a transaction object.
pub fn segment_entry(segment: Place, entry: u8) -> Place
    requires { segment.0 < 4194304 }
    ensures { result.0 ≡ segment_entry_at segment.0 entry }
{
    Place(segment.0 + 1 + u32::from(entry))
}
