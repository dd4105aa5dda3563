// The catalog from the words.
ghost use Rattle.std.specs.Prelude.{◌≡◌, ◌+◌, ◌*◌, ◌/◌, ◌%◌, ◌<◌, ◌≤◌, ℕ, IsTrue, IfOk, None, length, map, not, ◌==◌, slice_index, take_while};
ghost use Rattle.mv_model.specs.Name.{is_name};
ghost use Rattle.mv_model.specs.Shape.{is_shape};
ghost use Rattle.image_layout.specs.Places.{below, packed_byte};
ghost use Rattle.image_layout.specs.Records.{column_name_at};
ghost use Rattle.image_layout.specs.Tables.{HasRecords, columns_of, column_count as count_of_columns, column_record, extension_count, extension_of, extension_pointer_at, inner_columns as columns_in_block};
ghost use Rattle.shown_state.specs.LogicalState.{column_of, name_at};
ghost use Rattle.catalog.specs.Entries.{HasColumnNames, KeepsTableRules, ShowsTable, published_table, published_tables};

use crate::tables::{Catalog, Table};
use arrayvec::ArrayVec;
use image_layout::{extension_column, first_extension, inner_columns, next_extension};
use mv_model::{Column, Kind, Name, Shape};
use pm_model::{
    FIRST_VERSION, Memory, NoMemory, Place, column, column_count, column_kind, column_name,
    named_place, table_count, table_name, table_slot, version,
};
use std::alloc::Global;

// The bytes of a name.
const NAME_BYTES: u32 = 24;

// The word of the kind of a column of texts.
const TEXT: u64 = 2;

/// The catalog of the published tables of these words. It takes the room for every table, so `published` takes none.
pub fn rebuild<M: Memory>(alloc: Global, mem: &M) -> Result<Catalog, NoMemory>
    requires { KeepsTableRules (M.device mem.now).cached }
    ensures tables { IfOk result (λ catalog. catalog.tables ≡ published_tables (M.device mem.now).cached) }
    ensures planned { IfOk result (λ catalog. catalog.planned ≡ None) }
{
    let mut catalog = Catalog::without_tables(alloc)?;
    let count = mem.load(table_count()) as u8;
    for table in 0..count {
        catalog.add(read_table(mem, table));
    }
    Ok(catalog)
}

// A published table.
fn read_table<M: Memory>(mem: &M, table: u8) -> Table
    requires published { table < 32 }
    requires shown { ShowsTable (M.device mem.now).cached table }
    ensures { result ≡ published_table (M.device mem.now).cached table }
{
    let block = named_place(mem, table_slot(table));
    Table {
        name: read_name(mem, table_name(block)),
        shape: read_shape(mem, block),
        block,
    }
}

// The columns of a table.
fn read_shape<M: Memory>(mem: &M, block: Place) -> Shape
    requires records { HasRecords (M.device mem.now).cached block.0 }
    requires names { HasColumnNames (M.device mem.now).cached block.0 }
    requires shape { IsTrue (is_shape
        (map (column_of (M.device mem.now).cached) (columns_of (M.device mem.now).cached block.0))) }
    ensures { result ≡ map (column_of (M.device mem.now).cached) (columns_of (M.device mem.now).cached block.0) }
{
    let count = mem.load(column_count(block)) as u8;
    let mut columns = ArrayVec::new();
    for number in 0..count {
        columns.push(read_column(mem, column_place(mem, block, number)));
    }
    Shape::of(columns).unwrap()
}

/// The record of a table's column, by the place of the table's block and the column's number. It reads two words, and then
/// one pointer for each extension up to the column's own: at most 17 words, and 2 for a column of the block.
pub fn column_place<M: Memory>(mem: &M, block: Place, number: u8) -> Place
    requires records { HasRecords (M.device mem.now).cached block.0 }
    requires number { number < count_of_columns (M.device mem.now).cached block.0 }
    ensures place { result.0 ≡ column_record (M.device mem.now).cached block.0 number }
    ensures in_image { result.0 + 40 ≤ length (M.device mem.now).cached }
{
    let inner = inner_count(mem, block);
    if number < inner {
        return column(block, number);
    }
    extension_column(extension(mem, block, number - inner))
}

// How many columns of a table stand in its block.
fn inner_count<M: Memory>(mem: &M, block: Place) -> u8
    requires { HasRecords (M.device mem.now).cached block.0 }
    ensures { result ≡ columns_in_block (M.device mem.now).cached block.0 }
{
    mem.load(inner_counter(mem, block)) as u8
}

// The word that counts them: in version 1 that of all columns.
fn inner_counter<M: Memory>(mem: &M, block: Place) -> Place
    requires { HasRecords (M.device mem.now).cached block.0 }
    ensures count { slice_index (M.device mem.now).cached result.0
        ≡ columns_in_block (M.device mem.now).cached block.0 }
    ensures in_image { result.0 < length (M.device mem.now).cached }
{
    if mem.load(version()) == FIRST_VERSION {
        return column_count(block);
    }
    inner_columns(block)
}

// An extension of a table, by its number.
fn extension<M: Memory>(mem: &M, block: Place, number: u8) -> Place
    requires records { HasRecords (M.device mem.now).cached block.0 }
    requires number { number < extension_count (M.device mem.now).cached block.0 }
    ensures place { result.0 ≡ extension_of (M.device mem.now).cached block.0 number }
    ensures in_image { result.0 + 48 ≤ length (M.device mem.now).cached }
{
    let mut pointer = first_extension(block);
    for extension in 0..number {
        pointer = next_extension(named_extension(mem, block, extension, pointer));
    }
    named_extension(mem, block, number, pointer)
}

// The extension that a pointer names, by the extension's number and the pointer's place.
fn named_extension<M: Memory>(mem: &M, block: Place, number: u8, pointer: Place) -> Place
    requires records { HasRecords (M.device mem.now).cached block.0 }
    requires number { number < extension_count (M.device mem.now).cached block.0 }
    requires pointer { pointer.0 ≡ extension_pointer_at (M.device mem.now).cached block.0 number }
    requires in_image { pointer.0 < length (M.device mem.now).cached }
    ensures place { result.0 ≡ extension_of (M.device mem.now).cached block.0 number }
    ensures in_image { result.0 + 48 ≤ length (M.device mem.now).cached }
{
    named_place(mem, pointer)
}

// A column by the place of its record.
fn read_column<M: Memory>(mem: &M, at: Place) -> Column
    requires in_image { at.0 + 4 ≤ length (M.device mem.now).cached }
    requires name { IsTrue (is_name (name_at (M.device mem.now).cached (column_name_at at.0))) }
    ensures { result ≡ column_of (M.device mem.now).cached at.0 }
{
    let kind = if mem.load(column_kind(at)) == TEXT {
        Kind::Text
    } else {
        Kind::Int
    };
    Column {
        name: read_name(mem, column_name(at)),
        kind,
    }
}

// The name whose words begin at a place.
fn read_name<M: Memory>(mem: &M, first: Place) -> Name
    requires in_image { first.0 + 3 ≤ length (M.device mem.now).cached }
    requires name { IsTrue (is_name (name_at (M.device mem.now).cached first.0)) }
    ensures { result ≡ name_at (M.device mem.now).cached first.0 }
{
    let bytes = read_bytes(mem, first);
    let text = str::from_utf8(without_padding(&bytes)).unwrap();
    Name::read(text).unwrap()
}

// The 24 bytes that a name and its padding have.
fn read_bytes<M: Memory>(mem: &M, first: Place) -> [u8; 24]
    requires { first.0 + 3 ≤ length (M.device mem.now).cached }
    ensures { result ≡ map (packed_byte (M.device mem.now).cached first.0) (below 24) }
{
    let mut bytes = [0; 24];
    for byte in 0..NAME_BYTES {
        let word = mem.load(Place(first.0 + byte / 8));
        bytes[byte as usize] = ((word >> (8 * (byte % 8))) % 256) as u8;
    }
    bytes
}

// The bytes before the first one that is 0.
fn without_padding(bytes: &[u8]) -> &[u8]
    ensures { result.now ≡ take_while (λ byte. not (byte == 0)) bytes.now }
{
    for (index, byte) in bytes.iter().enumerate() {
        if *byte == 0 {
            return &bytes[..index];
        }
    }
    bytes
}
