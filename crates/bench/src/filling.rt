// Fills a formatted image with live blocks, each with its owner, by writing words.
ghost use Rattle.std.specs.Prelude.{◌≡◌, ◌+◌, ◌*◌, ◌<◌, ◌≤◌, length};

use crate::pages::Pages;
use image_layout::inner_columns;
use pm_model::{
    BIG_HEAD, FIRST_SLOT, LAST_SMALL_PAGE, MAX_CHUNKS, MAX_COLUMNS, OBJECTS, PAGE_WORDS, PPtr,
    Page, Place, TABLES, chunk_pages, chunk_pointer, codes_header, column, column_count,
    column_kind, column_name, created_header, descriptor, dictionary_header, ended_header, high,
    last_commit, ready_segments, segment_pointer, table_count, table_name, table_slot,
};

// The pages of a table's block with 16 columns, of 680 words.
const TABLE_PAGES: u32 = 2;

// The first two chunks of an array have 1,536 words, one for each row.
const STAMPED_CHUNKS: u32 = 2;

const ROWS: u64 = 1536;

// The kind of a column of integers.
const INTEGERS: u64 = 1;

// Where the block of a table stands.
#[derive(Clone, Copy)]
struct TableBlock {
    first: Place,
    ghost within: { first.0 + 1024 ≤ 4194304 },
}

/// Fills a formatted image of so many segments, and gives how many live blocks it has then.
pub(crate) fn fill(words: &mut [u64], segments: u32) -> u32
    requires { segments ≤ 128 }
{
    let tables = (segments / 4) as u8;
    let mut pages = Pages::new(segments);
    put(words, last_commit(), 1);
    put(words, table_count(), u64::from(tables));
    let blocks = put_tables(words, &mut pages, tables);
    for object in 0..OBJECTS {
        put_segments(words, &mut pages, object, u64::from(tables));
    }
    for chunk in 0..MAX_CHUNKS {
        for block in &blocks[..tables as usize] {
            put_chunks(words, &mut pages, *block, chunk);
        }
    }
    pages.blocks()
}

// Writes a word that lies in the image.
fn put(words: &mut [u64], at: Place, value: u64) {
    if let Some(word) = words.get_mut(at.0 as usize) {
        *word = value;
    }
}

// The tables, so many of them.
fn put_tables(words: &mut [u64], pages: &mut Pages, tables: u8) -> [TableBlock; TABLES as usize]
    requires { tables ≤ 32 }
{
    let mut blocks = [TableBlock { first: Place(0) }; TABLES as usize];
    for table in 0..tables {
        if let Some(page) = pages.take(TABLE_PAGES) {
            let first = put_big(words, page, TABLE_PAGES);
            let block = TableBlock { first };
            put(words, table_slot(table), PPtr::of(first).word());
            put_table(words, block, table);
            blocks[table as usize] = block;
        }
    }
    blocks
}

// A big block of so many pages: its first word.
fn put_big(words: &mut [u64], page: u32, count: u32) -> Place
    requires pages { page + count ≤ 8192 }
    requires some { 1 ≤ count }
    ensures { result.0 ≡ 512 * page }
{
    put(
        words,
        descriptor(Page(page as u16)),
        BIG_HEAD + u64::from(count),
    );
    Place(PAGE_WORDS * page)
}

// A table with 16 columns of integers and a bound of 1,536 rows.
fn put_table(words: &mut [u64], block: TableBlock, table: u8) {
    put(words, column_count(block.first), u64::from(MAX_COLUMNS));
    put(words, inner_columns(block.first), u64::from(MAX_COLUMNS));
    put(words, high(block.first), ROWS);
    put(words, table_name(block.first), name(table));
    for number in 0..MAX_COLUMNS {
        let column = column(block.first, number);
        put(words, column_kind(column), INTEGERS);
        put(words, column_name(column), name(number));
    }
}

// A name of two letters.
fn name(number: u8) -> u64 {
    let first = b'a' + number % 26;
    let second = b'a' + number / 26;
    u64::from(first) + (u64::from(second) << 8)
}

// So many ready segments of an object, each the only slot of a small page of the last class.
fn put_segments(words: &mut [u64], pages: &mut Pages, object: u8, count: u64)
    requires { object < 16 }
{
    let mut pointer = segment_pointer(object);
    for number in 0..count {
        let Some(page) = pages.take(1) else {
            return;
        };
        let bitmap = Place(PAGE_WORDS * page);
        let segment = Place(bitmap.0 + FIRST_SLOT);
        put(words, descriptor(Page(page as u16)), LAST_SMALL_PAGE);
        put(words, bitmap, 1);
        put(words, pointer, PPtr::of(segment).word());
        put(words, ready_segments(object), number + 1);
        pointer = segment;
    }
}

// The next chunk of each array of a table, as far as there are pages.
fn put_chunks(words: &mut [u64], pages: &mut Pages, block: TableBlock, chunk: u32)
    requires { chunk < 12 }
{
    let stamp = u64::from(chunk < STAMPED_CHUNKS);
    put_chunk(words, pages, created_header(block.first), chunk, stamp);
    put_chunk(words, pages, ended_header(block.first), chunk, stamp);
    for number in 0..MAX_COLUMNS {
        let column = column(block.first, number);
        put_chunk(words, pages, codes_header(column), chunk, 0);
        put_chunk(words, pages, dictionary_header(column), chunk, 0);
    }
}

// The next chunk of an array, with one value in each word.
fn put_chunk(words: &mut [u64], pages: &mut Pages, header: Place, chunk: u32, value: u64)
    requires header { header.0 < 4194304 }
    requires chunk { chunk < 12 }
{
    let count = chunk_pages(chunk);
    let Some(page) = pages.take(count) else {
        return;
    };
    let first = put_big(words, page, count);
    put(words, chunk_pointer(header, chunk), PPtr::of(first).word());
    put(words, header, u64::from(chunk + 1));
    for offset in 0..PAGE_WORDS * count {
        put(words, Place(first.0 + offset), value);
    }
}
