// The chunks of an array that grows. Chunk i has 2^i pages up to chunk 5, and 32 pages from there on.
ghost use Rattle.std.specs.Prelude.{◌≡◌, ◌*◌, ◌<◌, ◌≤◌};
ghost use Rattle.image_layout.specs.Arrays.{capacity_of, chunk_of as chunk_of_index, chunk_pages as pages_of_chunk, chunk_words as words_of_chunk};

use crate::layout::PAGE_WORDS;

/// How many chunks an array has at most. They have 255 pages, and 130,560 words.
pub const MAX_CHUNKS: u32 = 12;

// The pages of a chunk double up to this one.
const LAST_DOUBLING: u32 = 5;

const LARGEST_PAGES: u32 = 1 << LAST_DOUBLING;

// So many pages are missing before the chunks that double, were all of them as large as the largest.
const MISSING_PAGES: u32 = LAST_DOUBLING * LARGEST_PAGES - (LARGEST_PAGES - 1);

/// The pages of a chunk.
pub fn chunk_pages(chunk: u32) -> u32
    ensures pages { result ≡ pages_of_chunk chunk }
    ensures most { result ≤ 32 }
{
    1 << chunk.min(LAST_DOUBLING)
}

/// The words of a chunk.
pub fn chunk_words(chunk: u32) -> u32
    ensures words { result ≡ words_of_chunk chunk }
    ensures most { result ≤ 16384 }
{
    PAGE_WORDS * chunk_pages(chunk)
}

// The pages of the first chunks, so many of them.
fn pages_before(chunks: u32) -> u32
    requires { chunks ≤ 12 }
    ensures { 512 * result ≡ capacity_of chunks }
{
    if chunks < LAST_DOUBLING {
        (1 << chunks) - 1
    } else {
        LARGEST_PAGES * chunks - MISSING_PAGES
    }
}

/// How many words an array of so many chunks has.
pub fn chunk_capacity(chunks: u32) -> u32
    requires { chunks ≤ 12 }
    ensures words { result ≡ capacity_of chunks }
    ensures most { result ≤ 130560 }
{
    PAGE_WORDS * pages_before(chunks)
}

/// The chunk in which an index lies. It takes constant time.
pub fn chunk_of(index: u32) -> u32
    requires { index < capacity_of 12 }
    ensures chunk { result ≡ chunk_of_index index }
    ensures most { result < 12 }
{
    let page = index / PAGE_WORDS;
    if page < LARGEST_PAGES - 1 {
        (page + 1).ilog2()
    } else {
        (page + 1) / LARGEST_PAGES + (LAST_DOUBLING - 1)
    }
}
