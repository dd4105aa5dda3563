//! How far a text goes on without a byte that stands for something else, or that has an escape.
ghost use Rattle.std.specs.Prelude.{◌≡◌, ◌<◌, ◌≤◌, ℕ, length, slice_index};
ghost use Rattle.sf_value.specs.Literal.{IsPlain};
ghost use Rattle.sf_value.specs.Spelling.{IsSpelledAlone};

use memchr::{memchr, memchr2, memchr3};
use std::cmp::min;

/// How many bytes are searched at once: as many as `memchr` tests by two vectors. In a longer slice it finds a byte that
/// stands near only at some five times the cost.
const WINDOW: usize = 63;

/// How many bytes of a window stand before the first quote or backslash.
fn plain_len_in(window: &[u8]) -> usize
    ensures within { result ≤ length window.now }
    ensures plain { (k : ℕ) → k < result → IsPlain (slice_index window.now k) }
    ensures stops { result < length window.now → IsPlain (slice_index window.now result) → ⊥ }
    ensures ascii { result < length window.now → slice_index window.now result < 128 }
{
    memchr2(b'"', b'\\', window).unwrap_or(window.len())
}

/// How many bytes stand for themselves before the first quote or backslash.
pub fn plain_len(bytes: &[u8]) -> usize
    ensures within { result ≤ length bytes.now }
    ensures plain { (k : ℕ) → k < result → IsPlain (slice_index bytes.now k) }
    ensures stops { result < length bytes.now → IsPlain (slice_index bytes.now result) → ⊥ }
    ensures ascii { result < length bytes.now → slice_index bytes.now result < 128 }
{
    let mut start = 0;
    while start < bytes.len() {
        let end = min(start + WINDOW, bytes.len());
        start += plain_len_in(&bytes[start..end]);
        if start < end {
            return start;
        }
    }
    start
}

/// How many bytes of a window have no escape, before the first that has one.
fn alone_len_in(window: &[u8]) -> usize
    ensures within { result ≤ length window.now }
    ensures alone { (k : ℕ) → k < result → IsSpelledAlone (slice_index window.now k) }
    ensures stops { result < length window.now → IsSpelledAlone (slice_index window.now result) → ⊥ }
{
    let end = memchr3(b'"', b'\\', b'\n', window).unwrap_or(window.len());
    memchr(b'\r', &window[..end]).unwrap_or(end)
}

/// How many bytes have no escape, before the first that has one.
pub(crate) fn alone_len(bytes: &[u8]) -> usize
    ensures within { result ≤ length bytes.now }
    ensures alone { (k : ℕ) → k < result → IsSpelledAlone (slice_index bytes.now k) }
    ensures stops { result < length bytes.now → IsSpelledAlone (slice_index bytes.now result) → ⊥ }
{
    let mut start = 0;
    while start < bytes.len() {
        let end = min(start + WINDOW, bytes.len());
        start += alone_len_in(&bytes[start..end]);
        if start < end {
            return start;
        }
    }
    start
}
