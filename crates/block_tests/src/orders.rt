// Texts in blocks in their order.
use crate::blocks::written;
use heap_palloc::AllocError;
use mv_model::Text;
use std::alloc::Global;
use std::cmp::Ordering;
use std::process::Abort;
use text_block::compare;

// The order of a text in a block against another one.
fn order(rt: &impl Abort, alloc: Global, text: &str, other: &str) -> Result<Ordering, AllocError> {
    let (memory, at) = written(rt, alloc, &Text::from_str(alloc, text)?)?;
    Ok(compare(&memory, at, &Text::from_str(alloc, other)?))
}

#[test]
fn texts_are_ordered_by_their_bytes(rt: HostRuntime) {
    for (text, other, want) in [
        ("", "", Ordering::Equal),
        ("", "a", Ordering::Less),
        ("a", "b", Ordering::Less),
        ("b", "a", Ordering::Greater),
        ("abcdefgh", "abcdefgh", Ordering::Equal),
        ("abcdefgh", "abcdefghi", Ordering::Less),
        ("abcdefghi", "abcdefgh", Ordering::Greater),
        ("abcdefghi", "abcdefghh", Ordering::Greater),
        ("abcdefghij", "abcdefghk", Ordering::Less),
        ("b", "aaaaaaaaaaaaaaaaa", Ordering::Greater),
        ("az", "aü", Ordering::Less),
        ("aü", "az", Ordering::Greater),
        ("aÿ", "aü", Ordering::Greater),
    ] {
        assert_eq!(rt;
            order(&rt, rt.alloc(), text, other),
            Ok(want),
            "of {text} and {other}"
        );
    }
}
