// The rules that are tried before an image is opened, on images in which words were changed.
use crate::ground::{
    BLOCK, Change, EXTENSION, EXTENSIONS, LAST_PAGE, LEAF, NEXT_LEAF, TABLE, TWO_COMMITS, VALUE,
    image,
};
use pm_model::NoMemory;
use pmem_recover::{EntryError, check_entry};
use std::alloc::Global;
use std::test::Fail;

// Whether the rules are kept, and else the first that isn't and the place.
type Told = Option<(u8, u32)>;

// What is told of a formatted image of one segment in which words were changed, list by list.
fn told_of(alloc: Global, lists: &[&[Change]]) -> Result<Option<Told>, NoMemory> {
    let words = image(alloc, lists)?;
    if words.len() != 32768 {
        return Ok(None);
    }
    match check_entry(alloc, &words) {
        Ok(()) => Ok(Some(None)),
        Err(EntryError::BadImage { rule, place }) => Ok(Some(Some((rule, place)))),
    }
}

// The pointer to page 4, and to the last place of the image from which 256 words lie in its segment.
const FIRST_SEGMENT: u64 = 4_294_969_344;

const LAST_SEGMENT: u64 = 4_294_999_808;

#[test]
fn the_first_broken_rule_is_told(rt: HostRuntime) -> Result<(), Fail> {
    let cases: [(&[Change], Told); 31] = [
        (&[], None),
        (&[(512, 0)], Some((1, 512))),
        (&[(513, 0)], Some((2, 513))),
        (&[(513, 1)], None),
        (&[(513, 3)], Some((2, 513))),
        (&[(513, 9)], Some((2, 513))),
        (&[(514, 1 << 40)], Some((3, 514))),
        (&[(514, (1 << 40) - 1)], None),
        (&[(0, 0)], Some((5, 0))),
        (&[(5, 8)], Some((6, 5))),
        (&[(5, 16 + 62)], Some((6, 5))),
        (&[(5, 16 + 59)], None),
        (&[(5, 2), (2560, 1 << 63)], Some((7, 2560))),
        (&[(5, 2), (2560, (1 << 63) - 1)], None),
        (&[(576, 3)], Some((8, 576))),
        (&[(696, 1)], Some((8, 696))),
        (&[(5, 8), (0, 0)], Some((5, 0))),
        (&[(1024, 2)], Some((14, 1024))),
        (&[(1984, 2)], Some((14, 1984))),
        (&[(1985, 1)], None),
        (&[(1985, 2)], Some((14, 1985))),
        (&[(514, (1 << 40) - 1), (1985, (1 << 40) - 1)], None),
        (&[(514, (1 << 40) - 1), (1985, 1 << 40)], Some((14, 1985))),
        (&[(1986, 33)], Some((14, 1986))),
        (&[(1987, 1)], Some((14, 1987))),
        (&[(1987, LAST_SEGMENT)], None),
        (&[(1987, LAST_SEGMENT + 1)], Some((14, 1987))),
        (&[(1986, 1), (1987, LAST_SEGMENT)], None),
        (
            &[(1986, 1), (1987, LAST_SEGMENT), (32512, 1)],
            Some((14, 32512)),
        ),
        (
            &[(1986, 2), (1987, FIRST_SEGMENT), (2048, LAST_SEGMENT)],
            None,
        ),
        (
            &[(1986, 2), (1987, FIRST_SEGMENT), (2048, FIRST_SEGMENT)],
            Some((14, 2048)),
        ),
    ];
    for (changes, told) in cases {
        let found = told_of(rt.alloc(), &[changes])?;
        assert_eq!(rt; found, Some(told), "{changes:?}");
    }
    Ok(())
}

#[test]
fn the_first_broken_rule_of_a_table_is_told(rt: HostRuntime) -> Result<(), Fail> {
    let row = 1 << 56;
    let cases: [(&[Change], Told); 34] = [
        (&[], None),
        (&[(515, 33)], Some((4, 515))),
        (&[(9, 9)], Some((6, 9))),
        (&[(2048, 11)], Some((7, 2048))),
        (&[(522, 1)], Some((9, 522))),
        (&[(551, 1)], Some((9, 551))),
        (&[(521, BLOCK)], None),
        (&[(521, BLOCK + 1)], Some((9, 521))),
        (&[(2056, 0)], Some((9, 520))),
        (&[(2056, 17)], Some((9, 520))),
        // How many columns stand in the block, which version 1 doesn't say.
        (&[(2062, 0)], Some((9, 520))),
        (&[(2062, 2)], Some((9, 520))),
        (&[(513, 1), (2062, 0)], None),
        (&[(513, 1), (2062, 9)], None),
        (&[(513, 1), (2056, 0)], Some((9, 520))),
        (&[(513, 1), (2056, 17)], Some((9, 520))),
        (&[(2061, 1)], Some((9, 2061))),
        (&[(2064, 13)], Some((10, 2064))),
        (&[(2065, LAST_PAGE)], None),
        (&[(2065, LAST_PAGE + 1)], Some((10, 2065))),
        (&[(2064, 1)], Some((10, 2065))),
        (&[(2076, LAST_PAGE)], Some((10, 2076))),
        (&[(2132, 1)], Some((10, 2132))),
        (&[(2058, 0)], Some((12, 2058))),
        (&[(2060, 97 << 56)], Some((12, 2060))),
        (&[(2096, 3)], Some((12, 2096))),
        (&[(2103, 1)], Some((12, 2103))),
        (&[(513, 1), (2103, 1)], None),
        (&[(2097, 97 + (95 << 8))], None),
        (&[(2097, 97 + (65 << 8))], Some((12, 2097))),
        (&[(1024, 1), (1028, 3 << 56)], Some((15, 1028))),
        (&[(1024, 1), (1028, row)], Some((15, 1028))),
        (&[(1028, row)], None),
        (&[(1984, 1), (2047, row)], Some((15, 2047))),
    ];
    for (changes, told) in cases {
        let found = told_of(rt.alloc(), &[&TABLE, changes])?;
        assert_eq!(rt; found, Some(told), "{changes:?}");
    }
    Ok(())
}

#[test]
fn the_first_broken_rule_of_extensions_is_told(rt: HostRuntime) -> Result<(), Fail> {
    let cases: [(&[Change], Told); 16] = [
        (&[], None),
        // A pointer to no extension, one that doesn't lie in its segment, and one that was reached before.
        (&[(2061, 0)], Some((9, 2061))),
        (&[(2568, 0)], Some((9, 2568))),
        (&[(2568, LAST_PAGE + 465)], Some((9, 2568))),
        (&[(2568, EXTENSION)], Some((9, 2568))),
        (&[(2056, 4), (2632, EXTENSION)], Some((9, 2632))),
        // The pointer after them: null, or one of an extension that isn't published.
        (&[(2632, 1)], Some((9, 2632))),
        (&[(2632, LAST_PAGE + 464)], None),
        (&[(2056, 2)], None),
        (&[(2056, 2), (2568, 1)], Some((9, 2568))),
        // The slot is told before the extensions.
        (&[(2062, 0), (2568, 0)], Some((9, 520))),
        (&[(2568, 0), (522, 1)], Some((9, 2568))),
        // Arrays, kinds and names of their columns.
        (&[(2584, 13)], Some((10, 2584))),
        (&[(2664, 13)], Some((10, 2664))),
        (&[(2576, 3)], Some((12, 2576))),
        (&[(2641, 65)], Some((12, 2641))),
    ];
    for (changes, told) in cases {
        let found = told_of(rt.alloc(), &[&TABLE, &EXTENSIONS, changes])?;
        assert_eq!(rt; found, Some(told), "{changes:?}");
    }
    Ok(())
}

// Two leaves in the column's list, the second and the third slot of page 4, and the pointer to a place behind them.
const LEAVES: [Change; 3] = [(2048, 7), (2100, LEAF), (2185, NEXT_LEAF)];

const THIRD_LEAF: u64 = LEAF + 256;

#[test]
fn the_first_broken_rule_of_trees_is_told(rt: HostRuntime) -> Result<(), Fail> {
    let cases: [(&[Change], Told); 30] = [
        (&[], None),
        // Each pointer of the column's record names words of a leaf's block, in one segment.
        (&[(2100, 1)], Some((11, 2100))),
        (&[(2100, LAST_PAGE + 384)], None),
        (&[(2100, LAST_PAGE + 385)], Some((11, 2100))),
        (&[(2101, 1)], Some((11, 2101))),
        (&[(2102, 1)], Some((11, 2102))),
        (&[(2102, THIRD_LEAF)], None),
        (&[(2102, 1), (2185, 1)], Some((11, 2102))),
        // The bitmap of each leaf has 48 bits.
        (&[(2184, 1 << 48)], Some((11, 2184))),
        (&[(2184, (1 << 48) - 1)], None),
        (&[(2312, 1 << 48)], Some((11, 2312))),
        (&[(2440, 1 << 48)], None),
        // Each next word names words of a leaf's block.
        (&[(2185, 1)], Some((11, 2185))),
        (&[(2185, 0), (2312, 1 << 48)], None),
        (&[(2313, LAST_PAGE + 385)], Some((11, 2313))),
        (&[(2184, 1 << 48), (2185, 1)], Some((11, 2184))),
        // No leaf is reached twice: the circle is told where it closes, behind what is broken before.
        (&[(2185, LEAF)], Some((11, 2185))),
        (&[(2313, LEAF)], Some((11, 2313))),
        (&[(2313, NEXT_LEAF)], Some((11, 2313))),
        (&[(2313, THIRD_LEAF)], None),
        (&[(2313, THIRD_LEAF), (2441, LEAF)], Some((11, 2441))),
        (&[(2313, THIRD_LEAF), (2441, NEXT_LEAF)], Some((11, 2441))),
        (&[(2312, 1 << 48), (2313, LEAF)], Some((11, 2312))),
        // The leaf that is being split is one of the list.
        (&[(2101, LEAF)], None),
        (&[(2101, NEXT_LEAF)], None),
        (&[(2101, THIRD_LEAF)], Some((11, 2101))),
        (&[(2101, THIRD_LEAF), (2313, LEAF)], Some((11, 2313))),
        (&[(2100, 0), (2101, LEAF)], Some((11, 2101))),
        // The rules on both sides.
        (&[(2185, 1), (2132, 1)], Some((10, 2132))),
        (&[(2185, 1), (2096, 3)], Some((11, 2185))),
    ];
    for (changes, told) in cases {
        let found = told_of(rt.alloc(), &[&TABLE, &LEAVES, changes])?;
        assert_eq!(rt; found, Some(told), "{changes:?}");
    }
    Ok(())
}

// A split that is about to link its leaf, where this one leads back: the image may be opened, and then it breaks the
// rule.
#[test]
fn a_mended_split_may_close_a_circle(rt: HostRuntime) -> Result<(), Fail> {
    let cases: [(&[Change], Told); 2] = [
        (&[(2101, LEAF), (2102, NEXT_LEAF), (2313, LEAF)], None),
        (&[(2185, NEXT_LEAF), (2313, LEAF)], Some((11, 2313))),
    ];
    for (changes, told) in cases {
        let found = told_of(rt.alloc(), &[&TABLE, &VALUE, changes])?;
        assert_eq!(rt; found, Some(told), "{changes:?}");
    }
    Ok(())
}

// The trees of each column, also of those in extensions.
#[test]
fn trees_of_extensions_are_tried(rt: HostRuntime) -> Result<(), Fail> {
    let cases: [(&[Change], Told); 4] = [
        (&[], None),
        (&[(4629, 1)], Some((11, 4629))),
        (&[(4692, 1), (2313, NEXT_LEAF)], Some((11, 2313))),
        (&[(4692, 1), (2185, 1)], Some((11, 2185))),
    ];
    for (changes, told) in cases {
        let found = told_of(rt.alloc(), &[&TABLE, &TWO_COMMITS, changes])?;
        assert_eq!(rt; found, Some(told), "{changes:?}");
    }
    Ok(())
}

// A chunk of each array of stamps, and an open object.
const CHUNKS: [Change; 5] = [
    (2064, 1),
    (2065, LAST_PAGE),
    (2080, 1),
    (2081, LAST_PAGE),
    (1024, 1),
];

// Entries of rows below and at the capacity of an array of one chunk.
#[test]
fn entries_are_of_rows_with_stamps(rt: HostRuntime) -> Result<(), Fail> {
    let row = 1 << 56;
    for (entry, told) in [
        ((1028, row + 511), None),
        ((1028, row + 512), Some((15, 1028))),
        ((1028, row + (1 << 32)), Some((15, 1028))),
        ((1029, row), Some((15, 1029))),
    ] {
        let found = told_of(rt.alloc(), &[&TABLE, &CHUNKS, &[entry]])?;
        assert_eq!(rt; found, Some(told), "{entry:?}");
    }
    Ok(())
}
