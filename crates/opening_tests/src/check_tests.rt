// The soundness check, on images in which words were changed.
use crate::ground::{
    BLOCK, Change, EXTENSION, EXTENSIONS, FIRST_VERSION, LAST_PAGE, LEAF, NEXT_LEAF, PAGE_5,
    PAGE_9, SLOT, TABLE, TWO_COMMITS, VALUE, image,
};
use img_check::{CheckError, check};
use pm_model::NoMemory;
use std::alloc::Global;
use std::test::Fail;

// Three commits, and four rows below the table's bound, whose words stand in the pages 5 to 7, the first chunks of the
// arrays of creators, of enders and of codes. Row 0 was created by commit 1, row 1 by commit 2 and ended by commit 3,
// row 2 is dead, and row 3 was never created.
const ROWS: [Change; 15] = [
    (514, 3),
    (2057, 4),
    (5, 17),
    (6, 17),
    (7, 17),
    (2064, 1),
    (2065, PAGE_5),
    (2080, 1),
    (2081, PAGE_5 + 512),
    (2104, 1),
    (2105, PAGE_5 + 1024),
    (2560, 1),
    (2561, 2),
    (3073, 3),
    (2562, u64::MAX),
];

// A second chunk of each of these arrays, with 1,024 words: the pages 8 and 9, 10 and 11, 12 and 13.
const SECOND_CREATED: [Change; 3] = [(8, 18), (2064, 2), (2066, PAGE_5 + 1536)];

const SECOND_ENDED: [Change; 3] = [(10, 18), (2080, 2), (2082, PAGE_5 + 2560)];

const SECOND_CODES: [Change; 3] = [(12, 18), (2104, 2), (2106, PAGE_5 + 3584)];

// Whether the rules are kept, and else the first that isn't and the place.
pub(crate) type Told = Option<(u8, u32)>;

// What the check tells of an image. `None` where it hasn't one segment, and where memory runs out.
pub(crate) fn told(alloc: Global, words: &[u64]) -> Option<Told> {
    if words.len() != 32768 {
        return None;
    }
    match check(alloc, words) {
        Ok(()) => Some(None),
        Err(CheckError::Unsound { rule, place }) => Some(Some((rule, place))),
        Err(CheckError::NoMemory) => None,
    }
}

// What it tells of a formatted image of one segment in which words were changed, list by list.
fn told_of(alloc: Global, lists: &[&[Change]]) -> Result<Option<Told>, NoMemory> {
    Ok(told(alloc, &image(alloc, lists)?))
}

#[test]
fn the_first_broken_rule_is_told(rt: HostRuntime) -> Result<(), Fail> {
    let cases: [(&[Change], Told); 39] = [
        (&[], None),
        (&[(512, 0)], Some((1, 512))),
        (&[(513, 9)], Some((2, 513))),
        (&[(514, 1 << 40)], Some((3, 514))),
        (&[(515, 33)], Some((4, 515))),
        (&[(0, 0)], Some((5, 0))),
        (&[(9, 9)], Some((6, 9))),
        (&[(2048, 11)], Some((7, 2048))),
        (&[(576, 3)], Some((8, 576))),
        (&[(522, 1)], Some((9, 522))),
        (&[(2064, 13)], Some((10, 2064))),
        (&[(2096, 3)], Some((12, 2096))),
        (&[(1024, 2)], Some((14, 1024))),
        (&[(1024, 1), (1028, 3 << 56)], Some((15, 1028))),
        (&[(696, 1), (697, BLOCK), (698, BLOCK)], Some((16, 696))),
        (&[(576, 1), (577, SLOT), (578, BLOCK)], Some((16, 576))),
        (&[(521, BLOCK)], Some((17, 521))),
        (&[(2100, LEAF), (2101, LEAF)], Some((17, 2101))),
        (&[(2102, LEAF), (1984, 1)], Some((17, 2102))),
        (&[(521, BLOCK), (2102, LEAF)], Some((17, 2102))),
        (&[(2101, 1)], Some((11, 2101))),
        (&[(2102, 1)], Some((11, 2102))),
        (&[(2101, LEAF)], Some((11, 2101))),
        (&[(1984, 1)], Some((18, 1984))),
        (&[(1985, 1)], Some((18, 1985))),
        (&[(2047, 1)], Some((18, 2047))),
        (
            &[(1986, 1), (1987, LAST_PAGE), (32256 + 255, 1)],
            Some((18, 32511)),
        ),
        (
            &[(1986, 1), (1987, LAST_PAGE), (32256 + 256, 1)],
            Some((19, 1987)),
        ),
        (&[(2048, 0)], Some((19, 520))),
        (&[(515, 2), (521, BLOCK)], Some((20, 521))),
        (&[(2048, 3)], Some((21, 2184))),
        (&[(9, 18), (10, 1), (5120, 5)], Some((21, 4608))),
        (&[(2057, 1)], Some((27, 2057))),
        (&[(9, 1), (4608, 5)], Some((29, 4608))),
        (&[(63, 1), (32767, 5)], Some((29, 32767))),
        (&[(9, 1), (5120, 5)], None),
        (
            &[(2056, 2), (2062, 2), (2136, 1), (2137, 97)],
            Some((30, 2137)),
        ),
        (&[(2056, 2), (2062, 2), (2136, 2), (2137, 98)], None),
        (
            &[
                (515, 2),
                (521, BLOCK + 128),
                (2048, 3),
                (2184, 1),
                (2186, 116),
                (2190, 1),
                (2224, 1),
                (2225, 97),
            ],
            Some((30, 2186)),
        ),
    ];
    for (changes, told) in cases {
        let found = told_of(rt.alloc(), &[&TABLE, changes])?;
        assert_eq!(rt; found, Some(told), "{changes:?}");
    }
    Ok(())
}

#[test]
fn stamps_fit_the_bound_and_the_commits(rt: HostRuntime) -> Result<(), Fail> {
    let cases: [(&[Change], Told); 26] = [
        (&[], None),
        // The bound, and the rows of each array.
        (&[(2057, 0)], Some((27, 2560))),
        (&[(2057, 2)], Some((27, 2562))),
        (&[(2057, 3)], None),
        (&[(2057, 512)], None),
        (&[(2057, 513)], Some((27, 2057))),
        (&[(2064, 0)], Some((27, 2057))),
        (&[(2080, 0)], Some((27, 2057))),
        // A row's creator: none, none that is kept, or a commit.
        (&[(2563, 3)], None),
        (&[(2563, 4)], Some((27, 2563))),
        (&[(2563, u64::MAX - 1)], Some((27, 2563))),
        (&[(514, 1)], Some((27, 2561))),
        // The commit that ended it: not before its creator.
        (&[(3073, 2)], None),
        (&[(3073, 1)], Some((27, 3073))),
        (&[(3073, 4)], Some((27, 3073))),
        (&[(3074, 3)], Some((27, 3074))),
        (&[(3075, 1)], Some((27, 3075))),
        // Row by row, the creator first.
        (&[(2561, 4), (3073, 4)], Some((27, 2561))),
        (&[(3072, 4), (2561, 4)], Some((27, 3072))),
        // From the bound on.
        (&[(2564, 1)], Some((27, 2564))),
        (&[(2564, u64::MAX)], Some((27, 2564))),
        (&[(3076, 1)], Some((27, 3076))),
        (&[(3071, 1)], Some((27, 3071))),
        (&[(3583, 1)], Some((27, 3583))),
        // The rules on both sides.
        (&[(2081, PAGE_5), (3073, 1)], Some((20, 2081))),
        (&[(3583, 1), (9, 1), (4608, 5)], Some((27, 3583))),
    ];
    for (changes, told) in cases {
        let found = told_of(rt.alloc(), &[&TABLE, &ROWS, changes])?;
        assert_eq!(rt; found, Some(told), "{changes:?}");
    }
    Ok(())
}

// Four rows below the table's bound, of which commits 1 and 2 created the first two. The arrays of stamps are the pages
// 6 and 7.
const MOVED_ROWS: [Change; 10] = [
    (514, 3),
    (2057, 4),
    (6, 17),
    (7, 17),
    (2064, 1),
    (2065, PAGE_5 + 512),
    (2080, 1),
    (2081, PAGE_5 + 1024),
    (3072, 1),
    (3073, 2),
];

#[test]
fn columns_in_extensions_are_tried(rt: HostRuntime) -> Result<(), Fail> {
    let cases: [(&[Change], Told); 17] = [
        (&[], None),
        // The bound isn't below the row at which a column begins.
        (&[(2647, 5)], Some((27, 2057))),
        (&[(2583, 5)], Some((27, 2057))),
        (&[(2583, 4)], None),
        (&[(2057, 3)], Some((27, 2057))),
        // Each extension is a block with one owner, also the one after the published columns.
        (&[(2568, EXTENSION)], Some((9, 2568))),
        (&[(2632, EXTENSION)], Some((20, 2632))),
        (&[(2632, EXTENSION + 1)], Some((19, 2632))),
        // They stand before the chunks of the table's arrays: here also the block of the creators' chunk is too long.
        (&[(2632, EXTENSION + 1), (6, 18)], Some((19, 2632))),
        (&[(2056, 2), (2647, 0)], None),
        (&[(2056, 2), (2568, 0)], Some((21, 2632))),
        (&[(2560, 7)], Some((21, 2696))),
        (&[(2560, 7), (2632, EXTENSION + 128)], None),
        (&[(5, 6)], Some((19, 2061))),
        // The chunks of their arrays are owned.
        (&[(8, 17), (2585, PAGE_5 + 1536)], None),
        (&[(2641, 98)], Some((30, 2641))),
        // In version 1 all columns stand in the block.
        (&[(513, 1)], Some((12, 2136))),
    ];
    for (changes, told) in cases {
        let found = told_of(rt.alloc(), &[&TABLE, &EXTENSIONS, &MOVED_ROWS, changes])?;
        assert_eq!(rt; found, Some(told), "{changes:?}");
    }
    Ok(())
}

// A second leaf behind that of the value 7, with the value 8 and the code 1.
const NEXT_VALUE: [Change; 7] = [
    (2048, 7),
    (2185, NEXT_LEAF),
    (2312, 1),
    (2314, 136),
    (2320, (1 << 63) + 8),
    (2321, 1),
    (4097, (1 << 63) + 8),
];

#[test]
fn pairs_in_leaves_are_tried(rt: HostRuntime) -> Result<(), Fail> {
    let zero = 1 << 63;
    let cases: [(&[Change], Told); 39] = [
        (&[], None),
        // The leaves are blocks with one owner, and no split is logged.
        (&[(2048, 5)], Some((19, 2100))),
        (&[(2048, 3)], Some((19, 2185))),
        (&[(2048, 7), (2185, 0)], Some((21, 2312))),
        (&[(2101, LEAF), (2102, NEXT_LEAF)], Some((17, 2101))),
        (&[(9, 17), (2320, zero + 6)], Some((21, 4608))),
        // A key is above each of the leaves before, and there is none like it in its own.
        (&[(2320, zero + 7)], Some((22, 2320))),
        (&[(2320, zero + 6)], Some((22, 2320))),
        (&[(2320, 0)], Some((22, 2320))),
        (&[(2192, 0), (2186, 0), (4096, 0)], None),
        (&[(2312, 3), (2322, zero + 7)], Some((22, 2322))),
        (&[(2312, 3), (2322, zero + 8)], Some((22, 2322))),
        (
            &[
                (2312, 3),
                (2322, zero + 9),
                (2314, 35208),
                (2323, 2),
                (4098, zero + 9),
            ],
            None,
        ),
        // The keys of one leaf stand in any order.
        (
            &[
                (2184, 3),
                (2194, zero + 5),
                (2186, 34183),
                (2195, 2),
                (4098, zero + 5),
            ],
            None,
        ),
        (
            &[(2184, 3), (2194, zero + 9), (2186, 35207), (2195, 2)],
            Some((22, 2320)),
        ),
        (
            &[(2184, 0), (2320, 0), (2314, 0), (2321, 0), (4096, 0)],
            None,
        ),
        // The fingerprints of used slots, eight in a word.
        (&[(2186, 134)], Some((23, 2186))),
        (&[(2314, 135)], Some((23, 2314))),
        (&[(2186, 391), (2315, 5)], None),
        (
            &[
                (2184, 257),
                (2208, zero + 5),
                (2209, 2),
                (2187, 133),
                (4098, zero + 5),
            ],
            None,
        ),
        (
            &[(2184, 257), (2208, zero + 5), (2209, 2), (2187, 132)],
            Some((23, 2187)),
        ),
        // A code is below the number of values, and its published dictionary slot holds the key word.
        (&[(2321, 0)], Some((24, 2321))),
        (&[(2321, 2)], Some((24, 2321))),
        (&[(2321, 2), (4098, zero + 8)], Some((24, 2321))),
        (&[(2193, 1)], Some((24, 2193))),
        (&[(2193, 1), (2321, 0)], Some((24, 2193))),
        (
            &[(2193, 1), (2321, 0), (4096, zero + 8), (4097, zero + 7)],
            None,
        ),
        (&[(4096, zero + 8)], Some((24, 2193))),
        (&[(4097, zero + 9)], Some((24, 2321))),
        (&[(4098, zero + 9)], None),
        (&[(2120, 0)], Some((24, 2193))),
        (&[(2193, 2)], Some((24, 2193))),
        (&[(2193, u64::MAX)], Some((24, 2193))),
        // In the order of their numbers.
        (&[(2320, zero + 6), (2186, 134)], Some((22, 2320))),
        (&[(2186, 134), (2193, 5)], Some((23, 2186))),
        (&[(2193, 5), (2057, 513)], Some((24, 2193))),
        // In a column of texts the codes alone are tried.
        (&[(2096, 2), (2186, 134), (2320, 0), (4097, 0)], None),
        (&[(2096, 2), (2193, 5)], Some((24, 2193))),
        (&[(2096, 2), (2320, zero + 7), (2321, 0)], Some((24, 2321))),
    ];
    for (changes, told) in cases {
        let found = told_of(rt.alloc(), &[&TABLE, &VALUE, &NEXT_VALUE, changes])?;
        assert_eq!(rt; found, Some(told), "{changes:?}");
    }
    Ok(())
}

// The one value of a table, with a word changed.
#[test]
fn the_pair_of_one_value_is_tried(rt: HostRuntime) -> Result<(), Fail> {
    let cases: [(&[Change], Told); 12] = [
        (&[], None),
        (&[(2048, 1)], Some((19, 2100))),
        (&[(2048, 7)], Some((21, 2312))),
        (&[(2186, 134)], Some((23, 2186))),
        (&[(2193, 1)], Some((24, 2193))),
        (
            &[(2101, LEAF), (2102, NEXT_LEAF), (2313, LEAF)],
            Some((17, 2101)),
        ),
        // A dictionary of texts has nothing behind its values; one of integers may.
        (&[(4097, 5), (4607, 5)], None),
        (&[(2096, 2)], None),
        (&[(2096, 2), (4097, 5)], Some((26, 4097))),
        (&[(2096, 2), (4607, 5)], Some((26, 4607))),
        (&[(2096, 2), (2184, 0)], Some((26, 4096))),
        (&[(2096, 2), (4607, 5), (2057, 513)], Some((26, 4607))),
    ];
    for (changes, told) in cases {
        let found = told_of(rt.alloc(), &[&TABLE, &VALUE, changes])?;
        assert_eq!(rt; found, Some(told), "{changes:?}");
    }
    Ok(())
}

// The image whose state is told is sound, and each of its parts is tried.
#[test]
fn the_image_of_two_commits_is_sound(rt: HostRuntime) -> Result<(), Fail> {
    let cases: [(&[Change], Told); 13] = [
        (&[], None),
        // No column begins above the bound.
        (&[(4695, 3)], Some((27, 2057))),
        (&[(4631, 3)], Some((27, 2057))),
        (&[(2057, 1)], Some((27, 2057))),
        // An extension is reached once, and its column's chunks and leaves are owned, by it alone.
        (&[(4616, PAGE_9 + 8)], Some((9, 4616))),
        (&[(4632, 0), (4633, 0)], Some((21, 5120))),
        (&[(4628, 0)], Some((21, 2312))),
        (&[(4628, BLOCK + 128)], Some((20, 4628))),
        (&[(4625, 97)], Some((30, 4625))),
        // The pairs of both columns of integers.
        (&[(2194, (1 << 63) + 7)], Some((22, 2194))),
        (&[(2314, 132)], Some((23, 2314))),
        (&[(2321, 1)], Some((24, 2321))),
        // In version 1 the third column stands in the block, where its array of codes begins with the first leaf.
        (&[(513, 1)], Some((10, 2185))),
    ];
    for (changes, told) in cases {
        let found = told_of(rt.alloc(), &[&TABLE, &TWO_COMMITS, changes])?;
        assert_eq!(rt; found, Some(told), "{changes:?}");
    }
    Ok(())
}

// A second table `u a:int b:text`, whose block is the second slot of page 4, with its second column in the first
// extension of the table `t`.
const SHARED_EXTENSION: [Change; 9] = [
    (515, 2),
    (521, BLOCK + 128),
    (2048, 3),
    (2184, 2),
    (2186, 117),
    (2189, EXTENSION),
    (2190, 1),
    (2224, 1),
    (2225, 97),
];

#[test]
fn an_extension_has_one_table(rt: HostRuntime) -> Result<(), Fail> {
    let cases: [(&[Change], Told); 3] = [
        (&[], Some((20, 2189))),
        // The table reaches its own extension again.
        (&[(2568, EXTENSION)], Some((9, 2568))),
        (&[(2184, 1), (2189, 0)], None),
    ];
    for (changes, told) in cases {
        let found = told_of(
            rt.alloc(),
            &[&TABLE, &EXTENSIONS, &MOVED_ROWS, &SHARED_EXTENSION, changes],
        )?;
        assert_eq!(rt; found, Some(told), "{changes:?}");
    }
    Ok(())
}

#[test]
fn version_1_is_not_sound(rt: HostRuntime) -> Result<(), Fail> {
    let cases: [(&[Change], &[Change], Told); 9] = [
        (&[], &[], Some((31, 513))),
        (&[], &[(2062, 7)], Some((31, 513))),
        (&[], &[(2041, 1)], Some((18, 2041))),
        (&[], &[(513, 2), (2062, 1)], None),
        // With rows, some of which commits created; and with dead ones alone.
        (&ROWS, &[], Some((31, 513))),
        (
            &ROWS,
            &[(2560, u64::MAX), (2561, u64::MAX), (3073, 0)],
            Some((31, 513)),
        ),
        (&ROWS, &[(2563, 4)], Some((27, 2563))),
        // With a row, its value and its leaf.
        (&VALUE, &[], Some((31, 513))),
        (&VALUE, &[(513, 2), (2062, 1)], None),
    ];
    for (rows, changes, told) in cases {
        let found = told_of(rt.alloc(), &[&TABLE, rows, &FIRST_VERSION, changes])?;
        assert_eq!(rt; found, Some(told), "{changes:?}");
    }
    Ok(())
}

// The words of rows that an array has and another has not.
#[test]
fn stamps_of_a_longer_array_are_tried(rt: HostRuntime) -> Result<(), Fail> {
    let cases: [(&[Change], &[Change], Told); 6] = [
        (&SECOND_CREATED, &[], None),
        (&SECOND_CREATED, &[(4096, 1)], Some((27, 4096))),
        (&SECOND_CREATED, &[(5119, 1)], Some((27, 5119))),
        (&SECOND_ENDED, &[], None),
        (&SECOND_ENDED, &[(5120, 1)], Some((27, 5120))),
        (&SECOND_ENDED, &[(6143, 1)], Some((27, 6143))),
    ];
    for (longer, changes, told) in cases {
        let found = told_of(rt.alloc(), &[&TABLE, &ROWS, longer, changes])?;
        assert_eq!(rt; found, Some(told), "{changes:?}");
    }
    Ok(())
}

// Rows 512 to 1,535 stand in the second chunks.
#[test]
fn stamps_of_second_chunks_are_tried(rt: HostRuntime) -> Result<(), Fail> {
    let cases: [(&[Change], Told); 8] = [
        (&[], None),
        (&[(2057, 1537)], Some((27, 2057))),
        (&[(2057, 1536), (4096, 1), (5120, 1)], None),
        (&[(2057, 513), (4096, 1), (5120, 1)], None),
        (&[(2057, 512), (4096, 1), (5120, 1)], Some((27, 4096))),
        (&[(2057, 1536), (4101, 2), (5125, 1)], Some((27, 5125))),
        (&[(2057, 1536), (5119, 3), (6143, 3)], None),
        (&[(2057, 1535), (5119, 3), (6143, 3)], Some((27, 5119))),
    ];
    for (changes, told) in cases {
        let found = told_of(
            rt.alloc(),
            &[
                &TABLE,
                &ROWS,
                &SECOND_CREATED,
                &SECOND_ENDED,
                &SECOND_CODES,
                changes,
            ],
        )?;
        assert_eq!(rt; found, Some(told), "{changes:?}");
    }
    Ok(())
}
