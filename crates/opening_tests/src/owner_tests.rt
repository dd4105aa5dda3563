ghost use Rattle.std.specs.Prelude.{◌≡◌, length};

use crate::ground::{Change, LEAF, NEXT_LEAF, PAGE_5, image};
use image_rules::{
    objects_fault, owned_fault, owner_fault, single_owner_fault, table_count_fault,
    table_slot_fault,
};
use pm_model::NoMemory;
use std::alloc::Global;
use std::test::Fail;

// The first word that breaks the rule of named blocks, that of single owners, and that of owned blocks.
type Faults = [Option<u32>; 3];

// None where the image breaks a rule that these rely on.
fn owner_faults(alloc: Global, words: &[u64]) -> Result<Option<Faults>, NoMemory>
    requires { length words.now ≡ 32768 }
{
    if table_count_fault(words).is_some() {
        return Ok(None);
    }
    if table_slot_fault(words).is_some() {
        return Ok(None);
    }
    if objects_fault(words).is_some() {
        return Ok(None);
    }
    let named = owner_fault(alloc, words)?;
    let single = single_owner_fault(alloc, words)?;
    let owned = owned_fault(alloc, words)?;
    Ok(Some([named, single, owned]))
}

// The faults of a formatted image of one segment with a table, in which words were changed.
fn changed_faults(alloc: Global, changes: &[Change]) -> Result<Option<Faults>, NoMemory> {
    let words = image(alloc, &[&TABLE, changes])?;
    if words.len() != 32768 {
        return Ok(None);
    }
    owner_faults(alloc, &words)
}

// A table with one column, whose block is the first slot of page 4, of 128 words.
const TABLE: [Change; 6] = [
    (515, 1),
    (520, 4_294_969_352),
    (4, 6),
    (2048, 1),
    (2056, 1),
    (2062, 1),
];

// The pointer to the slot of page 6 as a page with one slot.
const SEGMENT: u64 = 4_294_970_376;

#[test]
fn each_block_has_one_owner(rt: HostRuntime) -> Result<(), Fail> {
    let cases: [(&[Change], Faults); 19] = [
        (&[], [None, None, None]),
        (&[(4, 7)], [Some(520), None, None]),
        (&[(2048, 0)], [Some(520), None, None]),
        (&[(2048, 3)], [None, None, Some(2184)]),
        (&[(5, 17)], [None, None, Some(2560)]),
        (&[(5, 17), (2065, PAGE_5)], [None, None, None]),
        (&[(5, 18), (2065, PAGE_5)], [Some(2065), None, None]),
        (
            &[(5, 17), (2064, 1), (2066, PAGE_5)],
            [Some(2066), None, None],
        ),
        (
            &[(5, 17), (2065, PAGE_5), (2081, PAGE_5)],
            [None, Some(2081), None],
        ),
        (
            &[(6, 7), (3072, 1), (1026, 1), (1027, SEGMENT)],
            [None, None, None],
        ),
        (&[(6, 7), (3072, 1), (1027, SEGMENT)], [None, None, None]),
        (
            &[(6, 7), (3072, 1), (1027, SEGMENT), (1091, SEGMENT)],
            [None, Some(1091), None],
        ),
        // The leaves of the column: the first one, and the one after it.
        (&[(2048, 3), (2100, LEAF)], [None, None, None]),
        (
            &[(2048, 7), (2100, LEAF), (2185, NEXT_LEAF)],
            [None, None, None],
        ),
        (&[(2100, LEAF)], [Some(2100), None, None]),
        // The chunks of the dictionary stand before them.
        (
            &[(5, 18), (2121, PAGE_5), (2100, LEAF)],
            [Some(2121), None, None],
        ),
        (&[(2048, 7), (2100, LEAF)], [None, None, Some(2312)]),
        (
            &[(2048, 3), (5, 17), (2100, LEAF), (2185, PAGE_5)],
            [Some(2185), None, None],
        ),
        (
            &[(2048, 3), (2100, LEAF), (2185, LEAF)],
            [None, Some(2185), None],
        ),
    ];
    for (changes, faults) in cases {
        let told = changed_faults(rt.alloc(), changes)?;
        assert_eq!(rt; told, Some(faults), "{changes:?}");
    }
    Ok(())
}
