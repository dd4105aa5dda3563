use heap_big::{Run, Runs};
use std::alloc::Global;
use std::process::Abort;
use std::test::Fail;

fn run(first: u16, pages: u32) -> Run {
    Run { first, pages }
}

// The index of so many pages with these descriptors, each with its page; all others are 0.
fn index(
    rt: &impl Abort,
    alloc: Global,
    pages: usize,
    described: &[(usize, u64)],
) -> Result<Runs, Fail> {
    let mut descriptors = vec![in alloc; 0u64; pages]?;
    for (page, descriptor) in described {
        if let Some(there) = descriptors.get_mut(*page) {
            *there = *descriptor;
        }
    }
    assert!(rt; descriptors.len() % 64 == 0);
    assert!(rt; descriptors.len() <= 8192);
    Ok(Runs::from_descriptors(alloc, descriptors.as_slice())?)
}

// A number of pages, the run that is taken for them, and the longest run that is left.
type Take = (u32, Option<Run>, u32);

// Whether the index has this longest run, and these are taken from it one after the other.
fn takes_are(
    rt: &impl Abort,
    alloc: Global,
    pages: usize,
    described: &[(usize, u64)],
    largest: u32,
    takes: &[Take],
) -> Result<bool, Fail> {
    let mut index = index(rt, alloc, pages, described)?;
    let mut right = index.largest() == largest;
    for (pages, taken, left) in takes {
        right = right && index.take(*pages) == *taken && index.largest() == *left;
    }
    Ok(right)
}

#[test]
fn free_pages_are_read(rt: HostRuntime) -> Result<(), Fail> {
    let formatted = [(0, 8), (1, 8), (2, 8), (3, 8)];
    let full = [(0, 8), (1, 8), (2, 8), (3, 8), (4, 76)];
    let mixed = [
        (0, 8),
        (1, 8),
        (2, 8),
        (3, 8),
        (10, 18),
        (11, 5),
        (12, 5),
        (13, 1),
        (60, 20),
        (64, 8),
        (127, 17),
    ];
    let whole = [(60, Some(run(4, 60)), 0), (1, None, 0)];
    let longest_first = [
        (62, Some(run(65, 62)), 47),
        (47, Some(run(13, 47)), 6),
        (6, Some(run(4, 6)), 0),
        (1, None, 0),
    ];
    assert!(rt; takes_are(&rt, rt.alloc(), 64, &formatted, 60, &whole)?);
    assert!(rt; takes_are(&rt, rt.alloc(), 64, &full, 0, &[(1, None, 0)])?);
    assert!(rt; takes_are(&rt, rt.alloc(), 128, &mixed, 62, &longest_first)?);
    Ok(())
}

#[test]
fn the_best_fit_is_taken(rt: HostRuntime) -> Result<(), Fail> {
    // Pages 4 to 6, 8 and 9, 11 and 12, 14 and 15 are free.
    let described = [
        (0, 8),
        (1, 8),
        (2, 8),
        (3, 8),
        (7, 2),
        (10, 8),
        (13, 2),
        (16, 64),
    ];
    let takes = [
        (4, None, 3),
        (2, Some(run(8, 2)), 3),
        (1, Some(run(11, 1)), 3),
        (1, Some(run(12, 1)), 3),
        (3, Some(run(4, 3)), 2),
        (1, Some(run(14, 1)), 1),
        (2, None, 1),
        (1, Some(run(15, 1)), 0),
        (1, None, 0),
    ];
    assert!(rt; takes_are(&rt, rt.alloc(), 64, &described, 3, &takes)?);
    Ok(())
}

// The longest run after both parts of all free pages were taken and put back, and what 60 pages get then.
type Joined = (u32, Option<Run>);

// The lower part is put back first.
fn joined_upwards(rt: &impl Abort, alloc: Global) -> Result<Joined, Fail> {
    let mut index = index(rt, alloc, 64, &[(0, 8), (1, 8), (2, 8), (3, 8)])?;
    let lower = index.take(58).expect(rt, "58 pages");
    let upper = index.take(2).expect(rt, "2 pages");
    index.put_back(lower);
    index.put_back(upper);
    Ok((index.largest(), index.take(60)))
}

// The upper part is put back first.
fn joined_downwards(rt: &impl Abort, alloc: Global) -> Result<Joined, Fail> {
    let mut index = index(rt, alloc, 64, &[(0, 8), (1, 8), (2, 8), (3, 8)])?;
    let lower = index.take(59).expect(rt, "59 pages");
    let upper = index.take(1).expect(rt, "1 page");
    index.put_back(upper);
    index.put_back(lower);
    Ok((index.largest(), index.take(60)))
}

#[test]
fn neighbours_are_joined(rt: HostRuntime) -> Result<(), Fail> {
    let whole = (60, Some(run(4, 60)));
    assert_eq!(rt; joined_upwards(&rt, rt.alloc())?, whole);
    assert_eq!(rt; joined_downwards(&rt, rt.alloc())?, whole);
    Ok(())
}
