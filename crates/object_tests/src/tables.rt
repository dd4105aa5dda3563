ghost use Rattle.std.specs.Prelude.{◌≡◌, ℕ, ◌+◌, ◌≤◌, IfOk, length};
ghost use Rattle.pm_model.specs.Plain.{device_of};
ghost use Rattle.heap_palloc.specs.Calls.{IsSettled};
ghost use Rattle.seg_array.specs.Calls.{IsHeader};

use arrayvec::ArrayVec;
use catalog::{Catalog, CreateError, NoMemory, rebuild};
use heap_palloc::Heap;
use mv_model::{Column, Kind, Name, Shape};
use pm_model::{Memory, Place, Plain, table_count, table_slot};
use std::alloc::Global;
use std::process::Abort;
use test_ground::{formatted_heap, play_whole};

/// A formatted image of so many segments, its heap and its catalog.
pub(crate) fn formatted(alloc: Global, segments: u32) -> Result<(Plain, Heap, Catalog), NoMemory>
    requires some { 1 ≤ segments }
    requires most { segments ≤ 128 }
    ensures { IfOk result (λ made. IsSettled (device_of made.0) made.1) }
{
    let (memory, heap) = formatted_heap(alloc, segments)?;
    let catalog = rebuild(alloc, &memory)?;
    Ok((memory, heap, catalog))
}

fn name(rt: &impl Abort, text: &str) -> Name {
    Name::read(text).expect(rt, "a name")
}

// One column `a` of integers.
fn one_column(rt: &impl Abort) -> Shape
    ensures { length result ≡ 1 }
{
    let mut columns = ArrayVec::new();
    columns.push(Column {
        name: name(rt, "a"),
        kind: Kind::Int,
    });
    Shape::of(columns).expect(rt, "a shape")
}

/// Creates a table with one column through lane 0, and gives the place of its block.
pub(crate) fn create<M: Memory>(
    rt: &impl Abort,
    alloc: Global,
    memory: &mut M,
    heap: &mut Heap,
    catalog: &mut Catalog,
    text: &str,
) -> Result<Place, CreateError>
    requires { IsSettled (M.device memory.old) heap.old }
    ensures settled { IsSettled (M.device memory.new) heap.new }
    ensures headers { IfOk result (λ block. (array : ℕ) → array + 16 ≤ 80 →
        IsHeader (M.device memory.new).cached (block.0 + array)) }
{
    let count = catalog.count();
    assert_eq!(rt; memory.load(Place(576)), 0);
    assert_eq!(rt; memory.load(table_count()), u64::from(count));
    if count < 32 {
        assert_eq!(rt; memory.load(table_slot(count as u8)), 0);
    }
    let table = name(rt, text);
    let shape = one_column(rt);
    let mut plan = catalog.plan_create(alloc, memory, heap, 0, &table, &shape)?;
    play_whole(memory, 1, &mut plan);
    catalog.published();
    Ok(catalog.block(count))
}

// Creates tables of these names, one after the other.
fn create_all<M: Memory>(
    rt: &impl Abort,
    alloc: Global,
    memory: &mut M,
    heap: &mut Heap,
    catalog: &mut Catalog,
    texts: &[&str],
) -> Result<(), CreateError>
    requires { IsSettled (M.device memory.old) heap.old }
    ensures { IsSettled (M.device memory.new) heap.new }
{
    for text in texts {
        create(rt, alloc, memory, heap, catalog, text)?;
    }
    Ok(())
}

// The version, the count of tables, the first table's slot, how many columns stand in its block and its bound of rows;
// and the number of `t`.
type Seen = ([u64; 5], Option<u32>);

fn seen<M: Memory>(rt: &impl Abort, memory: &M, catalog: &Catalog) -> Seen {
    let words = [
        memory.load(Place(513)),
        memory.load(Place(515)),
        memory.load(Place(520)),
        memory.load(Place(2062)),
        memory.load(Place(2057)),
    ];
    (words, catalog.table(&name(rt, "t")))
}

// What is seen once tables of these names are created on a formatted image of two segments.
fn created(rt: &impl Abort, alloc: Global, texts: &[&str]) -> Result<Seen, CreateError> {
    let (mut memory, mut heap, mut catalog) = formatted(alloc, 2)?;
    let made = create_all(rt, alloc, &mut memory, &mut heap, &mut catalog, texts);
    let seen = seen(rt, &memory, &catalog);
    drop(catalog);
    drop(heap);
    drop(memory);
    made?;
    Ok(seen)
}

// The 33 names of tables of which the last is one too many.
const NAMES: [&str; 33] = [
    "a", "b", "c", "d", "e", "f", "g", "h", "i", "j", "k", "l", "m", "n", "o", "p", "q", "r", "s",
    "t", "u", "v", "w", "x", "y", "z", "a0", "a1", "a2", "a3", "a4", "a5", "a6",
];

#[test]
fn a_table_is_created_once(rt: HostRuntime) {
    let first = 4_294_969_352;
    for (texts, seen) in [
        (&["t"] as &[&str], Ok(([2, 1, first, 1, 0], Some(0)))),
        (&["s", "t"], Ok(([2, 2, first, 1, 0], Some(1)))),
        (&["t", "t"], Err(CreateError::TableExists)),
        (&NAMES[..32], Ok(([2, 32, first, 1, 0], Some(19)))),
        (&NAMES[..], Err(CreateError::TooManyTables)),
    ] {
        assert_eq!(rt; created(&rt, rt.alloc(), texts), seen);
    }
}
