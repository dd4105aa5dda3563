// A table with one column of integers.
ghost use Rattle.std.specs.Prelude.{◌≡◌, ◌+◌, ◌≤◌, IfOk, IfSome, IsTrue, length};
ghost use Rattle.pm_model.specs.Plain.{device_of};
ghost use Rattle.heap_palloc.specs.Calls.{IsSettled};
ghost use Rattle.tree_ground.specs.Ready.{IsColumn, IsEmptyColumn, IsEmptyImage};

use crate::error::GroundError;
use arrayvec::ArrayVec;
use catalog::{Catalog, rebuild};
use heap_palloc::Heap;
use mv_model::{Column, Kind, Name, Shape};
use pm_model::{
    Memory, Place, Plain, column, column_kind, first_leaf, lane_op, new_leaf, split_leaf,
    table_count, table_slot,
};
use std::alloc::Global;
use test_ground::{formatted_heap, play_whole};

// One column `a` of integers.
fn one_column() -> Option<Shape>
    ensures { IfSome result (λ shape. length shape ≡ 1) }
{
    let name = Name::read("a")?;
    let mut columns = ArrayVec::new();
    columns.push(Column {
        name,
        kind: Kind::Int,
    });
    Shape::of(columns)
}

/// A formatted image of so many segments with the table `t a:int`, its heap, and the place of the column's record.
pub fn empty_column(alloc: Global, segments: u32) -> Result<(Plain, Heap, Place), GroundError>
    requires some { 1 ≤ segments }
    requires most { segments ≤ 128 }
    ensures { IfOk result (λ made. IsColumn (device_of made.0) made.1 made.2.0) }
{
    let (mut memory, mut heap) = formatted_heap(alloc, segments)?;
    let mut catalog = rebuild(alloc, &memory)?;
    let at = create(alloc, &mut memory, &mut heap, &mut catalog)?;
    Ok((memory, heap, at))
}

// Creates the first table, and gives the place of its column's record.
fn create<M: Memory>(
    alloc: Global,
    memory: &mut M,
    heap: &mut Heap,
    catalog: &mut Catalog,
) -> Result<Place, GroundError>
    requires settled { IsSettled (M.device memory.old) heap.old }
    ensures { IfOk result (λ at. IsColumn (M.device memory.new) heap.new at.0) }
{
    let (Some(name), Some(shape)) = (Name::read("t"), one_column()) else {
        return Err(GroundError::Unexpected);
    };
    if catalog.count() != 0 || !is_empty_image(memory) {
        return Err(GroundError::Unexpected);
    }
    let mut plan = catalog.plan_create(alloc, memory, heap, 0, &name, &shape)?;
    play_whole(memory, 1, &mut plan);
    catalog.published();
    let at = column(catalog.block(0), 0);
    if !is_empty_column(memory, at) {
        return Err(GroundError::Unexpected);
    }
    Ok(at)
}

// Whether an image has no table, and lane 0 is idle.
fn is_empty_image<M: Memory>(memory: &M) -> bool
    ensures { IsTrue result → IsEmptyImage (M.device memory.now).cached }
{
    memory.load(table_count()) == 0
        && memory.load(table_slot(0)) == 0
        && memory.load(lane_op(0)) == 0
}

// Whether a column of integers has no leaf and no split at work, and lane 0 is idle.
fn is_empty_column<M: Memory>(memory: &M, at: Place) -> bool
    requires { at.0 + 40 ≤ length (M.device memory.now).cached }
    ensures { IsTrue result → IsEmptyColumn (M.device memory.now).cached at.0 }
{
    memory.load(column_kind(at)) == 1
        && memory.load(first_leaf(at)) == 0
        && memory.load(split_leaf(at)) == 0
        && memory.load(new_leaf(at)) == 0
        && memory.load(lane_op(0)) == 0
}
