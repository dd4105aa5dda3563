// The first transaction object: its begin and its extensions.
ghost use Rattle.std.specs.Prelude.{IfOk};
ghost use Rattle.txn_object.specs.TestObject.{IsExtendable};

use crate::playing::play_whole;
use heap_palloc::Heap;
use pm_model::{Memory, NoMemory};
use std::alloc::Global;
use txn_object::{ExtendError, plan_begin, plan_extend};

/// Plays the begin of session 1's transaction. The heap is that of the memory.
pub fn begin<M: Memory>(alloc: Global, memory: &mut M, _heap: &Heap) -> Result<(), NoMemory>
    requires { IsExtendable (M.device memory.old) _heap.now }
    ensures { IfOk result (λ _. IsExtendable (M.device memory.new) _heap.now) }
{
    let mut plan = plan_begin(alloc, 1)?;
    play_whole(memory, 1, &mut plan);
    Ok(())
}

/// Extends the object of session 1 by a segment, and gives how many actions the plan has.
pub fn extend<M: Memory>(alloc: Global, memory: &mut M, heap: &mut Heap) -> Result<u32, ExtendError>
    requires { IsExtendable (M.device memory.old) heap.old }
    ensures { IsExtendable (M.device memory.new) heap.new }
{
    let mut plan = plan_extend(alloc, memory, heap, 1)?;
    Ok(play_whole(memory, 1, &mut plan))
}
