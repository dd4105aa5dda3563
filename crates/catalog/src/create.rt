// Planning the creation of a table.
ghost use Rattle.std.specs.Prelude.{◌≡◌, ◌⊎◌, ℕ, ◌+◌, ◌*◌, ◌<◌, ◌≤◌, ◌++◌, Err, IfOk, IfErr, OnErr, IsNone, IsSome, Some, length};
ghost use Rattle.image_layout.specs.Records.{table_words as words_of_table};
ghost use Rattle.heap_palloc.specs.Calls.{IsFull};
ghost use Rattle.catalog.specs.declared.error.CreateError.TheVariants.{TableExists, TooManyTables};
ghost use Rattle.catalog.specs.Entries.{HasNames, table_named};
ghost use Rattle.catalog.specs.Calls.{MayPlanCreation, IsCreationPlanned, IsRefused, with_planned};

use crate::error::CreateError;
use crate::tables::{Catalog, Table};
use crate::words::push_table;
use heap_palloc::{Heap, plan_allocate};
use mv_model::{Name, Shape};
use pm_model::{Memory, Plan, TABLES, table_count, table_slot, table_words};
use std::alloc::Global;

// No more actions than the allocation of a block of at most two pages has, with the page that is made small first.
const ALLOCATION_ACTIONS: u32 = 23;

// A store, a flush and a fence.
const COUNT_ACTIONS: u32 = 3;

impl Catalog {
    /// Plans the creation of a table: its block is allocated through the lane into the table slot at the count, all
    /// words of the block are stored, and the count is raised.
    ///
    /// The plan may be played by any session, where the words that it writes are clean. Once it was played, `published`
    /// adds the table. After an error the heap and the catalog are as they were.
    pub fn plan_create<M: Memory>(
        &mut self,
        alloc: Global,
        mem: &M,
        heap: &mut Heap,
        lane: u8,
        name: &Name,
        shape: &Shape,
    ) -> Result<Plan, CreateError>
        requires { MayPlanCreation (M.device mem.now).cached heap.old self.old.tables lane }

        ensures planned { IfOk result (λ plan. (first : ℕ)
            × IsCreationPlanned (M.device mem.now).cached heap.old heap.new lane name.now shape.now first plan.left
            × (self.new ≡ with_planned self.old name.now shape.now first)) }

        ensures names { IfOk result (λ _. HasNames name.now shape.now) }
        ensures table_exists { IsSome (table_named self.old.tables name.now) → result ≡ Err TableExists }
        ensures too_many { IsNone (table_named self.old.tables name.now) → length self.old.tables ≡ 32 →
            result ≡ Err TooManyTables }
        ensures full { IfErr result (λ error.
            IsRefused (M.device mem.now).cached self.old.tables name.now (words_of_table (length shape.now)) error) }
        ensures room { IfOk result (λ _. IsFull (M.device mem.now).cached (words_of_table (length shape.now)) → ⊥) }
        ensures heap_unchanged { OnErr result (heap.new ≡ heap.old) }
        ensures unchanged { OnErr result (self.new ≡ self.old) }
    {
        if self.table(name).is_some() {
            return Err(CreateError::TableExists);
        }
        let count = self.count() as u8;
        if count == TABLES {
            return Err(CreateError::TooManyTables);
        }
        let words = table_words(shape.columns().len() as u8);
        let mut plan = Plan::with_room(alloc, ALLOCATION_ACTIONS + 2 * words + 1 + COUNT_ACTIONS)?;
        let shape_kept = shape.copy()?;
        let (allocation, block) = plan_allocate(alloc, mem, heap, lane, words, table_slot(count))?;
        plan.append(allocation);
        push_table(&mut plan, block.first, name, shape);
        // The words of the block are fenced before the count, which publishes the table: else it would show old words.
        plan.push_store(table_count(), u64::from(count) + 1);
        self.plan(Table {
            name: name.copy(),
            shape: shape_kept,
            block: block.first,
        });
        Ok(plan)
    }
}
