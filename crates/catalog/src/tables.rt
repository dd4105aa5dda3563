// The published tables, in memory.
ghost use Rattle.std.specs.Prelude.{◌≡◌, ◌+◌, ◌<◌, ◌≤◌, ◌++◌, [], ◌∷◌, Some, None, IsNone, IfSome, IfOk, IsSome, length, option_map, slice_get};
ghost use Rattle.mv_model.specs.Name.{same_name};
ghost use Rattle.catalog.specs.Entries.{CatalogTable, table_named};

use mv_model::{Name, Shape};
use pm_model::{NoMemory, Place, TABLES};
use std::alloc::Global;
use std::marker::Model;

// A table: its name, its columns, and the place of its block.
#[derive(Debug, Drop)]
pub(crate) struct Table {
    pub(crate) name: Name,
    pub(crate) shape: Shape,
    pub(crate) block: Place,
}

impl Model for Table {
    ghost use Rattle.catalog.specs.Entries.{CatalogTable};

    ghost Value = { CatalogTable };

    ghost view = { λ t. record { name = t.name; columns = t.shape; block = t.block.0 } };
}

impl Table {
    fn is_named(&self, name: &Name) -> bool
        ensures { result ≡ same_name self.now.name name.now }
    {
        self.name == *name
    }
}

/// The published tables of a memory, by their numbers, and the one whose creation was planned last.
#[derive(Debug, Drop)]
pub struct Catalog {
    // With room for every table.
    tables: Vec<Table>,
    planned: Option<Table>,
}

impl Model for Catalog {
    ghost use Rattle.std.specs.Prelude.{◌≤◌, vec_len, vec_capacity};
    ghost use Rattle.catalog.specs.Entries.{CatalogState};

    ghost Value = { CatalogState };

    ghost view = { λ c. record { tables = c.tables.items; planned = c.planned } };

    ghost invariant = { λ c. (32 ≤ vec_capacity c.tables) × (vec_len c.tables ≤ 32) };
}

impl Catalog {
    /// A catalog without tables.
    pub(crate) fn without_tables(alloc: Global) -> Result<Catalog, NoMemory>
        ensures tables { IfOk result (λ catalog. catalog.tables ≡ []) }
        ensures planned { IfOk result (λ catalog. catalog.planned ≡ None) }
    {
        Ok(Catalog {
            tables: Vec::with_capacity(alloc, TABLES as usize)?,
            planned: None,
        })
    }

    /// Adds a table at the end. It takes no memory.
    pub(crate) fn add(&mut self, table: Table)
        requires { length self.old.tables < 32 }
        ensures tables { self.new.tables ≡ self.old.tables ++ table ∷ [] }
        ensures planned { self.new.planned ≡ self.old.planned }
    {
        self.tables.push_reserved(table);
    }

    /// Keeps the table whose creation is planned.
    pub(crate) fn plan(&mut self, table: Table)
        ensures tables { self.new.tables ≡ self.old.tables }
        ensures planned { self.new.planned ≡ Some table }
    {
        self.planned = Some(table);
    }

    /// How many tables are published.
    pub fn count(&self) -> u32
        ensures count { result ≡ length self.now.tables }
        ensures most { result ≤ 32 }
    {
        self.tables.len() as u32
    }

    /// The number of the table with a name. `None` exactly where no published table has it.
    pub fn table(&self, name: &Name) -> Option<u32>
        ensures number { result ≡ table_named self.now.tables name.now }
        ensures there { IfSome result (λ number. number < length self.now.tables) }
    {
        match self.place_of(name) {
            Some(place) => Some(place as u32),
            None => None,
        }
    }

    fn place_of(&self, name: &Name) -> Option<usize>
        ensures place { result ≡ table_named self.now.tables name.now }
        ensures there { IfSome result (λ place. place < length self.now.tables) }
        ensures few { length self.now.tables ≤ 32 }
    {
        self.tables.iter().position(|table| table.is_named(name))
    }

    /// The columns of a table.
    pub fn shape(&self, table: u32) -> &Shape
        requires { table < length self.now.tables }
        ensures { option_map (λ found. found.columns) (slice_get self.now.tables table) ≡ Some result.now }
    {
        &self.tables[table as usize].shape
    }

    /// The place of a table's block.
    pub fn block(&self, table: u32) -> Place
        requires { table < length self.now.tables }
        ensures { option_map (λ found. found.block) (slice_get self.now.tables table) ≡ Some result.0 }
    {
        self.tables[table as usize].block
    }

    /// Adds the table whose creation was planned last: its plan was played, and the memory has the table. It takes no
    /// memory.
    pub fn published(&mut self)
        requires planned { IsSome self.old.planned }
        requires room { length self.old.tables < 32 }
        ensures tables { IfSome self.old.planned (λ table. self.new.tables ≡ self.old.tables ++ table ∷ []) }
        ensures planned { self.new.planned ≡ None }
    {
        if let Some(table) = self.planned.take() {
            self.tables.push_reserved(table);
        }
    }
}
