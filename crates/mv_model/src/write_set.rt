// Write sets: the rows that a transaction creates and those that it ends.
ghost use Rattle.std.specs.Prelude.{◌≡◌, ◌+◌, [], ◌∷◌, ◌<◌, ◌≤◌, Some, IfSome, OnOk, OnErr, length, option_copied, unwrap_or, vec_len, vec_capacity, ◌==◌, ◌&&◌};
ghost use Rattle.std.specs.Option.{option_map_or};
ghost use Rattle.std.specs.List.{list_any, find, position_from};
ghost use Rattle.mv_model.specs.Next.{is_before, put_in_order, with_created, with_ended};
ghost use Rattle.mv_model.specs.View.{is_key_of, created_rows, ends_row};
ghost use Rattle.mv_model.specs.Answer.{writes_of};

use crate::{NoMemory, Values};
use std::marker::Model;

/// Which row: the place of its table among the tables, and its number in that table.
#[derive(Clone, Copy)]
pub(crate) struct RowKey {
    pub(crate) table: usize,
    pub(crate) row: u32,
}

impl Model for RowKey {
    ghost use Rattle.mv_model.specs.State.{RowKey as Key};

    ghost Value = { Key };

    ghost view = { λ k. record { table = k.table; row = k.row } };

    ghost inverse = { λ k. record { table = k.table; row = k.row } };
}

impl RowKey {
    pub(crate) fn is_of(&self, table: usize, row: u32) -> bool
        ensures { result ≡ is_key_of table row self.now }
    {
        self.table == table && self.row == row
    }
}

impl RowKey {
    /// Whether this row comes before the other: by the table, and then by the number.
    pub(crate) fn is_before(&self, other: &RowKey) -> bool
        ensures { result ≡ is_before self.now other.now }
    {
        self.table < other.table || self.table == other.table && self.row < other.row
    }
}

/// A row with the values with which it was created.
#[derive(Drop)]
pub(crate) struct CreatedRow {
    pub(crate) key: RowKey,
    pub(crate) values: Values,
}

impl Model for CreatedRow {
    ghost use Rattle.mv_model.specs.State.{CreatedRow as Created};

    ghost Value = { Created };

    ghost view = { λ c. record { key = c.key; values = c.values } };
}

impl CreatedRow {
    pub(crate) fn is_of(&self, table: usize, row: u32) -> bool
        ensures { result ≡ is_key_of table row self.now.key }
    {
        self.key.is_of(table, row)
    }

    pub(crate) fn is_before(&self, other: &CreatedRow) -> bool
        ensures { result ≡ is_before self.now.key other.now.key }
    {
        self.key.is_before(&other.key)
    }

    pub(crate) fn values(&self) -> &Values
        ensures { result.now ≡ self.now.values }
    {
        &self.values
    }
}

/// What a transaction writes.
#[derive(Drop)]
pub(crate) struct WriteSet {
    pub(crate) created: Vec<CreatedRow>,
    pub(crate) ended: Vec<RowKey>,
}

impl Model for WriteSet {
    ghost use Rattle.mv_model.specs.State.{WriteSet as Writes};

    ghost Value = { Writes };

    ghost view = { λ w. record { created = w.created.items; ended = w.ended.items } };
}

impl WriteSet {
    pub(crate) fn ends(&self, table: usize, row: u32) -> bool
        ensures { result ≡ list_any (is_key_of table row) self.now.ended }
    {
        self.ended.iter().any(|key| key.is_of(table, row))
    }

    /// The same, where the write set stands alone in a list.
    #[tactic(auto, using(crate::proofs::Grind::row_steps))]
    pub(crate) fn ends_alone(&self, table: usize, row: u32) -> bool
        ensures { result ≡ ends_row (self.now ∷ []) table row }
    {
        self.ends(table, row)
    }

    pub(crate) fn find_created(&self, table: usize, row: u32) -> Option<&CreatedRow>
        ensures { option_copied result ≡ find (λ created. is_key_of table row created.key) self.now.created }
    {
        self.created
            .iter()
            .find(|created| created.is_of(table, row))
    }

    /// Adds a created row, and an ended one if there is one.
    pub(crate) fn put(&mut self, created: CreatedRow, ended: Option<RowKey>) -> Result<(), NoMemory>
        ensures ok { OnOk result (self.new ≡ with_created created
            (option_map_or (λ key. with_ended key self.old) ended self.old)) }
        ensures err { OnErr result (self.new ≡ self.old) }
    {
        self.created.reserve(1)?;
        self.ended.reserve(1)?;
        if let Some(key) = ended {
            put_ended(&mut self.ended, key);
        }
        put_created(&mut self.created, created);
        Ok(())
    }

    /// Adds an ended row.
    pub(crate) fn put_key(&mut self, key: RowKey) -> Result<(), NoMemory>
        ensures ok { OnOk result (self.new ≡ with_ended key self.old) }
        ensures err { OnErr result (self.new ≡ self.old) }
    {
        self.ended.reserve(1)?;
        put_ended(&mut self.ended, key);
        Ok(())
    }

    /// How many rows are created and ended.
    pub(crate) fn count(&self) -> usize
        ensures { result ≡ writes_of self.now }
    {
        self.created.len() + self.ended.len()
    }
}

/// The first key that comes after this one.
pub(crate) fn later_key(keys: &[RowKey], key: &RowKey) -> Option<usize>
    ensures place { result ≡ position_from (is_before key.now) 0 keys.now }
    ensures within { IfSome result (λ place. place < length keys.now) }
{
    keys.iter().position(|other| key.is_before(other))
}

/// Where a key goes among keys in order.
pub(crate) fn place_of_key(keys: &[RowKey], key: &RowKey) -> usize
    ensures place { result ≡ unwrap_or (position_from (is_before key.now) 0 keys.now) (length keys.now) }
    ensures within { result ≤ length keys.now }
{
    match later_key(keys, key) {
        Some(place) => place,
        None => keys.len(),
    }
}

/// The first created row that comes after this one.
pub(crate) fn later_row(rows: &[CreatedRow], row: &CreatedRow) -> Option<usize>
    ensures place { result ≡ position_from (λ other. is_before row.now.key other.key) 0 rows.now }
    ensures within { IfSome result (λ place. place < length rows.now) }
{
    rows.iter().position(|other| row.is_before(other))
}

/// Where a created row goes among rows in order.
pub(crate) fn place_of_row(rows: &[CreatedRow], row: &CreatedRow) -> usize
    ensures place { result ≡ unwrap_or (position_from (λ other. is_before row.now.key other.key) 0 rows.now)
        (length rows.now) }
    ensures within { result ≤ length rows.now }
{
    match later_row(rows, row) {
        Some(place) => place,
        None => rows.len(),
    }
}

/// Puts a key in its place, where there is room.
#[tactic(auto, using(crate::proofs::Grind::row_steps))]
pub(crate) fn put_ended(keys: &mut Vec<RowKey>, key: RowKey)
    requires { vec_len keys.old < vec_capacity keys.old }
    ensures items { keys.new.items ≡ put_in_order (is_before key) key keys.old.items }
    ensures capacity { vec_capacity keys.old ≤ vec_capacity keys.new }
{
    let place = place_of_key(keys, &key);
    let _ = keys.insert(place, key);
}

/// Puts a created row in its place, where there is room.
#[tactic(auto, using(crate::proofs::Grind::row_steps))]
pub(crate) fn put_created(rows: &mut Vec<CreatedRow>, row: CreatedRow)
    requires { vec_len rows.old < vec_capacity rows.old }
    ensures items { rows.new.items ≡ put_in_order (λ other. is_before row.key other.key) row rows.old.items }
    ensures capacity { vec_capacity rows.old ≤ vec_capacity rows.new }
{
    let place = place_of_row(rows, &row);
    let _ = rows.insert(place, row);
}

pub(crate) fn ends_any(sets: &[WriteSet], table: usize, row: u32) -> bool
    ensures { result ≡ list_any (λ writes. list_any (is_key_of table row) writes.ended) sets.now }
{
    sets.iter().any(|writes| writes.ends(table, row))
}

#[tactic(auto, using(crate::proofs::Grind::row_steps))]
pub(crate) fn find_in(sets: &[WriteSet], table: usize, row: u32) -> Option<&CreatedRow>
    ensures { option_copied result ≡ find (λ created. is_key_of table row created.key) (created_rows sets.now) }
{
    for writes in sets {
        if let Some(created) = writes.find_created(table, row) {
            return Some(created);
        }
    }
    None
}

/// The place of the first commit that ends the row.
pub(crate) fn place_of_ending(commits: &[WriteSet], table: usize, row: u32) -> Option<usize>
    ensures place { result ≡ position_from (λ writes. ends_row (writes ∷ []) table row) 0 commits.now }
    ensures within { IfSome result (λ place. place < length commits.now) }
{
    commits
        .iter()
        .position(|writes| writes.ends_alone(table, row))
}
