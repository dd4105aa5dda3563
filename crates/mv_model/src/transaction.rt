// Open transactions, and what they read.
ghost use Rattle.std.specs.Prelude.{◌≡◌, ◌+◌, [], ◌∷◌, ◌++◌, ◌<◌, ◌≤◌, Some, OnOk, OnErr, option_copied, nat_lt, not, ◌==◌};
ghost use Rattle.std.specs.Option.{option_map_or};
ghost use Rattle.std.specs.List.{list_any, find};
ghost use Rattle.mv_model.specs.Next.{with_created, with_ended};
ghost use Rattle.mv_model.specs.View.{is_key_of, created_rows, ends_row, values_left};
ghost use Rattle.mv_model.specs.Answer.{writes_of};

use crate::limits::MAX_WRITES;
use crate::write_set::{CreatedRow, RowKey, WriteSet, ends_any, find_in};
use crate::{NoMemory, Values};
use std::marker::Model;

/// An open transaction.
#[derive(Drop)]
pub(crate) struct Transaction {
    pub(crate) number: u64,
    pub(crate) snapshot: u64,
    pub(crate) writes: WriteSet,
}

impl Model for Transaction {
    ghost use Rattle.mv_model.specs.State.{Transaction as Open};

    ghost Value = { Open };

    ghost view = { λ t. record { number = t.number; snapshot = t.snapshot; writes = t.writes } };
}

impl Transaction {
    pub(crate) fn ends(&self, table: usize, row: u32) -> bool
        ensures { result ≡ list_any (is_key_of table row) self.now.writes.ended }
    {
        self.writes.ends(table, row)
    }

    pub(crate) fn find_created(&self, table: usize, row: u32) -> Option<&CreatedRow>
        ensures { option_copied result ≡ find (λ created. is_key_of table row created.key) self.now.writes.created }
    {
        self.writes.find_created(table, row)
    }

    pub(crate) fn ends_alone(&self, table: usize, row: u32) -> bool
        ensures { result ≡ ends_row (self.now.writes ∷ []) table row }
    {
        self.writes.ends_alone(table, row)
    }

    pub(crate) fn snapshot(&self) -> u64
        ensures { result ≡ self.now.snapshot }
    {
        self.snapshot
    }

    pub(crate) fn put(&mut self, created: CreatedRow, ended: Option<RowKey>) -> Result<(), NoMemory>
        ensures ok { OnOk result (self.new ≡ record self.old {
          writes = with_created created
              (option_map_or (λ key. with_ended key self.old.writes) ended self.old.writes);
        }) }
        ensures err { OnErr result (self.new ≡ self.old) }
    {
        self.writes.put(created, ended)
    }

    pub(crate) fn put_key(&mut self, key: RowKey) -> Result<(), NoMemory>
        ensures ok { OnOk result (self.new ≡ record self.old { writes = with_ended key self.old.writes }) }
        ensures err { OnErr result (self.new ≡ self.old) }
    {
        self.writes.put_key(key)
    }

    pub(crate) fn into_writes(self) -> WriteSet
        ensures { result ≡ self.writes }
    {
        let Transaction {
            number: _,
            snapshot: _,
            writes,
        } = self;
        writes
    }

    /// Whether the transaction has written nothing.
    pub(crate) fn is_read_only(&self) -> bool
        ensures { result ≡ (writes_of self.now.writes == 0) }
    {
        self.writes.count() == 0
    }

    /// Whether so many more writes are too many.
    pub(crate) fn would_exceed(&self, more: usize) -> bool
        requires { more ≤ 2 }
        ensures { result ≡ nat_lt MAX_WRITES (writes_of self.now.writes + more) }
    {
        self.writes.count() > MAX_WRITES - more
    }
}

/// Whether one of these commits or the transaction itself ends the row.
pub(crate) fn is_ended(read: &[WriteSet], own: &Transaction, table: usize, row: u32) -> bool
    ensures { result ≡ ends_row (read.now ++ own.now.writes ∷ []) table row }
{
    ends_any(read, table, row) || own.ends(table, row)
}

/// The row as one of these commits or the transaction itself creates it.
pub(crate) fn find_read<'a>(
    read: &'a [WriteSet],
    own: &'a Transaction,
    table: usize,
    row: u32,
) -> Option<&'a CreatedRow>
    ensures { option_copied result ≡ find (λ created. is_key_of table row created.key) (created_rows (read.now ++
        own.now.writes ∷ [])) }
{
    match find_in(read, table, row) {
        Some(created) => Some(created),
        None => own.find_created(table, row),
    }
}

/// The values of a row that these commits and the transaction itself create and do not end.
pub(crate) fn find_left<'a>(
    read: &'a [WriteSet],
    own: &'a Transaction,
    table: usize,
    row: u32,
) -> Option<&'a Values>
    ensures { option_copied result ≡ values_left (read.now ++ own.now.writes ∷ []) table row }
{
    if is_ended(read, own, table, row) {
        return None;
    }
    match find_read(read, own, table, row) {
        Some(created) => Some(created.values()),
        None => None,
    }
}
