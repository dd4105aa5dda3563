ghost use Rattle.std.specs.Prelude.{◌≡◌, ◌+◌, ◌^◌, ◌++◌, ◌<◌, ◌≤◌, Some, IfSome, IfOk, IsTrue, OnOk, OnErr, length, take, drop, option_copied, slice_get, filter, option_to_list, not, ◌==◌, ◌&&◌, option_map};
ghost use Rattle.std.specs.Option.{option_map_or};
ghost use Rattle.mv_model.specs.State.{empty, transaction_of};
ghost use Rattle.mv_model.specs.Name.{same_name};
ghost use Rattle.mv_model.specs.Next.{with_created, with_ended, after_write, with_row_drawn, after_row, after_close, after_commit, after_begin, after_create, after_delete, next};
ghost use Rattle.mv_model.specs.History.{IsSession};
ghost use Rattle.mv_model.specs.View.{seen_values, next_row_of, numbered};
ghost use Rattle.mv_model.specs.Query.{meets, pred_misfit};
ghost use Rattle.mv_model.specs.Answer.{answer, create_reply, may_want_memory, get_reply, scan_reply, count_reply, sum_reply, insert_reply, update_reply, delete_reply, commit_reply, table_named, columns_of, rows_meeting, holds_row, holder_of, later_commit, conflict};
ghost use Rattle.mv_model.specs.declared.reply.Reply.TheVariants as reply;
ghost use Rattle.mv_model.specs.declared.call.Call.TheVariants as call;

use crate::limits::{MAX_COMMITS, MAX_ROWS, MAX_TABLES};
use crate::query::{find_misfit, find_pred_misfit, find_sum_misfit, meets_pred, sum_rows};
use crate::transaction::{Transaction, find_left};
use crate::write_set::{CreatedRow, RowKey, WriteSet, place_of_ending};
use crate::{
    BoxedShape, Call, Column, Holding, ListBuilder, Name, NoMemory, Pred, Reply, RowList, TableRow,
    Values,
};
use std::alloc::{AllocError, Global};
use std::marker::Model;

/// Appends a row that is seen, where it meets the predicate.
fn push_seen(
    list: &mut ListBuilder<TableRow>,
    columns: &[Column],
    pred: &Option<Pred>,
    row: u32,
    values: Option<&Values>,
) -> Result<(), NoMemory>
    requires { 0 < list.old.spare }
    ensures items { OnOk result (list.new.items ≡ list.old.items
        ++ filter (meets columns.now pred.now) (option_to_list (numbered row (option_copied values.entry)))) }
    ensures spare { list.old.spare ≤ list.new.spare + 1 }
{
    if let Some(values) = values {
        let seen = TableRow {
            row,
            values: values.copy()?,
        };
        if meets_pred(columns, pred, &seen) {
            list.push(seen);
        }
    }
    Ok(())
}

/// Where the column of a predicate does not fit, if there is a predicate.
fn misfit_of_pred(columns: &[Column], pred: &Option<Pred>) -> Option<u8>
    requires { length columns.now ≤ 16 }
    ensures { result ≡ pred_misfit columns.now pred.now }
{
    match pred {
        None => None,
        Some(pred) => find_pred_misfit(1, pred, columns),
    }
}

/// A table.
#[derive(Drop)]
struct Table {
    name: Name,
    shape: BoxedShape,
    next_row: u32,
}

impl Model for Table {
    ghost use Rattle.mv_model.specs.State.{Table as Described};

    ghost Value = { Described };

    ghost view = { λ t. record { name = t.name; columns = t.shape; next_row = t.next_row } };
}

impl Table {
    fn is_named(&self, name: &Name) -> bool
        ensures { result ≡ same_name self.now.name name.now }
    {
        self.name == *name
    }

    fn columns(&self) -> &[Column]
        ensures columns { result.now ≡ self.now.columns }
        ensures most { length self.now.columns ≤ 16 }
    {
        self.shape.shape().columns()
    }

    fn next_row(&self) -> u32
        ensures { result ≡ self.now.next_row }
    {
        self.next_row
    }
}

/// A multiversion table store that runs one call at a time.
#[derive(Drop)]
pub struct TableState {
    tables: Vec<Table>,
    commits: Vec<WriteSet>,
    begun: u64,
    running: [Option<Transaction>; 17],
}

impl Model for TableState {
    ghost use Rattle.std.specs.Prelude.{◌≡◌, length};
    ghost use Rattle.mv_model.specs.State.{State};

    ghost Value = { State };

    ghost view = { λ s. record {
      tables = s.tables.items;
      commits = s.commits.items;
      begun = s.begun;
      running = s.running;
    } };

    ghost invariant = { λ s. length s.running ≡ 17 };
}

impl TableState {
    /// The state without tables, commits and transactions.
    pub fn empty(alloc: Global) -> TableState
        ensures { result ≡ empty }
    {
        TableState {
            tables: Vec::new(alloc),
            commits: Vec::new(alloc),
            begun: 0,
            running: [
                None, None, None, None, None, None, None, None, None, None, None, None, None, None,
                None, None, None,
            ],
        }
    }

    fn transaction(&self, session: u8) -> Option<&Transaction>
        requires { session ≤ 16 }
        ensures { option_copied result ≡ transaction_of self.now session }
    {
        self.running[session as usize].as_ref()
    }

    fn table_place(&self, name: &Name) -> Option<usize>
        ensures place { result ≡ table_named self.now name.now }
        ensures there { IfSome result (λ place. place < length self.now.tables) }
    {
        self.tables.iter().position(|table| table.is_named(name))
    }

    fn table(&self, place: usize) -> &Table
        requires { place < length self.now.tables }
        ensures { slice_get self.now.tables place ≡ Some result.now }
    {
        &self.tables[place]
    }

    /// The commits that a transaction with this snapshot reads.
    fn commits_up_to(&self, snapshot: u64) -> &[WriteSet]
        ensures { result.now ≡ take snapshot self.now.commits }
    {
        let count = self.commits.len().min(snapshot as usize);
        &self.commits[..count]
    }

    /// The commits that a transaction with this snapshot does not read.
    fn commits_after(&self, snapshot: u64) -> &[WriteSet]
        ensures items { result.now ≡ drop snapshot self.now.commits }
        ensures within { 0 < length result.now → snapshot + length result.now < 2 ^ 64 }
    {
        let count = self.commits.len().min(snapshot as usize);
        &self.commits[count..]
    }

    /// The values of a row that the transaction sees.
    fn seen<'a>(&'a self, own: &'a Transaction, table: usize, row: u32) -> Option<&'a Values>
        ensures { option_copied result ≡ seen_values self.now own.now table row }
    {
        find_left(self.commits_up_to(own.snapshot()), own, table, row)
    }

    fn columns(&self, table: usize) -> &[Column]
        requires { table < length self.now.tables }
        ensures columns { result.now ≡ columns_of self.now table }
        ensures most { length result.now ≤ 16 }
    {
        self.table(table).columns()
    }

    fn next_row(&self, table: usize) -> u32
        requires { table < length self.now.tables }
        ensures { result ≡ next_row_of self.now table }
    {
        self.table(table).next_row()
    }

    /// The rows that the transaction sees and that meet the predicate.
    fn rows_meeting(
        &self,
        own: &Transaction,
        table: usize,
        pred: &Option<Pred>,
    ) -> Result<RowList, NoMemory>
        requires { table < length self.now.tables }
        ensures { IfOk result (λ rows. rows ≡ rows_meeting self.now own.now table pred.now) }
    {
        let columns = self.columns(table);
        let count = self.next_row(table);
        let mut list = RowList::with_room(*self.tables.allocator(), count)?;
        for row in 0..count {
            push_seen(&mut list, columns, pred, row, self.seen(own, table, row))?;
        }
        Ok(RowList::from(list))
    }

    /// Whether the session's open transaction ends the row.
    fn holds(&self, session: usize, table: usize, row: u32) -> bool
        requires { session < 17 }
        ensures { result ≡ holds_row self.now table row session }
    {
        match &self.running[session] {
            None => false,
            Some(open_now) => open_now.ends_alone(table, row),
        }
    }

    /// How many session numbers there are, from 0 on.
    fn session_count(&self) -> usize
        ensures count { result ≡ length self.now.running }
        ensures known { result ≡ 17 }
    {
        let running: &[Option<Transaction>] = &self.running;
        running.len()
    }

    /// Whether this is another session, and it holds the row.
    fn holds_against(&self, session: u8, other: usize, table: usize, row: u32) -> bool
        requires { other < 17 }
        ensures { result ≡ (not (other == session) && holds_row self.now table row other) }
    {
        other != session as usize && self.holds(other, table, row)
    }

    /// The first other session that holds the row.
    fn holder(&self, session: u8, table: usize, row: u32) -> Option<u8>
        ensures { result ≡ holder_of self.now session table row }
    {
        let sessions = self.session_count();
        for other in 0..sessions {
            if self.holds_against(session, other, table, row) {
                return Some(other as u8);
            }
        }
        None
    }

    /// The first commit after the snapshot that ends the row.
    fn later_commit(&self, own: &Transaction, table: usize, row: u32) -> Option<u64>
        ensures { result ≡ later_commit self.now own.now table row }
    {
        let snapshot = own.snapshot();
        let later = self.commits_after(snapshot);
        match place_of_ending(later, table, row) {
            None => None,
            Some(place) => Some(snapshot + 1 + place as u64),
        }
    }

    /// Who has ended the row already.
    fn conflict(&self, session: u8, own: &Transaction, table: usize, row: u32) -> Option<Holding>
        ensures { option_map reply.Conflict result ≡ conflict self.now session own.now table row }
    {
        match self.holder(session, table, row) {
            Some(other) => Some(Holding::Holder(other)),
            None => match self.later_commit(own, table, row) {
                Some(number) => Some(Holding::Number(number)),
                None => None,
            },
        }
    }

    fn create_reply(&self, name: &Name) -> Reply
        ensures { result ≡ create_reply self.now name.now }
    {
        if self.table_place(name).is_some() {
            return Reply::TableExists;
        }
        if self.tables.len() >= MAX_TABLES {
            return Reply::TooManyTables;
        }
        Reply::Created
    }

    fn begin_reply(&self, session: u8) -> Result<Reply, NoMemory>
        requires { session ≤ 16 }
        ensures due { IfOk result (λ due. due ≡ answer self.now session call.Begin) }
        ensures memory { OnErr result (IsTrue (may_want_memory (answer self.now session call.Begin))) }
    {
        if self.transaction(session).is_some() {
            return Ok(Reply::AlreadyOpen);
        }
        match self.begun.checked_add(1) {
            None => Err(AllocError),
            Some(txn) => Ok(Reply::Began {
                txn,
                snapshot: self.commits.len() as u64,
            }),
        }
    }

    fn get_reply(&self, own: &Transaction, table: usize, row: u32) -> Result<Reply, NoMemory>
        ensures due { IfOk result (λ due. due ≡ get_reply self.now own.now table row) }
        ensures memory { OnErr result (IsTrue (may_want_memory (get_reply self.now own.now table row))) }
    {
        match self.seen(own, table, row) {
            None => Ok(Reply::NoRow),
            Some(values) => Ok(Reply::Values(values.copy()?)),
        }
    }

    fn scan_reply(
        &self,
        own: &Transaction,
        table: usize,
        pred: &Option<Pred>,
    ) -> Result<Reply, NoMemory>
        requires { table < length self.now.tables }
        ensures due { IfOk result (λ due. due ≡ scan_reply self.now own.now table pred.now) }
        ensures memory { OnErr result (IsTrue (may_want_memory (scan_reply self.now own.now table pred.now))) }
    {
        if let Some(column) = misfit_of_pred(self.columns(table), pred) {
            return Ok(Reply::WrongShape { column });
        }
        Ok(Reply::Rows(self.rows_meeting(own, table, pred)?))
    }

    fn count_reply(
        &self,
        own: &Transaction,
        table: usize,
        pred: &Option<Pred>,
    ) -> Result<Reply, NoMemory>
        requires { table < length self.now.tables }
        ensures due { IfOk result (λ due. due ≡ count_reply self.now own.now table pred.now) }
        ensures memory { OnErr result (IsTrue (may_want_memory (count_reply self.now own.now table pred.now))) }
    {
        if let Some(column) = misfit_of_pred(self.columns(table), pred) {
            return Ok(Reply::WrongShape { column });
        }
        Ok(Reply::Count(self.rows_meeting(own, table, pred)?.len()))
    }

    fn sum_reply(
        &self,
        own: &Transaction,
        table: usize,
        column: &Name,
        pred: &Option<Pred>,
    ) -> Result<Reply, NoMemory>
        requires { table < length self.now.tables }
        ensures due { IfOk result (λ due. due ≡ sum_reply self.now own.now table column.now pred.now) }
        ensures memory { OnErr result (
            IsTrue (may_want_memory (sum_reply self.now own.now table column.now pred.now))) }
    {
        let columns = self.columns(table);
        if let Some(column) = find_sum_misfit(1, column, columns) {
            return Ok(Reply::WrongShape { column });
        }
        if let Some(column) = misfit_of_pred(columns, pred) {
            return Ok(Reply::WrongShape { column });
        }
        let rows = self.rows_meeting(own, table, pred)?;
        Ok(Reply::Sum(sum_rows(column, columns, &rows)))
    }

    fn insert_reply(&self, own: &Transaction, table: usize, values: &Values) -> Reply
        requires { table < length self.now.tables }
        ensures { result ≡ insert_reply self.now own.now table values.now }
    {
        if let Some(column) = find_misfit(1, self.columns(table), values.as_slice()) {
            return Reply::WrongShape { column };
        }
        if own.would_exceed(1) {
            return Reply::WriteSetFull;
        }
        let row = self.next_row(table);
        if row >= MAX_ROWS {
            return Reply::TableFull;
        }
        Reply::Row { row }
    }

    fn update_reply(
        &self,
        session: u8,
        own: &Transaction,
        table: usize,
        old: u32,
        values: &Values,
    ) -> Reply
        requires { table < length self.now.tables }
        ensures { result ≡ update_reply self.now session own.now table old values.now }
    {
        if let Some(column) = find_misfit(1, self.columns(table), values.as_slice()) {
            return Reply::WrongShape { column };
        }
        if self.seen(own, table, old).is_none() {
            return Reply::NoRow;
        }
        if own.would_exceed(2) {
            return Reply::WriteSetFull;
        }
        let row = self.next_row(table);
        if row >= MAX_ROWS {
            return Reply::TableFull;
        }
        match self.conflict(session, own, table, old) {
            Some(holding) => Reply::Conflict(holding),
            None => Reply::Row { row },
        }
    }

    fn delete_reply(&self, session: u8, own: &Transaction, table: usize, row: u32) -> Reply
        ensures { result ≡ delete_reply self.now session own.now table row }
    {
        if self.seen(own, table, row).is_none() {
            return Reply::NoRow;
        }
        if own.would_exceed(1) {
            return Reply::WriteSetFull;
        }
        match self.conflict(session, own, table, row) {
            Some(holding) => Reply::Conflict(holding),
            None => Reply::Deleted,
        }
    }

    fn commit_reply(&self, own: &Transaction) -> Reply
        ensures { result ≡ commit_reply self.now own.now }
    {
        if own.is_read_only() {
            return Reply::ReadOnly;
        }
        let commits = self.commits.len() as u64;
        if commits >= MAX_COMMITS {
            return Reply::Spent;
        }
        Reply::Committed {
            number: commits + 1,
        }
    }

    fn get_answer(&self, session: u8, name: &Name, row: u32) -> Result<Reply, NoMemory>
        requires { session ≤ 16 }
        ensures due { IfOk result (λ due. due ≡ answer self.now session (call.Get name.now row)) }
        ensures memory { OnErr result (IsTrue (may_want_memory (answer self.now session (call.Get name.now row)))) }
    {
        let Some(own) = self.transaction(session) else {
            return Ok(Reply::NoTxn);
        };
        let Some(table) = self.table_place(name) else {
            return Ok(Reply::NoTable);
        };
        self.get_reply(own, table, row)
    }

    fn scan_answer(&self, session: u8, name: &Name, pred: &Option<Pred>) -> Result<Reply, NoMemory>
        requires { session ≤ 16 }
        ensures due { IfOk result (λ due. due ≡ answer self.now session (call.Scan name.now pred.now)) }
        ensures memory { OnErr result (
            IsTrue (may_want_memory (answer self.now session (call.Scan name.now pred.now)))) }
    {
        let Some(own) = self.transaction(session) else {
            return Ok(Reply::NoTxn);
        };
        let Some(table) = self.table_place(name) else {
            return Ok(Reply::NoTable);
        };
        self.scan_reply(own, table, pred)
    }

    fn count_answer(&self, session: u8, name: &Name, pred: &Option<Pred>) -> Result<Reply, NoMemory>
        requires { session ≤ 16 }
        ensures due { IfOk result (λ due. due ≡ answer self.now session (call.Count name.now pred.now)) }
        ensures memory { OnErr result (
            IsTrue (may_want_memory (answer self.now session (call.Count name.now pred.now)))) }
    {
        let Some(own) = self.transaction(session) else {
            return Ok(Reply::NoTxn);
        };
        let Some(table) = self.table_place(name) else {
            return Ok(Reply::NoTable);
        };
        self.count_reply(own, table, pred)
    }

    fn sum_answer(
        &self,
        session: u8,
        name: &Name,
        column: &Name,
        pred: &Option<Pred>,
    ) -> Result<Reply, NoMemory>
        requires { session ≤ 16 }
        ensures due { IfOk result (λ due. due ≡ answer self.now session (call.Sum name.now column.now pred.now)) }
        ensures memory { OnErr result (
            IsTrue (may_want_memory (answer self.now session (call.Sum name.now column.now pred.now)))) }
    {
        let Some(own) = self.transaction(session) else {
            return Ok(Reply::NoTxn);
        };
        let Some(table) = self.table_place(name) else {
            return Ok(Reply::NoTable);
        };
        self.sum_reply(own, table, column, pred)
    }

    fn insert_answer(&self, session: u8, name: &Name, values: &Values) -> Reply
        requires { session ≤ 16 }
        ensures { result ≡ answer self.now session (call.Insert name.now values.now) }
    {
        let Some(own) = self.transaction(session) else {
            return Reply::NoTxn;
        };
        let Some(table) = self.table_place(name) else {
            return Reply::NoTable;
        };
        self.insert_reply(own, table, values)
    }

    fn update_answer(&self, session: u8, name: &Name, row: u32, values: &Values) -> Reply
        requires { session ≤ 16 }
        ensures { result ≡ answer self.now session (call.Update name.now row values.now) }
    {
        let Some(own) = self.transaction(session) else {
            return Reply::NoTxn;
        };
        let Some(table) = self.table_place(name) else {
            return Reply::NoTable;
        };
        self.update_reply(session, own, table, row, values)
    }

    fn delete_answer(&self, session: u8, name: &Name, row: u32) -> Reply
        requires { session ≤ 16 }
        ensures { result ≡ answer self.now session (call.Delete name.now row) }
    {
        let Some(own) = self.transaction(session) else {
            return Reply::NoTxn;
        };
        let Some(table) = self.table_place(name) else {
            return Reply::NoTable;
        };
        self.delete_reply(session, own, table, row)
    }

    fn commit_answer(&self, session: u8) -> Reply
        requires { session ≤ 16 }
        ensures { result ≡ answer self.now session call.Commit }
    {
        match self.transaction(session) {
            None => Reply::NoTxn,
            Some(own) => self.commit_reply(own),
        }
    }

    fn abort_answer(&self, session: u8) -> Reply
        requires { session ≤ 16 }
        ensures { result ≡ answer self.now session call.Abort }
    {
        match self.transaction(session) {
            None => Reply::NoTxn,
            Some(_) => Reply::Aborted,
        }
    }

    /// The reply that is due to a call of the session. Memory is wanted only where that reply holds values or is
    /// gathered from rows; no refusal takes any.
    pub fn answer(&self, session: u8, call: &Call) -> Result<Reply, NoMemory>
        requires { IsSession session }
        ensures due { IfOk result (λ due. due ≡ answer self.now session call.now) }
        ensures memory { OnErr result (IsTrue (may_want_memory (answer self.now session call.now))) }
    {
        match call {
            Call::Create { table, shape: _ } => Ok(self.create_reply(table)),
            Call::Begin => self.begin_reply(session),
            Call::Insert { table, values } => Ok(self.insert_answer(session, table, values)),
            Call::Get { table, row } => self.get_answer(session, table, *row),
            Call::Update { table, row, values } => {
                Ok(self.update_answer(session, table, *row, values))
            }
            Call::Delete { table, row } => Ok(self.delete_answer(session, table, *row)),
            Call::Scan { table, pred } => self.scan_answer(session, table, pred),
            Call::Count { table, pred } => self.count_answer(session, table, pred),
            Call::Sum {
                table,
                column,
                pred,
            } => self.sum_answer(session, table, column, pred),
            Call::Commit => Ok(self.commit_answer(session)),
            Call::Abort => Ok(self.abort_answer(session)),
            Call::Defrag { pages } => Ok(Reply::GaveBack { pages: *pages }),
        }
    }

    fn create(&mut self, name: &Name, shape: &BoxedShape) -> Result<(), NoMemory>
        ensures ok { OnOk result (self.new ≡ after_create self.old name.now shape.now) }
        ensures err { OnErr result (self.new ≡ self.old) }
    {
        let table = Table {
            name: name.copy(),
            shape: shape.copy()?,
            next_row: 0,
        };
        self.tables.push(table)?;
        Ok(())
    }

    fn begin(&mut self, session: u8, number: u64, snapshot: u64) -> Result<(), NoMemory>
        requires { session ≤ 16 }
        ensures ok { OnOk result (self.new ≡ after_begin self.old session number snapshot) }
        ensures err { OnErr result (self.new ≡ self.old) }
    {
        let alloc = *self.tables.allocator();
        let Some(begun) = self.begun.checked_add(1) else {
            return Err(AllocError);
        };
        self.begun = begun;
        self.running[session as usize] = Some(Transaction {
            number,
            snapshot,
            writes: WriteSet {
                created: Vec::new(alloc),
                ended: Vec::new(alloc),
            },
        });
        Ok(())
    }

    fn close(&mut self, session: u8)
        requires { session ≤ 16 }
        ensures { self.new ≡ after_close self.old session }
    {
        self.running[session as usize] = None;
    }

    fn commit(&mut self, session: u8) -> Result<(), NoMemory>
        requires { session ≤ 16 }
        ensures ok { OnOk result (self.new ≡ after_commit self.old session) }
        ensures err { OnErr result (self.new ≡ self.old) }
    {
        self.commits.reserve(1)?;
        match self.running[session as usize].take() {
            None => {}
            Some(own) => self.commits.push_reserved(own.into_writes()),
        }
        Ok(())
    }

    fn put_row(
        &mut self,
        session: u8,
        created: CreatedRow,
        ended: Option<RowKey>,
    ) -> Result<(), NoMemory>
        requires { session ≤ 16 }
        ensures ok { OnOk result (self.new ≡ after_write self.old session
            (λ writes. with_created created (option_map_or (λ key. with_ended key writes) ended writes))) }
        ensures err { OnErr result (self.new ≡ self.old) }
    {
        match &mut self.running[session as usize] {
            None => Ok(()),
            Some(own) => own.put(created, ended),
        }
    }

    fn put_key(&mut self, session: u8, key: RowKey) -> Result<(), NoMemory>
        requires { session ≤ 16 }
        ensures ok { OnOk result (self.new ≡ after_write self.old session (with_ended key)) }
        ensures err { OnErr result (self.new ≡ self.old) }
    {
        match &mut self.running[session as usize] {
            None => Ok(()),
            Some(own) => own.put_key(key),
        }
    }

    fn set_next_row(&mut self, table: usize, next: u32)
        requires there { table < length self.old.tables }
        requires next { next ≡ next_row_of self.old table + 1 }
        ensures { self.new ≡ with_row_drawn self.old table }
    {
        let found = &mut self.tables[table];
        found.next_row = next;
    }

    fn insert_row(
        &mut self,
        session: u8,
        name: &Name,
        row: u32,
        values: &Values,
    ) -> Result<(), NoMemory>
        requires { session ≤ 16 }
        ensures ok { OnOk result (self.new ≡ after_row self.old session name.now row values.now None) }
        ensures err { OnErr result (self.new ≡ self.old) }
    {
        let Some(table) = self.table_place(name) else {
            return Ok(());
        };
        let Some(next) = self.next_row(table).checked_add(1) else {
            return Err(AllocError);
        };
        let created = CreatedRow {
            key: RowKey { table, row },
            values: values.copy()?,
        };
        self.put_row(session, created, None)?;
        self.set_next_row(table, next);
        Ok(())
    }

    fn update_row(
        &mut self,
        session: u8,
        name: &Name,
        old: u32,
        row: u32,
        values: &Values,
    ) -> Result<(), NoMemory>
        requires { session ≤ 16 }
        ensures ok { OnOk result (self.new ≡ after_row self.old session name.now row values.now (Some old)) }
        ensures err { OnErr result (self.new ≡ self.old) }
    {
        let Some(table) = self.table_place(name) else {
            return Ok(());
        };
        let Some(next) = self.next_row(table).checked_add(1) else {
            return Err(AllocError);
        };
        let created = CreatedRow {
            key: RowKey { table, row },
            values: values.copy()?,
        };
        self.put_row(session, created, Some(RowKey { table, row: old }))?;
        self.set_next_row(table, next);
        Ok(())
    }

    fn delete_row(&mut self, session: u8, name: &Name, row: u32) -> Result<(), NoMemory>
        requires { session ≤ 16 }
        ensures ok { OnOk result (self.new ≡ after_delete self.old session name.now row) }
        ensures err { OnErr result (self.new ≡ self.old) }
    {
        match self.table_place(name) {
            None => Ok(()),
            Some(table) => self.put_key(session, RowKey { table, row }),
        }
    }

    /// Goes on to the state after the reply to a call of the session.
    pub fn next(&mut self, session: u8, call: &Call, reply: &Reply) -> Result<(), NoMemory>
        requires { IsSession session }
        ensures ok { OnOk result (self.new ≡ next self.old session call.now reply.now) }
        ensures err { OnErr result (self.new ≡ self.old) }
    {
        match (call, reply) {
            (Call::Create { table, shape }, Reply::Created) => self.create(table, shape),
            (Call::Begin, Reply::Began { txn, snapshot }) => self.begin(session, *txn, *snapshot),
            (Call::Insert { table, values }, Reply::Row { row }) => {
                self.insert_row(session, table, *row, values)
            }
            (
                Call::Update {
                    table,
                    row: old,
                    values,
                },
                Reply::Row { row },
            ) => self.update_row(session, table, *old, *row, values),
            (Call::Delete { table, row }, Reply::Deleted) => self.delete_row(session, table, *row),
            (Call::Commit, Reply::Committed { number: _ }) => self.commit(session),
            (Call::Commit, Reply::ReadOnly) | (Call::Abort, Reply::Aborted) => {
                self.close(session);
                Ok(())
            }
            _ => Ok(()),
        }
    }
}
