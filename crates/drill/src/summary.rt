ghost use Rattle.std.specs.Prelude.{◌≡◌, ◌<◌, ◌^◌, ◌++◌, length, IfOk, OnOk, string_bytes};
ghost use Rattle.drill.specs.Summary.{count_of, cuts_in, ended, heading_line, is_counted, is_cut_turn, rows_left, rows_line, summary_of, summary_text, transactions_line, turns_line};

use mv_model::{Entry, NoMemory, Reply};
use std::alloc::Global;

/// The replies that a summary counts.
#[derive(Clone, Copy, Debug)]
pub enum Counted {
    Began,
    Committed,
    ReadOnly,
    Aborted,
    Conflict,
}

/// What a run came to.
#[derive(Clone, Copy, Debug)]
pub struct Summary {
    /// The number that the run stands for.
    pub number: u64,
    /// The statements of its script, without the creation of the table.
    pub statements: u32,
    /// The replies of each kind.
    pub began: u32,
    pub committed: u32,
    pub read_only: u32,
    pub aborted: u32,
    pub conflicts: u32,
    /// The rows that a new transaction sees at the end.
    pub rows: u32,
    pub turns: u64,
    pub cuts: u64,
}

/// Whether the reply is one of those that are counted.
fn is_counted(kind: Counted, reply: &Reply) -> bool
    ensures { result ≡ is_counted kind reply.now }
{
    match (kind, reply) {
        (Counted::Began, Reply::Began { .. }) => true,
        (Counted::Committed, Reply::Committed { .. }) => true,
        (Counted::ReadOnly, Reply::ReadOnly) => true,
        (Counted::Aborted, Reply::Aborted) => true,
        (Counted::Conflict, Reply::Conflict(_)) => true,
        _ => false,
    }
}

/// How many entries of a history have such a reply.
pub fn count_replies(kind: Counted, history: &[Entry]) -> u32
    requires { length history.now < 2 ^ 32 }
    ensures { result ≡ count_of kind history.now }
{
    history
        .iter()
        .filter(|entry| is_counted(kind, &entry.reply))
        .count() as u32
}

/// Whether a cut is tried after the turn, counted from 0.
pub fn is_cut_turn(turn: u64) -> bool
    ensures { result ≡ is_cut_turn turn }
{
    turn > 0 && turn % 1_024 == 0
}

/// How many cuts are tried in so many turns.
fn cuts_in(turns: u64) -> u64
    ensures { result ≡ cuts_in turns }
{
    turns.saturating_sub(1) / 1_024
}

/// What the run of a number came to, by its history from an empty store on, the rows that a new transaction sees at its
/// end, and how many turns it had.
pub fn summary_of(number: u64, statements: u32, history: &[Entry], rows: u32, turns: u64) -> Summary
    requires fits { length history.now < 2 ^ 32 }
    requires rows { rows ≡ rows_left history.now }
    ensures { result ≡ summary_of number statements history.now turns }
{
    Summary {
        number,
        statements,
        began: count_replies(Counted::Began, history),
        committed: count_replies(Counted::Committed, history),
        read_only: count_replies(Counted::ReadOnly, history),
        aborted: count_replies(Counted::Aborted, history),
        conflicts: count_replies(Counted::Conflict, history),
        rows,
        turns,
        cuts: cuts_in(turns),
    }
}

fn heading_line(alloc: Global, number: u64, statements: u32) -> Result<String, NoMemory>
    ensures { IfOk result (λ text. string_bytes text ≡ heading_line number statements) }
{
    format!(in alloc; "drill {number} {statements}")
}

fn transactions_line(
    alloc: Global,
    began: u32,
    committed: u32,
    read_only: u32,
    aborted: u32,
) -> Result<String, NoMemory>
    ensures { IfOk result (λ text. string_bytes text ≡ transactions_line began committed read_only aborted) }
{
    format!(in alloc; "began {began} committed {committed} readonly {read_only} aborted {aborted}")
}

fn rows_line(alloc: Global, conflicts: u32, rows: u32) -> Result<String, NoMemory>
    ensures { IfOk result (λ text. string_bytes text ≡ rows_line conflicts rows) }
{
    format!(in alloc; "conflicts {conflicts} rows {rows}")
}

fn turns_line(alloc: Global, turns: u64, cuts: u64) -> Result<String, NoMemory>
    ensures { IfOk result (λ text. string_bytes text ≡ turns_line turns cuts) }
{
    format!(in alloc; "turns {turns} cuts {cuts}")
}

/// Appends the line and a line feed.
fn push_line(to: &mut String, line: String) -> Result<(), NoMemory>
    ensures { OnOk result (string_bytes to.new ≡ string_bytes to.old ++ ended (string_bytes line)) }
{
    to.push_str(line.as_str())?;
    to.push_str("\n")
}

/// The four lines of a summary, each with a line feed behind it.
pub fn summary_text(alloc: Global, summary: &Summary) -> Result<String, NoMemory>
    ensures { IfOk result (λ text. string_bytes text ≡ summary_text summary.now) }
{
    let run = *summary;
    let mut text = String::new(alloc);
    push_line(&mut text, heading_line(alloc, run.number, run.statements)?)?;
    let line = transactions_line(alloc, run.began, run.committed, run.read_only, run.aborted)?;
    push_line(&mut text, line)?;
    push_line(&mut text, rows_line(alloc, run.conflicts, run.rows)?)?;
    push_line(&mut text, turns_line(alloc, run.turns, run.cuts)?)?;
    Ok(text)
}
