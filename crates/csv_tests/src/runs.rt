use drill::{
    Counted, Move, Standing, Summary, count_replies, is_cut_turn, move_at, pick, script_of,
    summary_of, summary_text,
};
use mv_model::{Call, Entry, NoMemory, Pred, Reply, Test, Value, Values};
use script_text::{Line, Script};
use std::alloc::Global;
use std::test::Fail;

/// What `examples/drill_script 7 50` prints.
const LINES: [&str; 51] = [
    "s1 create t a:int b:text",
    "s4 begin",
    "s3 begin",
    "s1 begin",
    "s3 sum t a",
    "s4 commit",
    "s3 insert t 95 \"w29\"",
    "s3 insert t 44 \"w43\"",
    "s3 update t 108 33 \"w14\"",
    "s3 count t",
    "s1 abort",
    "s3 insert t 136 \"w39\"",
    "s4 begin",
    "s4 update t 12 44 \"w48\"",
    "s2 begin",
    "s2 delete t 231",
    "s3 update t 165 67 \"w42\"",
    "s4 delete t 2",
    "s3 insert t 108 \"w3\"",
    "s2 insert t 76 \"w5\"",
    "s2 get t 145",
    "s4 insert t 81 \"w28\"",
    "s3 update t 39 143 \"w0\"",
    "s4 scan t where a in 100 109",
    "s3 insert t 36 \"w37\"",
    "s4 insert t 180 \"w43\"",
    "s3 delete t 201",
    "s3 insert t 102 \"w34\"",
    "s3 commit",
    "s4 update t 268 1 \"w5\"",
    "s2 insert t 124 \"w11\"",
    "s1 begin",
    "s1 update t 131 122 \"w40\"",
    "s1 abort",
    "s4 get t 38",
    "s1 begin",
    "s2 count t",
    "s2 abort",
    "s2 begin",
    "s4 update t 10 196 \"w25\"",
    "s2 insert t 155 \"w16\"",
    "s3 begin",
    "s2 insert t 160 \"w9\"",
    "s1 abort",
    "s3 insert t 27 \"w24\"",
    "s4 insert t 196 \"w41\"",
    "s4 delete t 247",
    "s2 insert t 159 \"w46\"",
    "s1 begin",
    "s2 insert t 180 \"w23\"",
    "s1 insert t 166 \"w46\"",
];

fn row(alloc: Global, values: &Values) -> Result<String, NoMemory> {
    match values.as_slice() {
        [Value::Int(number), Value::Text(text)] => format!(in alloc;
            "{number} \"{}\"",
            text.as_str()
        ),
        _ => format!(in alloc; "?"),
    }
}

fn bounds(alloc: Global, pred: &Option<Pred>) -> Result<String, NoMemory> {
    match pred {
        Some(
            Pred {
                column,
                test: Test::Between(Value::Int(low), Value::Int(high)),
            },
        ) => { format!(in alloc; "where {} in {low} {high}", column.as_str()) }
        _ => format!(in alloc; "?"),
    }
}

/// The call as scripts write it.
fn words(alloc: Global, call: &Call) -> Result<String, NoMemory> {
    match call {
        Call::Create { table, .. } => format!(in alloc; "create {} a:int b:text", table.as_str()),
        Call::Begin => format!(in alloc; "begin"),
        Call::Insert { table, values } => {
            let row = row(alloc, values)?;
            format!(in alloc; "insert {} {}", table.as_str(), row.as_str())
        }
        Call::Get { table, row } => format!(in alloc; "get {} {row}", table.as_str()),
        Call::Update {
            table,
            row: number,
            values,
        } => {
            let row = row(alloc, values)?;
            format!(in alloc; "update {} {number} {}", table.as_str(), row.as_str())
        }
        Call::Delete { table, row } => format!(in alloc; "delete {} {row}", table.as_str()),
        Call::Scan { table, pred } => {
            let bounds = bounds(alloc, pred)?;
            format!(in alloc; "scan {} {}", table.as_str(), bounds.as_str())
        }
        Call::Count { table, pred: None } => format!(in alloc; "count {}", table.as_str()),
        Call::Sum {
            table,
            column,
            pred: None,
        } => { format!(in alloc; "sum {} {}", table.as_str(), column.as_str()) }
        Call::Commit => format!(in alloc; "commit"),
        Call::Abort => format!(in alloc; "abort"),
        _ => format!(in alloc; "?"),
    }
}

/// Whether the line is written so. Its ordinal isn't written: that each line has the one behind its session's last is
/// the law `statements_follow`.
fn is_written(alloc: Global, line: &Line, said: &str) -> Result<bool, NoMemory> {
    match line {
        Line::Say { session, call, .. } => {
            let words = words(alloc, call)?;
            let text = format!(in alloc; "s{session} {}", words.as_str())?;
            Ok(text.as_str() == said)
        }
        Line::Await { .. } => Ok(false),
    }
}

/// Whether the lines of the script are those of the table, as far as both go.
fn agrees(alloc: Global, script: &Script) -> Result<bool, NoMemory> {
    for (line, said) in script.as_slice().iter().zip(LINES.iter()) {
        if !is_written(alloc, line, said)? {
            return Ok(false);
        }
    }
    Ok(true)
}

#[test]
fn script_of_seven(rt: HostRuntime) -> Result<(), Fail> {
    let script = script_of(rt.alloc(), 7, 50)?;
    assert_eq!(rt; script.len(), 51);
    assert!(rt; agrees(rt.alloc(), &script)?);
    Ok(())
}

/// What `examples/drill_script 7 --picks 10` prints.
#[test]
fn picks_of_seven(rt: HostRuntime) {
    for (turn, session) in [
        (0, 3),
        (1, 1),
        (2, 2),
        (3, 3),
        (4, 3),
        (5, 2),
        (6, 2),
        (7, 1),
        (8, 4),
        (9, 2),
    ] {
        assert_eq!(rt; pick(7, turn), session);
    }
}

/// Turn 0 of 7 picks session 3.
#[test]
fn moves(rt: HostRuntime) {
    let (done, ready, running) = (Standing::Done, Standing::Ready, Standing::Running);
    for (sessions, due) in [
        ([ready, ready, ready, ready], Move::Start { session: 3 }),
        ([ready, ready, done, done], Move::Start { session: 1 }),
        ([done, running, done, done], Move::Step { session: 2 }),
        (
            [running, ready, Standing::Blocked { holder: 1 }, ready],
            Move::Step { session: 1 },
        ),
        (
            [
                Standing::Blocked { holder: 4 },
                ready,
                Standing::Blocked { holder: 1 },
                running,
            ],
            Move::Step { session: 4 },
        ),
        (
            [
                Standing::Blocked { holder: 3 },
                ready,
                Standing::Blocked { holder: 1 },
                ready,
            ],
            Move::Stuck,
        ),
        ([done, done, done, done], Move::Over),
    ] {
        assert_eq!(rt; move_at(7, 0, &sessions), due);
    }
}

#[test]
fn turns_with_a_cut(rt: HostRuntime) {
    for (turn, cut) in [
        (0, false),
        (1, false),
        (1_023, false),
        (1_024, true),
        (1_025, false),
        (2_048, true),
        (3_000, false),
        (1_048_576, true),
    ] {
        assert_eq!(rt; is_cut_turn(turn), cut);
    }
}

/// How many cuts the summary of a run with no statement tells.
fn cuts(turns: u64) -> u64 {
    let history: [Entry; 0] = [];
    summary_of(7, 1, history.as_slice(), 0, turns).cuts
}

/// Turn 1,024 is the 1,025th.
#[test]
fn cuts_of_a_run(rt: HostRuntime) {
    for (turns, due) in [
        (0, 0),
        (1, 0),
        (1_024, 0),
        (1_025, 1),
        (2_048, 1),
        (2_049, 2),
        (10_000, 9),
    ] {
        assert_eq!(rt; cuts(turns), due);
    }
}

fn summary() -> Summary {
    Summary {
        number: 18_446_744_073_709_551_615,
        statements: 2_000,
        began: 1,
        committed: 2,
        read_only: 3,
        aborted: 4,
        conflicts: 5,
        rows: 6,
        turns: 7_000_000_000,
        cuts: 8,
    }
}

#[test]
fn summary_lines(rt: HostRuntime) -> Result<(), Fail> {
    let text = summary_text(rt.alloc(), &summary())?;
    assert!(rt;
        text.as_str()
            == "drill 18446744073709551615 2000\nbegan 1 committed 2 readonly 3 aborted 4\nconflicts 5 rows 6\nturns 7000000000 cuts 8\n"
    );
    Ok(())
}

fn entry(reply: Reply) -> Entry {
    Entry {
        session: 1,
        ordinal: 1,
        call: Call::Begin,
        reply,
        answered: true,
    }
}

/// How many replies of each kind a history of two begins and an abort has.
fn counts(alloc: Global) -> Result<(u32, u32, u32), NoMemory> {
    let mut history = Vec::new(alloc);
    history.push(entry(Reply::Began {
        txn: 1,
        snapshot: 0,
    }))?;
    history.push(entry(Reply::Aborted))?;
    history.push(entry(Reply::Began {
        txn: 2,
        snapshot: 0,
    }))?;
    let began = count_replies(Counted::Began, history.as_slice());
    let aborted = count_replies(Counted::Aborted, history.as_slice());
    let conflicts = count_replies(Counted::Conflict, history.as_slice());
    drop(history);
    Ok((began, aborted, conflicts))
}

#[test]
fn replies_are_counted(rt: HostRuntime) -> Result<(), Fail> {
    assert_eq!(rt; counts(rt.alloc())?, (2, 1, 0));
    Ok(())
}
