//! Reads the records of a text of CSV, as `bench/make_csv` prints it.
//! - `same`: each round reads the records by the csv crate, each into the same memory.
//! - `records`: each round reads the records by the csv crate, each into memory of its own.
//! - `rows`: each round types the records.
use crate::found::Found;
use arrayvec::ArrayVec;
use csv::{ByteRecord, ReaderBuilder};
use csv_load::typed_rows;
use mv_model::{Column, Kind, Name, Shape};
use std::alloc::Global;

// What each round does.
#[derive(Clone, Copy)]
enum Work {
    Same,
    Records,
    Rows,
}

fn read_work(word: &str) -> Option<Work> {
    match word {
        "same" => Some(Work::Same),
        "records" => Some(Work::Records),
        "rows" => Some(Work::Rows),
        _ => None,
    }
}

#[derive(Clone, Copy)]
pub(crate) struct Job {
    rounds: u32,
    work: Work,
}

/// The rounds and the work, behind the file.
pub(crate) fn read(words: &[String]) -> Option<Job> {
    let [_program, _measure, _file, rounds, work] = words else {
        return None;
    };
    let rounds = rounds.parse::<u32>().ok()?;
    let work = read_work(work.as_str())?;
    Some(Job { rounds, work })
}

/// A small job that types records.
pub(crate) fn small() -> Job {
    Job {
        rounds: 2,
        work: Work::Rows,
    }
}

// The columns of the sales that `bench/make_csv` prints.
fn shape() -> Option<Shape> {
    let mut columns = ArrayVec::new();
    for (name, kind) in [
        ("id", Kind::Int),
        ("name", Kind::Text),
        ("city", Kind::Text),
        ("qty", Kind::Int),
        ("price", Kind::Int),
        ("day", Kind::Int),
    ] {
        let name = Name::read(name)?;
        columns.try_push(Column { name, kind }).ok()?;
    }
    Shape::of(columns)
}

fn read_into_one(alloc: Global, text: &[u8]) -> u64 {
    let mut reader = ReaderBuilder::new()
        .has_headers(false)
        .flexible(true)
        .from_reader(alloc, text);
    let mut record = ByteRecord::new(alloc);
    let mut records: u64 = 0;
    for _ in 0..u64::MAX {
        match reader.read_byte_record(&mut record) {
            Ok(true) => records = records.wrapping_add(1),
            _ => return records,
        }
    }
    records
}

fn read_each(alloc: Global, text: &[u8]) -> u64 {
    let reader = ReaderBuilder::new()
        .has_headers(false)
        .flexible(true)
        .from_reader(alloc, text);
    let mut records: u64 = 0;
    for record in reader.into_byte_records() {
        if record.is_err() {
            return records;
        }
        records = records.wrapping_add(1);
    }
    records
}

fn type_each(alloc: Global, text: &[u8]) -> u64 {
    match shape() {
        Some(shape) if text.len() <= 41_943_040 => match typed_rows(alloc, text, &shape) {
            Ok(rows) => rows.len() as u64,
            Err(_) => 0,
        },
        _ => 0,
    }
}

/// How many records the rounds read in all.
pub(crate) fn run(alloc: Global, text: &[u8], job: Job) -> Found {
    let mut records: u64 = 0;
    for _ in 0..job.rounds {
        let read = match job.work {
            Work::Same => read_into_one(alloc, text),
            Work::Records => read_each(alloc, text),
            Work::Rows => type_each(alloc, text),
        };
        records = records.wrapping_add(read);
    }
    Found::Sum(records)
}
