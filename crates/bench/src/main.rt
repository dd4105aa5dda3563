//! Does one piece of work over and over, so that a clock outside can time it.
//!
//! Layer: tests and measurements, above the crates that it measures: `img_check`, `engine_core`, `pm_model`,
//! `heap_palloc`, `pm_image`, `fp_leaf`, `fp_inner`, `sf_value`, `script_text` and `csv_load`. The scripts of `bench/`
//! call it.
//!
//! Its first argument says what: `check`, `engine`, `device`, `heap`, `image` or `tree`. The others are the sizes that
//! the module of this name reads. `texts` and `csv` are followed by a file, whose text `texts` and `records` read. It
//! prints what it found. With `all` alone it does a little of each.
#![tactic(auto)]

mod check;
mod device;
mod engine;
mod filling;
mod found;
mod heap;
mod image;
mod pages;
mod records;
mod steps;
mod texts;
mod tree;

use crate::found::{Failed, Found};
use std::alloc::Global;
use std::{env, fs, io};

const USAGE: &str = "bench check SEGMENTS ROUNDS
bench engine SEGMENTS INSERTS
bench device SEGMENTS ROUNDS
bench heap SEGMENTS ROUNDS mixed|turns|holes|device|reopen
bench image SEGMENTS FILLED ROUNDS copy|encode|decode
bench tree ROUNDS LEAVES mix|matches|prints|pairs|leaf
bench texts FILE ROUNDS copy|read|lines|values|history
bench csv FILE ROUNDS same|records|rows
bench all";

// A measure with its sizes.
#[derive(Clone, Copy)]
enum Measure {
    Check(check::Job),
    Engine(engine::Job),
    Device(device::Job),
    Heap(heap::Job),
    Image(image::Job),
    Tree(tree::Job),
}

fn read_measure(words: &[String]) -> Option<Measure> {
    match words.get(1)?.as_str() {
        "check" => Some(Measure::Check(check::read(words)?)),
        "engine" => Some(Measure::Engine(engine::read(words)?)),
        "device" => Some(Measure::Device(device::read(words)?)),
        "heap" => Some(Measure::Heap(heap::read(words)?)),
        "image" => Some(Measure::Image(image::read(words)?)),
        "tree" => Some(Measure::Tree(tree::read(words)?)),
        _ => None,
    }
}

// A measure of a text.
#[derive(Clone, Copy)]
enum TextMeasure {
    Texts(texts::Job),
    Csv(records::Job),
}

// The file of the text, and its measure.
fn read_text_measure(words: &[String]) -> Option<(&str, TextMeasure)> {
    let measure = match words.get(1)?.as_str() {
        "texts" => TextMeasure::Texts(texts::read(words)?),
        "csv" => TextMeasure::Csv(records::read(words)?),
        _ => return None,
    };
    Some((words.get(2)?.as_str(), measure))
}

// What arguments without a file ask for.
#[derive(Clone, Copy)]
enum Request {
    All,
    One(Measure),
    Help,
}

fn read(words: &[String]) -> Request {
    if let [_program, word] = words {
        if word.as_str() == "all" {
            return Request::All;
        }
    }
    match read_measure(words) {
        Some(measure) => Request::One(measure),
        None => Request::Help,
    }
}

fn run(alloc: Global, measure: Measure) -> Result<Found, Failed> {
    match measure {
        Measure::Check(job) => check::run(alloc, job),
        Measure::Engine(job) => engine::run(alloc, job),
        Measure::Device(job) => device::run(alloc, job),
        Measure::Heap(job) => heap::run(alloc, job),
        Measure::Image(job) => image::run(alloc, job),
        Measure::Tree(job) => tree::run(alloc, job),
    }
}

fn run_on(alloc: Global, text: &str, measure: TextMeasure) -> Result<Found, Failed> {
    match measure {
        TextMeasure::Texts(job) => texts::run(alloc, text, job),
        TextMeasure::Csv(job) => Ok(records::run(alloc, text.as_bytes(), job)),
    }
}

fn print_found(rt: &HostRuntime, found: Found) -> io::Result<()> {
    match found {
        Found::Sound { blocks, times } => println!(rt; "{blocks} live blocks, {times} times sound"),
        Found::Stepped {
            statements,
            actions,
            rows,
        } => println!(rt; "{statements} statements, {actions} actions, {rows} rows"),
        Found::Checksum(sum) => println!(rt; "checksum {sum}"),
        Found::Played { actions, sum } => println!(rt; "{actions} actions, sum {sum}"),
        Found::Sum(sum) => println!(rt; "sum {sum}"),
    }
}

fn print_outcome(rt: &HostRuntime, outcome: Result<Found, Failed>) -> io::Result<()> {
    match outcome {
        Ok(found) => print_found(rt, found),
        Err(error) => println!(rt; "{error}"),
    }
}

fn print_all(rt: &HostRuntime) -> io::Result<()> {
    for measure in [
        Measure::Check(check::small()),
        Measure::Engine(engine::small()),
        Measure::Device(device::small()),
        Measure::Heap(heap::small()),
        Measure::Image(image::small()),
        Measure::Tree(tree::small()),
    ] {
        print_outcome(rt, run(rt.alloc(), measure))?;
    }
    for (text, measure) in [
        ("7\n\"a b\"\n", TextMeasure::Texts(texts::small())),
        (
            "0,customer-0,city-0,0,100,20000\n",
            TextMeasure::Csv(records::small()),
        ),
    ] {
        print_outcome(rt, run_on(rt.alloc(), text, measure))?;
    }
    Ok(())
}

fn print_request(rt: &HostRuntime, request: Request) -> io::Result<()> {
    match request {
        Request::All => print_all(rt),
        Request::One(measure) => print_outcome(rt, run(rt.alloc(), measure)),
        Request::Help => println!(rt; "{USAGE}"),
    }
}

fn main(rt: HostRuntime) -> io::Result<()> {
    let words: Vec<String> = env::args(&rt)?.collect(rt.alloc())?;
    let Some((path, measure)) = read_text_measure(words.as_slice()) else {
        return print_request(&rt, read(words.as_slice()));
    };
    let text = fs::read_to_string(&rt, path)?;
    print_outcome(&rt, run_on(rt.alloc(), text.as_str(), measure))
}
