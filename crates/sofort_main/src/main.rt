//! The program `sofort`: the words of the command line, the files that they name, and the exit status.
//!
//! Layer: the program, at the top. What a command does is `session_serve::run`; here real files and standard output are
//! put under it.
//!
//! Order of work:
//! 1. the words are read, and the file OUT is claimed, before anything is read;
//! 2. the files are opened, and the command is run over them;
//! 3. OUT is replaced whole (`whole_file`), at the flush of its sink;
//! 4. a line on standard error and the status say how it ended.
#![tactic(auto)]

mod paths;

use io_edge::{CleanSink, CleanSource, EdgeSink, EdgeSource, Sink, Source};
use paths::{Role, path_of};
use session_serve::{Command, Paths, Status, WordsError, read_words, run, status_text};
use std::alloc::Global;
use std::fs::File;
use std::process::ExitCode;
use std::{env, io};
use whole_file::{Claim, ClaimError, FolderFile, WholeFile};

/// The words behind the program's name.
fn command_words(rt: &HostRuntime, alloc: Global) -> io::Result<Vec<String>> {
    let mut words = Vec::new(alloc);
    for word in env::args(rt)?.skip(1) {
        words.push(word)?;
    }
    Ok(words)
}

/// A source with nothing in it.
fn no_source(alloc: Global) -> CleanSource {
    CleanSource::new(Vec::new(alloc))
}

/// Runs the command over these streams, with standard output.
fn with_output<I: Source, S: Source, J: Sink>(
    rt: &HostRuntime,
    alloc: Global,
    words: &[String],
    image: &mut I,
    input: &mut S,
    image_out: &mut J,
) -> Status {
    let mut out = EdgeSink::new(io::writer(rt));
    run(alloc, words, image, input, image_out, &mut out)
}

/// Runs the command over these sources, with the file that it writes.
fn with_image_out<I: Source, S: Source>(
    rt: &HostRuntime,
    alloc: Global,
    words: &[String],
    claim: Option<&Claim>,
    image: &mut I,
    input: &mut S,
) -> Status {
    match claim {
        None => with_output(rt, alloc, words, image, input, &mut CleanSink::new()),
        Some(claim) => {
            let mut file = EdgeSink::new(WholeFile::new(FolderFile::new(rt, claim)));
            with_output(rt, alloc, words, image, input, &mut file)
        }
    }
}

/// Runs the command over this image, with the script that it names. A path that can't be opened is a read fault.
fn with_input<I: Source>(
    rt: &HostRuntime,
    alloc: Global,
    words: &[String],
    paths: &Paths,
    claim: Option<&Claim>,
    image: &mut I,
) -> Status {
    match path_of(paths, Role::Input) {
        None => with_image_out(rt, alloc, words, claim, image, &mut no_source(alloc)),
        Some(path) => match File::open(rt, path) {
            Ok(file) => with_image_out(rt, alloc, words, claim, image, &mut EdgeSource::new(file)),
            Err(_) => Status::ReadFault,
        },
    }
}

/// Runs the command with the image that it names. A path that can't be opened is a read fault.
fn with_image(
    rt: &HostRuntime,
    alloc: Global,
    words: &[String],
    paths: &Paths,
    claim: Option<&Claim>,
) -> Status {
    match path_of(paths, Role::Image) {
        None => with_input(rt, alloc, words, paths, claim, &mut no_source(alloc)),
        Some(path) => match File::open(rt, path) {
            Ok(file) => {
                let mut image = EdgeSource::new(file);
                with_input(rt, alloc, words, paths, claim, &mut image)
            }
            Err(_) => Status::ReadFault,
        },
    }
}

/// Runs the command with a claim on the file that it writes, where it writes one. A file that another run has can't be
/// opened.
fn with_claim(rt: &HostRuntime, alloc: Global, words: &[String], paths: &Paths) -> Status {
    let Some(path) = path_of(paths, Role::ImageOut) else {
        return with_image(rt, alloc, words, paths, None);
    };
    match Claim::of(rt, path) {
        Ok(claim) => with_image(rt, alloc, words, paths, Some(&claim)),
        Err(ClaimError::Busy) => Status::ReadFault,
        Err(ClaimError::NoMemory) => Status::NoMemory,
    }
}

/// Runs the command of these words, with the paths that they name.
fn with_paths(rt: &HostRuntime, alloc: Global, words: &[String]) -> Status {
    match read_words(alloc, words) {
        Ok(Command::Run { paths, .. }) => with_claim(rt, alloc, words, &paths),
        Err(WordsError::Usage) => {
            let mut image = no_source(alloc);
            let mut input = no_source(alloc);
            with_output(
                rt,
                alloc,
                words,
                &mut image,
                &mut input,
                &mut CleanSink::new(),
            )
        }
        Err(WordsError::NoMemory) => Status::NoMemory,
    }
}

/// Words that are not UTF-8 are no command.
fn status_of_words(error: io::Error) -> Status {
    match error.kind() {
        io::ErrorKind::OutOfMemory => Status::NoMemory,
        _ => Status::Usage,
    }
}

/// Prints one line on standard error, unless the command is done.
fn report(rt: &HostRuntime, alloc: Global, status: Status) -> io::Result<()> {
    if status == Status::Done {
        return Ok(());
    }
    let mut text = Vec::new(alloc);
    status_text(&status, &mut text)?;
    text.push(b'\n')?;
    rt.stderr().write_all(&text)
}

fn main(rt: HostRuntime) -> ExitCode {
    let alloc = rt.alloc();
    let status = match command_words(&rt, alloc) {
        Ok(words) => with_paths(&rt, alloc, &words),
        Err(error) => status_of_words(error),
    };
    let _ = report(&rt, alloc, status);
    ExitCode::from(status.number())
}
