use command_line::{Command, Job, Paths, WordsError, read_words};
use mv_model::{NoMemory, Text};
use pm_model::Keep;
use std::alloc::Global;

/// The words of a line, cut at single blanks. Two blanks have an empty word between them.
fn words_of(alloc: Global, line: &str) -> Result<Vec<String>, NoMemory> {
    let mut words = Vec::new(alloc);
    for word in line.split(' ') {
        words.push(String::from_str(alloc, word)?)?;
    }
    Ok(words)
}

fn command_of(alloc: Global, line: &str) -> Result<Command, WordsError> {
    let words = words_of(alloc, line)?;
    read_words(alloc, &words)
}

/// The job of the line, or nothing where the words are no command.
fn job_of(alloc: Global, line: &str) -> Option<Job> {
    match command_of(alloc, line) {
        Ok(Command::Run { job, .. }) => Some(job),
        Err(_) => None,
    }
}

fn is_usage(alloc: Global, line: &str) -> bool {
    match command_of(alloc, line) {
        Ok(_) => false,
        Err(error) => error == WordsError::Usage,
    }
}

#[test]
fn segments(rt: HostRuntime) {
    for (line, segments) in [
        ("format a", 32),
        ("format a --segments 1", 1),
        ("format a --segments=128", 128),
        ("format --segments 8 a", 8),
        ("format --segments=00000000000000000008 a", 8),
        ("format a --segments 128", 128),
    ] {
        assert_eq!(rt; job_of(rt.alloc(), line), Some(Job::Format { segments }));
    }
}

#[test]
fn cuts_and_choices(rt: HostRuntime) {
    for (line, cut, keep) in [
        ("script a b c", None, Keep::Nothing),
        ("script a b c --cut 0", Some(0), Keep::Nothing),
        ("script a b c --cut=018", Some(18), Keep::Nothing),
        (
            "script a b c --cut 00000000000000000018",
            Some(18),
            Keep::Nothing,
        ),
        ("script --cut 7 a b c", Some(7), Keep::Nothing),
        ("script a --keep nothing b c", None, Keep::Nothing),
        ("script a b --keep=all c", None, Keep::All),
        ("script a b c --keep all --cut 1", Some(1), Keep::All),
        ("script --keep=mix:0 a --cut 1 b c", Some(1), Keep::Mix(0)),
        (
            "script a b c --cut 18446744073709551615 --keep mix:18446744073709551615",
            Some(u64::MAX),
            Keep::Mix(u64::MAX),
        ),
    ] {
        assert_eq!(rt; job_of(rt.alloc(), line), Some(Job::Script { cut, keep }));
    }
}

fn is_path(path: &Option<Text>, name: &str) -> bool {
    match path {
        Some(path) => path.as_str() == name,
        None => name.is_empty(),
    }
}

/// Whether the line names these files; an empty name stands for none.
fn has_paths(alloc: Global, line: &str, image: &str, input: &str, out: &str) -> bool {
    match command_of(alloc, line) {
        Ok(Command::Run { paths, .. }) => names(&paths, image, input, out),
        Err(_) => false,
    }
}

fn names(paths: &Paths, image: &str, input: &str, out: &str) -> bool {
    is_path(&paths.image, image) && is_path(&paths.input, input) && is_path(&paths.image_out, out)
}

#[test]
fn paths(rt: HostRuntime) {
    let alloc = rt.alloc();
    assert!(rt; has_paths(alloc, "format out.img --segments 2", "", "", "out.img"));
    assert!(rt; has_paths(alloc, "script a=b --cut 3 s/t c-", "a=b", "s/t", "c-"));
}

#[test]
fn lines_that_are_no_command(rt: HostRuntime) {
    for line in [
        "",
        "format",
        "formats a",
        "Format a",
        "format a b",
        "format -a",
        "format -",
        "format --",
        "format a --segments",
        "format a --segments 0",
        "format a --segments 129",
        "format a --segments 1=1",
        "format a --segments=1=1",
        "format a --segments +1",
        "format a --segments -1",
        "format a --segments=",
        "format a --segments 000000000000000000001",
        "format a --segments 1 --segments 1",
        "format a --segment 1",
        "format a --cut 1",
        "format a --help",
        "format a -h",
        "--segments 1 format a",
        "help",
        "script a",
        "script a b",
        "script a b c d",
        "script a  c",
        "script a -b c",
        "script a b c --cut",
        "script a b c --cut --keep all",
        "script a b c --cut 18446744073709551616",
        "script a b c --cut x",
        "script a b c --cut=",
        "script a b c --cut= 5",
        "script a b c --cut -1",
        "script a b c --=5",
        "script a b c --cut=1 --cut=1",
        "script a b c --keep",
        "script a b c --keep none",
        "script a b c --keep mix",
        "script a b c --keep ALL",
        "script a b c --keep mix:x",
        "script a b c --keep mix:",
        "script a b c --keep mix:18446744073709551616",
        "script a b c --keep all --keep all",
        "script a b c --version",
        "script a b -- c",
        "script a b c -V",
        "script a b c --segments 1",
        "script --script a b c",
        "serve a b c",
        "check a",
    ] {
        assert!(rt; is_usage(rt.alloc(), line));
    }
}
