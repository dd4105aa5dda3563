//! Power cuts in the middle of worked scripts.
use crate::calls::{PLAIN, formatted, has_printed, run_script};
use crate::scripts::{HISTORY, SCRIPT};
use io_edge::NoMemory;
use session_serve::Status;
use std::alloc::Global;
use std::test::Fail;

const BEGAN: &str = "s1 1 began 1 at 0 unanswered\n";

const INSERTED: &str = "s1 1 began 1 at 0\ns1 2 row 0 unanswered\n";

const UNDECIDED: &str = "s1 1 began 1 at 0\ns1 2 row 0\ns1 3 values 7\n";

const COMMITTED: &str =
    "s1 1 began 1 at 0\ns1 2 row 0\ns1 3 values 7\ns1 4 committed 1 unanswered\n";

/// After which action the power is cut, how the script ends, and what it prints.
const CUTS: [(&str, Status, &str); 6] = [
    ("3", Status::PowerCut, BEGAN),
    ("9", Status::PowerCut, INSERTED),
    ("16", Status::PowerCut, UNDECIDED),
    ("25", Status::PowerCut, COMMITTED),
    ("27", Status::PowerCut, COMMITTED),
    ("28", Status::Done, HISTORY),
];

fn is_cut(alloc: Global, cut: &str, status: Status, text: &str) -> Result<bool, NoMemory> {
    let image = formatted(alloc)?;
    let words = ["script", "image", "script", "out", "--cut", cut];
    let ended = run_script(alloc, &words, &image, SCRIPT)?;
    Ok(has_printed(&ended, status, text))
}

#[test]
fn plays_the_stated_number_of_actions(rt: HostRuntime) -> Result<(), Fail> {
    for (cut, status, text) in CUTS {
        assert!(rt; is_cut(rt.alloc(), cut, status, text)?, "at {cut}");
    }
    Ok(())
}

const WITHOUT: &str = "s1 1 began 1 at 0\ns1 2 norow\ns1 3 row 1\n";

const WITH: &str = "s1 1 began 1 at 1\ns1 2 values 7\ns1 3 row 1\n";

/// After which action the power is cut in a commit, what is kept, what is printed, and what the image then shows.
const COMMITS: [(&str, &str, &str, &str); 4] = [
    ("16", "nothing", UNDECIDED, WITHOUT),
    ("16", "all", UNDECIDED, WITH),
    ("17", "nothing", COMMITTED, WITH),
    ("17", "all", COMMITTED, WITH),
];

fn shows(alloc: Global, cut: &str, keep: &str, text: &str, shown: &str) -> Result<bool, NoMemory> {
    let image = formatted(alloc)?;
    let words = [
        "script", "image", "script", "out", "--cut", cut, "--keep", keep,
    ];
    let ended = run_script(alloc, &words, &image, SCRIPT)?;
    let next = "s1 begin\ns1 get t 0\ns1 insert t 9\n";
    let again = run_script(alloc, PLAIN, &ended.image, next)?;
    Ok(has_printed(&ended, Status::PowerCut, text) && has_printed(&again, Status::Done, shown))
}

#[test]
fn a_cut_leaves_a_commit_whole_or_not_at_all(rt: HostRuntime) -> Result<(), Fail> {
    for (cut, keep, text, shown) in COMMITS {
        assert!(rt;
            shows(rt.alloc(), cut, keep, text, shown)?,
            "at {cut} {keep}"
        );
    }
    Ok(())
}

/// After which action the power is cut, what is kept, what is printed, the image's bytes, and whether they are those of
/// the formatted image.
const KEPT: [(&str, &str, &str, usize, bool); 4] = [
    ("0", "nothing", "", 8_220, true),
    ("2", "nothing", BEGAN, 8_220, true),
    ("2", "all", BEGAN, 12_320, false),
    ("3", "nothing", BEGAN, 12_320, false),
];

fn keeps(
    alloc: Global,
    cut: &str,
    keep: &str,
    text: &str,
    len: usize,
    is_formatted: bool,
) -> Result<bool, NoMemory> {
    let image = formatted(alloc)?;
    let words = [
        "script", "image", "script", "out", "--cut", cut, "--keep", keep,
    ];
    let ended = run_script(alloc, &words, &image, "s1 begin\ns1 commit\n")?;
    let is_same = ended.image.as_slice() == image.as_slice();
    Ok(
        has_printed(&ended, Status::PowerCut, text)
            && ended.image.len() == len
            && is_same == is_formatted,
    )
}

#[test]
fn a_cut_keeps_what_it_is_told_to(rt: HostRuntime) -> Result<(), Fail> {
    for (cut, keep, text, len, is_formatted) in KEPT {
        let is_kept = keeps(rt.alloc(), cut, keep, text, len, is_formatted)?;
        assert!(rt; is_kept, "at {cut} {keep}");
    }
    Ok(())
}
