//! Formatted stage images with words changed by hand, and what opening makes of them.
ghost use Rattle.std.specs.Prelude.{◌≡◌, IfOk, length};

use engine_core::{Core, NoMemory, OpenError, stage_fresh};
use pm_model::Plain;
use std::alloc::Global;
use std::test::Fail;

/// The words of a formatted image with some changed by hand.
fn changed(alloc: Global, changes: &[(usize, u64)]) -> Result<Vec<u64>, NoMemory>
    ensures { IfOk result (λ words. length words.items ≡ 32768) }
{
    let mut words = stage_fresh(alloc, 1)?;
    for (place, word) in changes {
        if *place < words.len() {
            words[*place] = *word;
        }
    }
    Ok(words)
}

/// Opens such words.
pub(crate) fn opened(alloc: Global, changes: &[(usize, u64)]) -> Result<Core<Plain>, OpenError> {
    let memory = Plain::new(alloc, changed(alloc, changes)?)?;
    Core::from_memory(alloc, memory)
}

/// The rule and the place that the words are refused by.
fn refusal(alloc: Global, changes: &[(usize, u64)]) -> Option<(u8, u32)> {
    match opened(alloc, changes) {
        Ok(core) => {
            drop(core);
            None
        }
        Err(OpenError::BadImage { rule, place }) => Some((rule, place)),
        Err(OpenError::NoMemory) => None,
    }
}

/// The word of an entry of a row that was created.
const CREATED: u64 = 1 << 56;

#[test]
fn broken_images_are_refused(rt: HostRuntime) {
    for (place, word, rule) in [
        (512, 0, 1),
        (513, 1, 2),
        (514, 1 << 40, 3),
        (5, 0, 5),
        (1_216, 2, 14),
        (2_051, 9, 27),
        (517, 4_097, 27),
    ] {
        assert!(rt; refusal(rt.alloc(), &[(place as usize, word)]) == Some((rule, place)));
    }
    let unowned = refusal(rt.alloc(), &[(1_024, 1), (1_033, CREATED)]);
    assert!(rt; unowned == Some((15, 1_033)));
}

/// The words of an image once it is opened.
fn opened_words(alloc: Global, changes: &[(usize, u64)]) -> Result<Vec<u64>, Fail> {
    let core = opened(alloc, changes)?;
    let words = Vec::from_slice(alloc, core.opened());
    drop(core);
    Ok(words?)
}

#[test]
fn a_transaction_without_a_commit_word_is_undone(rt: HostRuntime) -> Result<(), Fail> {
    let words = opened_words(rt.alloc(), &[(1_024, 1), (1_028, CREATED)])?;
    for (place, word) in [(1_024, 0), (1_028, 0), (2_048, u64::MAX), (517, 1)] {
        assert!(rt; words.get(place) == Some(&word));
    }
    Ok(())
}

#[test]
fn a_formatted_image_is_opened_as_it_is(rt: HostRuntime) -> Result<(), Fail> {
    let words = opened_words(rt.alloc(), &[])?;
    let fresh = stage_fresh(rt.alloc(), 1)?;
    assert!(rt; words.as_slice() == fresh.as_slice());
    Ok(())
}
