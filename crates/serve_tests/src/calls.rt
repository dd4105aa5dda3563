//! Calls over streams in memory.
use engine_core::stage_fresh;
use io_edge::{MemSink, MemSource, NoMemory};
use pm_image::encode;
use session_serve::{Status, run};
use std::alloc::Global;

/// Room for the image of a segment, and for a history, in bytes.
const ROOM: usize = 300_000;

/// What a call has written, and how it ended.
#[derive(Drop)]
pub(crate) struct Ended {
    pub status: Status,
    pub image: Vec<u8>,
    pub text: Vec<u8>,
}

/// The calls of each stream that fail, by their numbers.
#[derive(Clone, Copy)]
pub(crate) struct Failing<'a> {
    pub image: &'a [u32],
    pub input: &'a [u32],
    pub image_out: &'a [u32],
    pub out: &'a [u32],
}

pub(crate) const NONE: Failing<'static> = Failing {
    image: &[],
    input: &[],
    image_out: &[],
    out: &[],
};

/// The image of a formatted device of one segment.
pub(crate) fn formatted(alloc: Global) -> Result<Vec<u8>, NoMemory> {
    let words = stage_fresh(alloc, 1)?;
    encode(alloc, &words)
}

pub(crate) fn source(alloc: Global, bytes: &[u8], failing: &[u32]) -> Result<MemSource, NoMemory> {
    let listed = Vec::from_slice(alloc, failing)?;
    let bytes = Vec::from_slice(alloc, bytes)?;
    Ok(MemSource::new(bytes, listed))
}

fn sink(alloc: Global, failing: &[u32]) -> Result<MemSink, NoMemory> {
    MemSink::new(alloc, ROOM, Vec::from_slice(alloc, failing)?)
}

fn owned_words(alloc: Global, words: &[&str]) -> Result<Vec<String>, NoMemory> {
    let mut owned = Vec::with_capacity(alloc, words.len())?;
    for word in words {
        owned.push(String::from_str(alloc, word)?)?;
    }
    Ok(owned)
}

fn what_was_written(
    alloc: Global,
    status: Status,
    image_out: &MemSink,
    out: &MemSink,
) -> Result<Ended, NoMemory> {
    Ok(Ended {
        status,
        image: Vec::from_slice(alloc, image_out.held())?,
        text: Vec::from_slice(alloc, out.held())?,
    })
}

/// Runs the words over these sources, and over sinks that fail so.
pub(crate) fn run_sources(
    alloc: Global,
    words: &[&str],
    image: MemSource,
    input: MemSource,
    failing: &Failing<'_>,
) -> Result<Ended, NoMemory> {
    let words = owned_words(alloc, words)?;
    let mut image_out = sink(alloc, failing.image_out)?;
    let mut out = sink(alloc, failing.out)?;
    let mut image = image;
    let mut input = input;
    let status = run(
        alloc,
        &words,
        &mut image,
        &mut input,
        &mut image_out,
        &mut out,
    );
    what_was_written(alloc, status, &image_out, &out)
}

/// Runs the words over this image and input, and over streams that fail so.
pub(crate) fn run_failing(
    alloc: Global,
    words: &[&str],
    image: &[u8],
    input: &[u8],
    failing: &Failing<'_>,
) -> Result<Ended, NoMemory> {
    let image = source(alloc, image, failing.image)?;
    let input = source(alloc, input, failing.input)?;
    run_sources(alloc, words, image, input, failing)
}

/// Runs a script over an image, with these words.
pub(crate) fn run_script(
    alloc: Global,
    words: &[&str],
    image: &[u8],
    script: &str,
) -> Result<Ended, NoMemory> {
    run_failing(alloc, words, image, script.as_bytes(), &NONE)
}

/// The words of a script without options.
pub(crate) const PLAIN: &[&str] = &["script", "image", "script", "out"];

/// Whether a call has ended so, and has printed this.
pub(crate) fn has_printed(ended: &Ended, status: Status, text: &str) -> bool {
    ended.status == status && ended.text.as_slice() == text.as_bytes()
}

/// Whether a call has ended so, and has written nothing.
pub(crate) fn wrote_nothing(ended: &Ended, status: Status) -> bool {
    ended.status == status && ended.image.is_empty() && ended.text.is_empty()
}
