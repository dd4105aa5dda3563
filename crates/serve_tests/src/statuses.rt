//! The faults of streams, and how each status is told.
use crate::calls::{Failing, NONE, PLAIN, formatted, run_failing};
use crate::scripts::SCRIPT;
use io_edge::NoMemory;
use pm_image::ImageError;
use session_serve::{Status, status_text};
use std::alloc::Global;
use std::test::Fail;

/// A stream of a call.
#[derive(Clone, Copy)]
enum Stream {
    Image,
    Input,
    ImageOut,
    Out,
}

/// These calls of the stream fail.
fn failing_in<'a>(stream: Stream, calls: &'a [u32]) -> Failing<'a> {
    match stream {
        Stream::Image => Failing {
            image: calls,
            ..NONE
        },
        Stream::Input => Failing {
            input: calls,
            ..NONE
        },
        Stream::ImageOut => Failing {
            image_out: calls,
            ..NONE
        },
        Stream::Out => Failing { out: calls, ..NONE },
    }
}

fn ends(
    alloc: Global,
    stream: Stream,
    call: u32,
    status: Status,
    has_image: bool,
    has_text: bool,
) -> Result<bool, NoMemory> {
    let image = formatted(alloc)?;
    let calls = [call];
    let failing = failing_in(stream, &calls);
    let ended = run_failing(alloc, PLAIN, &image, SCRIPT.as_bytes(), &failing)?;
    Ok(
        ended.status == status
            && ended.image.is_empty() != has_image
            && ended.text.is_empty() != has_text,
    )
}

/// The stream, which of its calls fails, the status, and whether the image and the text were taken. A sink's second
/// call is its flush.
const FAULTS: [(Stream, u32, Status, bool, bool); 8] = [
    (Stream::Image, 0, Status::ReadFault, false, false),
    (Stream::Input, 0, Status::ReadFault, false, false),
    (Stream::Input, 1, Status::ReadFault, false, false),
    (Stream::ImageOut, 0, Status::WriteFault, false, false),
    (Stream::ImageOut, 1, Status::WriteFault, true, false),
    (Stream::Out, 0, Status::WriteFault, true, false),
    (Stream::Out, 1, Status::WriteFault, true, true),
    (Stream::Out, 2, Status::Done, true, true),
];

#[test]
fn answers_the_faults_of_its_streams(rt: HostRuntime) -> Result<(), Fail> {
    for (stream, call, status, has_image, has_text) in FAULTS {
        assert!(rt; ends(rt.alloc(), stream, call, status, has_image, has_text)?);
    }
    Ok(())
}

const STATUSES: [(Status, u8, &str); 15] = [
    (Status::Done, 0, "so far "),
    (Status::Usage, 1, "so far sofort: usage"),
    (
        Status::BadScript { line: 12, rule: 3 },
        2,
        "so far sofort: bad script: line 12: rule 3",
    ),
    (
        Status::BadBytes(ImageError::BadMagic),
        3,
        "so far sofort: image: bad magic",
    ),
    (
        Status::BadBytes(ImageError::BadVersion),
        3,
        "so far sofort: image: bad version",
    ),
    (
        Status::BadBytes(ImageError::BadSize),
        3,
        "so far sofort: image: bad size",
    ),
    (
        Status::BadBytes(ImageError::BadPage { at: 2 }),
        3,
        "so far sofort: image: bad page 2",
    ),
    (
        Status::BadBytes(ImageError::Truncated),
        3,
        "so far sofort: image: truncated",
    ),
    (
        Status::BadBytes(ImageError::Trailing { at: 20 }),
        3,
        "so far sofort: image: trailing at 20",
    ),
    (
        Status::BadImage {
            rule: 8,
            place: 576,
        },
        3,
        "so far sofort: bad image: rule 8 at 576",
    ),
    (Status::PowerCut, 4, "so far sofort: power cut"),
    (Status::ReadFault, 5, "so far sofort: read fault"),
    (Status::WriteFault, 6, "so far sofort: write fault"),
    (Status::NoMemory, 7, "so far sofort: no memory"),
    (Status::InputTooLong, 10, "so far sofort: input too long"),
];

fn tells(alloc: Global, status: Status, text: &str) -> Result<bool, NoMemory> {
    let mut to = Vec::from_slice(alloc, b"so far ")?;
    status_text(&status, &mut to)?;
    Ok(to.as_slice() == text.as_bytes())
}

#[test]
fn names_each_status(rt: HostRuntime) -> Result<(), Fail> {
    for (status, number, text) in STATUSES {
        assert!(rt;
            status.number() == number && tells(rt.alloc(), status, text)?,
            "at {text}"
        );
    }
    Ok(())
}
