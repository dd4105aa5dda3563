ghost use Rattle.std.specs.Prelude.{◌≡◌, ◌++◌, codes, decimal, IfOk, OnErr, OnOk, string_bytes};
ghost use Rattle.session_serve.specs.Statuses.{bad_bytes_text, bad_image_text, bad_line_text, exit_number, status_text as text_of};

use mv_model::NoMemory;
use pm_image::ImageError;
use std::alloc::Global;

/// How a call ends.
#[derive(Clone, Copy, Debug, PartialEq, Eq)]
pub enum Status {
    /// The job is done, and its image and its text are written.
    Done,
    /// The words are no command.
    Usage,
    /// The first bad line, counted from 1, and the first rule that it breaks.
    BadScript { line: u32, rule: u8 },
    /// The bytes are no image: their first fault. It is never want of memory.
    BadBytes(ImageError),
    /// The first rule that the image breaks, and the place of the word in which it does.
    BadImage { rule: u8, place: u32 },
    /// The power was cut, and what was left is written.
    PowerCut,
    /// A source has failed.
    ReadFault,
    /// A sink has failed. A part of the image may have been written, from its front, or all of it
    /// and a part of the text.
    WriteFault,
    /// A request for memory was refused.
    NoMemory,
    /// The input has more than 41,943,040 bytes.
    InputTooLong,
}

impl Status {
    /// The number with which the program ends.
    pub fn number(&self) -> u8
        ensures { result ≡ exit_number self.now }
    {
        match self {
            Status::Done => 0,
            Status::Usage => 1,
            Status::BadScript { .. } => 2,
            Status::BadBytes(_) | Status::BadImage { .. } => 3,
            Status::PowerCut => 4,
            Status::ReadFault => 5,
            Status::WriteFault => 6,
            Status::NoMemory => 7,
            Status::InputTooLong => 10,
        }
    }
}

fn push_text(to: &mut Vec<u8>, text: &str) -> Result<(), NoMemory>
    ensures text { OnOk result (to.new.items ≡ to.old.items ++ text.now) }
    ensures kept { OnErr result (to.new.items ≡ to.old.items) }
{
    to.extend_from_slice(text.as_bytes())
}

fn bad_line(alloc: Global, line: u32, rule: u8) -> Result<String, NoMemory>
    ensures { IfOk result (λ text. string_bytes text ≡ bad_line_text line rule) }
{
    format!(in alloc; "sofort: bad script: line {line}: rule {rule}")
}

fn bad_image(alloc: Global, rule: u8, place: u32) -> Result<String, NoMemory>
    ensures { IfOk result (λ text. string_bytes text ≡ bad_image_text rule place) }
{
    format!(in alloc; "sofort: bad image: rule {rule} at {place}")
}

fn bad_page(alloc: Global, at: u32) -> Result<String, NoMemory>
    ensures { IfOk result (λ text. string_bytes text ≡ codes "sofort: image: bad page " ++ decimal at) }
{
    format!(in alloc; "sofort: image: bad page {at}")
}

fn trailing(alloc: Global, at: u32) -> Result<String, NoMemory>
    ensures { IfOk result (λ text. string_bytes text ≡ codes "sofort: image: trailing at " ++ decimal at) }
{
    format!(in alloc; "sofort: image: trailing at {at}")
}

fn push_bad_bytes(to: &mut Vec<u8>, error: ImageError) -> Result<(), NoMemory>
    ensures text { OnOk result (to.new.items ≡ to.old.items ++ bad_bytes_text error) }
    ensures kept { OnErr result (to.new.items ≡ to.old.items) }
{
    match error {
        ImageError::BadMagic => push_text(to, "sofort: image: bad magic"),
        ImageError::BadVersion => push_text(to, "sofort: image: bad version"),
        ImageError::BadSize => push_text(to, "sofort: image: bad size"),
        ImageError::BadPage { at } => {
            let text = bad_page(*to.allocator(), at)?;
            push_text(to, text.as_str())
        }
        ImageError::Truncated => push_text(to, "sofort: image: truncated"),
        ImageError::Trailing { at } => {
            let text = trailing(*to.allocator(), at)?;
            push_text(to, text.as_str())
        }
        ImageError::NoMemory => push_text(to, "sofort: image: no memory"),
    }
}

/// Appends the text that is printed for the status, which is none for `Done`. After an error `to`
/// is as it was.
pub fn status_text(status: &Status, to: &mut Vec<u8>) -> Result<(), NoMemory>
    ensures text { OnOk result (to.new.items ≡ to.old.items ++ text_of status.now) }
    ensures kept { OnErr result (to.new.items ≡ to.old.items) }
{
    match status {
        Status::Done => Ok(()),
        Status::Usage => push_text(to, "sofort: usage"),
        Status::BadScript { line, rule } => {
            let text = bad_line(*to.allocator(), *line, *rule)?;
            push_text(to, text.as_str())
        }
        Status::BadBytes(error) => push_bad_bytes(to, *error),
        Status::BadImage { rule, place } => {
            let text = bad_image(*to.allocator(), *rule, *place)?;
            push_text(to, text.as_str())
        }
        Status::PowerCut => push_text(to, "sofort: power cut"),
        Status::ReadFault => push_text(to, "sofort: read fault"),
        Status::WriteFault => push_text(to, "sofort: write fault"),
        Status::NoMemory => push_text(to, "sofort: no memory"),
        Status::InputTooLong => push_text(to, "sofort: input too long"),
    }
}
