ghost use Rattle.std.specs.Prelude.{◌≡◌, ◌≤◌, List, ℕ, Ok, None, All, IfOk, IfErr, IfSome, OnErr, OnOk, map, string_bytes};
ghost use Rattle.pm_image.specs.Spelling.{IsImage};
ghost use Rattle.pm_model.specs.Plain.{device_of};
ghost use Rattle.pm_model.specs.Plans.{at_rest};
ghost use Rattle.script_text.specs.Script.{IsBuiltLine};
ghost use Rattle.session_serve.specs.Runs.{◌⟼◌, Ended, EndedScript, EndsFormat, FailsToWrite, IsWrittenOut, MayEndOver, OfBoth, ReadsImage, ReadsScript, ReadsToEnd, TakesInput, UnlessScript, UnlessWritten, asked_by, outputs};
ghost use Rattle.session_serve.specs.Parts.{IsNoImage, IsNoScript, IsUnread, IsWritten, RanWords, Takes};

use crate::leaving::{Left, play};
use crate::playing::Ending;
use crate::{Job, Status, WordsError};
use command_line::read_job;
use engine_core::{OpenError, stage_fresh};
use io_edge::{Failed, ReadAllError, Sink, Source, read_all, write_all};
use pm_image::{ImageError, decode, encode};
use pm_model::{Keep, Plain};
use script_text::{Script, ScriptError, read_script};
use std::alloc::Global;

/// Reads a source to its end.
fn read_bytes<S: Source>(alloc: Global, from: &mut S) -> Result<Vec<u8>, Status>
    ensures read { IfOk result (λ bytes. ReadsToEnd (S.state from.old) (S.state from.new) bytes.items) }
    ensures refused { IfErr result (λ given. IsUnread given (S.state from.old) (S.state from.new)) }
    ensures taken { Takes result (S.state from.old).left (S.state from.new).left }
{
    match read_all(alloc, from) {
        Ok(bytes) => Ok(bytes),
        Err(ReadAllError::TooLong) => Err(Status::InputTooLong),
        Err(ReadAllError::Fault) => Err(Status::ReadFault),
        Err(ReadAllError::NoMemory) => Err(Status::NoMemory),
    }
}

/// Reads the words of an image.
fn read_image<S: Source>(alloc: Global, from: &mut S) -> Result<Vec<u64>, Status>
    ensures image { IfOk result (λ words. IsImage words.items) }
    ensures read { IfOk result (λ words. ReadsImage (S.state from.old) (S.state from.new) words.items) }
    ensures refused { IfErr result (λ given. IsNoImage given (S.state from.old) (S.state from.new)) }
    ensures taken { Takes result (S.state from.old).left (S.state from.new).left }
{
    let bytes = read_bytes(alloc, from)?;
    match decode(alloc, &bytes) {
        Ok(words) => Ok(words),
        Err(ImageError::NoMemory) => Err(Status::NoMemory),
        Err(error) => Err(Status::BadBytes(error)),
    }
}

/// Reads a script.
fn read_lines<S: Source>(alloc: Global, from: &mut S) -> Result<Script, Status>
    ensures built { IfOk result (λ script. All IsBuiltLine script) }
    ensures read { IfOk result (λ script. ReadsScript (S.state from.old) (S.state from.new) (Ok script)) }
    ensures refused { IfErr result (λ given. IsNoScript given (S.state from.old) (S.state from.new)) }
    ensures taken { Takes result (S.state from.old).left (S.state from.new).left }
{
    let bytes = read_bytes(alloc, from)?;
    match read_script(alloc, &bytes) {
        Ok(script) => Ok(script),
        Err(ScriptError::NoMemory) => Err(Status::NoMemory),
        Err(ScriptError::BadLine { line, rule }) => Err(Status::BadScript { line, rule }),
    }
}

/// Writes and flushes bytes.
fn write_bytes<O: Sink>(bytes: &[u8], to: &mut O) -> Result<(), Failed>
    ensures written { OnOk result (IsWrittenOut (O.state to.old) (O.state to.new) bytes.now) }
    ensures failed { OnErr result (FailsToWrite (O.state to.old) (O.state to.new) bytes.now) }
{
    write_all(to, bytes)?;
    to.flush()
}

/// Writes what a run has left: the image, and then the text.
fn write_left<J: Sink, O: Sink>(left: &Left, image_out: &mut J, out: &mut O) -> Status
    ensures written { IsWritten left.now.ending result
        (outputs (J.state image_out.old) (O.state out.old)) (outputs (J.state image_out.new) (O.state out.new))
        left.now.image.items left.now.text.items }
{
    if write_bytes(&left.image, image_out).is_err() || write_bytes(&left.text, out).is_err() {
        return Status::WriteFault;
    }
    match left.ending {
        Ending::Finished => Status::Done,
        Ending::Cut => Status::PowerCut,
    }
}

/// Runs a script over the image of this memory, and writes what it leaves.
fn play_and_write<J: Sink, O: Sink>(
    alloc: Global,
    memory: Plain,
    script: Script,
    cut: Option<u64>,
    keep: Keep,
    image_out: &mut J,
    out: &mut O,
) -> Status
    requires rests { device_of memory ≡ at_rest (device_of memory).cached }
    requires built { All IsBuiltLine script }
    ensures ran { RanWords result cut keep (device_of memory).cached script
        (outputs (J.state image_out.old) (O.state out.old)) (outputs (J.state image_out.new) (O.state out.new)) }
    ensures image_unwritten { UnlessWritten result (image_out.new ≡ image_out.old) }
    ensures unwritten { UnlessWritten result (out.new ≡ out.old) }
{
    match play(alloc, memory, script, cut, keep) {
        Ok(left) => write_left(&left, image_out, out),
        Err(OpenError::BadImage { rule, place }) => Status::BadImage { rule, place },
        Err(OpenError::NoMemory) => Status::NoMemory,
    }
}

/// Reads an image and a script, runs the script over the image, and writes what it leaves.
#[tactic(auto, using(crate::proofs::Shortages::lacks_untouched))]
fn read_and_play<I: Source, S: Source, J: Sink, O: Sink>(
    alloc: Global,
    cut: Option<u64>,
    keep: Keep,
    image: &mut I,
    input: &mut S,
    image_out: &mut J,
    out: &mut O,
) -> Status
    ensures ends { EndedScript result cut keep
        (I.state image.old ⟼ I.state image.new) (S.state input.old ⟼ S.state input.new)
        (J.state image_out.old ⟼ J.state image_out.new) (O.state out.old ⟼ O.state out.new) }
    ensures image_taken { TakesInput result (I.state image.old).left (I.state image.new).left }
    ensures taken { TakesInput result (S.state input.old).left (S.state input.new).left }
    ensures image_unwritten { UnlessWritten result (image_out.new ≡ image_out.old) }
    ensures unwritten { UnlessWritten result (out.new ≡ out.old) }
{
    let words = match read_image(alloc, image) {
        Ok(words) => words,
        Err(status) => return status,
    };
    let Ok(memory) = Plain::new(alloc, words) else {
        return Status::NoMemory;
    };
    let script = match read_lines(alloc, input) {
        Ok(script) => script,
        Err(status) => return status,
    };
    play_and_write(alloc, memory, script, cut, keep, image_out, out)
}

/// Writes the image of a formatted device.
fn format_and_write<J: Sink>(alloc: Global, segments: u32, image_out: &mut J) -> Status
    requires one_or_more { 1 ≤ segments }
    requires most { segments ≤ 128 }
    ensures ends { EndsFormat result segments (J.state image_out.old) (J.state image_out.new) }
    ensures unwritten { UnlessWritten result (image_out.new ≡ image_out.old) }
{
    let Ok(words) = stage_fresh(alloc, segments) else {
        return Status::NoMemory;
    };
    let Ok(bytes) = encode(alloc, &words) else {
        return Status::NoMemory;
    };
    match write_bytes(&bytes, image_out) {
        Ok(()) => Status::Done,
        Err(Failed) => Status::WriteFault,
    }
}

/// Does the job of the words. `format` writes the image of a formatted device. `script` opens the image that it reads
/// from `image`, runs the script that it reads from `input`, one statement after the other, and writes the image that
/// it leaves to `image_out` and the printed history to `out`; with a cut it stops at the first moment at which so many
/// actions were played and a statement has no reply.
///
/// The work is done in this order, and of several causes the first one is answered: the words are read; the image; the
/// input; the image is opened; the calls run; the image is written and flushed; the text is written and flushed.
pub fn run<I: Source, S: Source, J: Sink, O: Sink>(
    alloc: Global,
    words: &[String],
    image: &mut I,
    input: &mut S,
    image_out: &mut J,
    out: &mut O,
) -> Status
    // What the call has done, by the status that it ends with: what was read, and to its end; what was written, and
    // flushed once, behind its last byte; and which stream has failed, exactly where a fault is answered.
    ensures ends { Ended result (asked_by words.now)
        (I.state image.old ⟼ I.state image.new) (S.state input.old ⟼ S.state input.new)
        (J.state image_out.old ⟼ J.state image_out.new) (O.state out.old ⟼ O.state out.new) }

    // The status is that of the words, the image and the input, unless memory ran out or a stream failed.
    ensures status { OfBoth (I.state image.old) (S.state input.old) (MayEndOver result (asked_by words.now)) }

    // No more than one byte past the limit is taken of an input, and that one only where it is answered to be too long.
    ensures image_taken { TakesInput result (I.state image.old).left (I.state image.new).left }
    ensures taken { TakesInput result (S.state input.old).left (S.state input.new).left }

    // The outputs are touched only where the image and the text are written, and only a script reads and prints.
    ensures image_unwritten { UnlessWritten result (image_out.new ≡ image_out.old) }
    ensures unwritten { UnlessWritten result (out.new ≡ out.old) }
    ensures unprinted { UnlessScript (asked_by words.now) (out.new ≡ out.old) }
    ensures image_unread { UnlessScript (asked_by words.now) (image.new ≡ image.old) }
    ensures unread { UnlessScript (asked_by words.now) (input.new ≡ input.old) }
{
    match read_job(alloc, words) {
        Err(WordsError::Usage) => Status::Usage,
        Err(WordsError::NoMemory) => Status::NoMemory,
        Ok(Job::Format { segments }) => format_and_write(alloc, segments, image_out),
        Ok(Job::Script { cut, keep }) => {
            read_and_play(alloc, cut, keep, image, input, image_out, out)
        }
    }
}
