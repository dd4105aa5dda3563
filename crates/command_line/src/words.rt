ghost use Rattle.std.specs.List.{list_all};
ghost use Rattle.std.specs.Prelude.{◌≡◌, codes, map, string_bytes, true, None, Some, IfOk, IsErrOf, option_and_then, option_map};
ghost use Rattle.pm_model.specs.declared.action.Keep.TheVariants as keep;
ghost use Rattle.command_line.specs.Parts.{may_stand};
ghost use Rattle.command_line.specs.Words.{MayLackMemory, after_words, at_most_once, command_of, cut_of, format_command, format_with, from_1_to_128, HasSegments, job_in, job_of, keep_of, option_number, ReadsWords, script_command, script_with, segments_of, word_of, words_in};

use crate::arguments::{WordsError, read_arguments};
use mv_model::{NoMemory, Text};
use pm_model::Keep;
use sf_value::read_number;
use std::alloc::Global;

/// The options of `format`.
static FORMAT_OPTIONS: [&str; 1] = ["segments"];

/// The options of `script`.
static SCRIPT_OPTIONS: [&str; 2] = ["cut", "keep"];

/// How many segments `format` gives an image unless it is told.
const FORMAT_SEGMENTS: u32 = 32;

/// What a command does.
#[derive(Clone, Copy, Debug, PartialEq, Eq)]
pub enum Job {
    /// Writes a formatted image of so many segments.
    Format { segments: u32 },
    /// Opens an image, runs a script over it, and writes the image that it leaves and the printed
    /// history. The power may be cut once `cut` actions were played; the image then keeps what
    /// `keep` says of the words that the device has cached.
    Script { cut: Option<u64>, keep: Keep },
}

/// The files of a command.
#[derive(Debug, Drop)]
pub struct Paths {
    pub image: Option<Text>,
    pub input: Option<Text>,
    pub image_out: Option<Text>,
}

/// A command of the command line.
#[derive(Debug, Drop)]
pub enum Command {
    Run { job: Job, paths: Paths },
}

fn to_word(number: u128) -> Option<u64>
    ensures { result ≡ word_of number }
{
    if number < 18_446_744_073_709_551_616 {
        Some(number as u64)
    } else {
        None
    }
}

fn read_option_number(word: &[u8]) -> Option<u64>
    ensures { result ≡ option_number word.now }
{
    to_word(read_number(word, 20)?)
}

fn to_segments(number: u128) -> Option<u32>
    ensures { result ≡ from_1_to_128 number }
{
    if 1 <= number && number <= 128 {
        Some(number as u32)
    } else {
        None
    }
}

fn read_mix(word: &[u8]) -> Option<u64>
    ensures { result ≡ option_and_then option_number (after_words (codes "mix:") word.now) }
{
    read_option_number(word.strip_prefix(b"mix:".as_slice())?)
}

fn read_keep(word: &str) -> Option<Keep>
    ensures { result ≡ keep_of word.now }
{
    match word {
        "nothing" => Some(Keep::Nothing),
        "all" => Some(Keep::All),
        _ => Some(Keep::Mix(read_mix(word.as_bytes())?)),
    }
}

/// The segments of `--segments`, which stands at most once.
fn read_segments(given: Option<&[&str]>) -> Option<u32>
    ensures { result ≡ at_most_once 32 segments_of (words_in given.entry) }
{
    match given {
        None | Some([]) => Some(FORMAT_SEGMENTS),
        Some([word]) => to_segments(read_number(word.as_bytes(), 20)?),
        Some(_) => None,
    }
}

/// The number of `--cut`, which stands at most once.
fn read_cut(given: Option<&[&str]>) -> Option<Option<u64>>
    ensures { result ≡ at_most_once None cut_of (words_in given.entry) }
{
    match given {
        None | Some([]) => Some(None),
        Some([word]) => Some(Some(read_option_number(word.as_bytes())?)),
        Some(_) => None,
    }
}

/// The choice of `--keep`, which stands at most once.
fn read_choice(given: Option<&[&str]>) -> Option<Keep>
    ensures { result ≡ at_most_once keep.Nothing keep_of (words_in given.entry) }
{
    match given {
        None | Some([]) => Some(Keep::Nothing),
        Some([word]) => read_keep(word),
        Some(_) => None,
    }
}

fn path_of(alloc: Global, word: &str) -> Result<Option<Text>, NoMemory>
    ensures { IfOk result (λ path. path ≡ Some word.now) }
{
    Ok(Some(Text::of(alloc, word.as_bytes())?))
}

/// `format` with these paths and segments.
fn format_of(
    alloc: Global,
    paths: Option<&[&str]>,
    segments: Option<&[&str]>,
) -> Result<Command, WordsError>
    ensures { ReadsWords result (format_with (words_in paths.entry) (words_in segments.entry)) }
{
    let Some([out]) = paths else {
        return Err(WordsError::Usage);
    };
    let Some(segments) = read_segments(segments) else {
        return Err(WordsError::Usage);
    };
    Ok(Command::Run {
        job: Job::Format { segments },
        paths: Paths {
            image: None,
            input: None,
            image_out: path_of(alloc, out)?,
        },
    })
}

/// The job of `script` with these options.
fn script_job(cuts: Option<&[&str]>, choices: Option<&[&str]>) -> Option<Job>
    ensures { result ≡ option_and_then (λ cut. option_map (λ kept. Job.Script cut kept)
        (at_most_once keep.Nothing keep_of (words_in choices.entry))) (at_most_once None cut_of (words_in cuts.entry)) }
{
    Some(Job::Script {
        cut: read_cut(cuts)?,
        keep: read_choice(choices)?,
    })
}

/// `script` with these paths and options.
fn script_of(
    alloc: Global,
    paths: Option<&[&str]>,
    cuts: Option<&[&str]>,
    choices: Option<&[&str]>,
) -> Result<Command, WordsError>
    ensures { ReadsWords result (script_with (words_in paths.entry) (words_in cuts.entry) (words_in choices.entry)) }
{
    let Some([image, input, out]) = paths else {
        return Err(WordsError::Usage);
    };
    let Some(job) = script_job(cuts, choices) else {
        return Err(WordsError::Usage);
    };
    Ok(Command::Run {
        job,
        paths: Paths {
            image: path_of(alloc, image)?,
            input: path_of(alloc, input)?,
            image_out: path_of(alloc, out)?,
        },
    })
}

fn read_format(alloc: Global, words: &[String]) -> Result<Command, WordsError>
    ensures read { ReadsWords result (format_command (map string_bytes words.now)) }
    ensures memory { IsErrOf result WordsError.NoMemory → list_all may_stand (map string_bytes words.now) ≡ true }
{
    let arguments = read_arguments(alloc, FORMAT_OPTIONS.as_slice(), words)?;
    format_of(alloc, arguments.paths(), arguments.values("segments"))
}

fn read_script(alloc: Global, words: &[String]) -> Result<Command, WordsError>
    ensures read { ReadsWords result (script_command (map string_bytes words.now)) }
    ensures memory { IsErrOf result WordsError.NoMemory → list_all may_stand (map string_bytes words.now) ≡ true }
{
    let arguments = read_arguments(alloc, SCRIPT_OPTIONS.as_slice(), words)?;
    script_of(
        alloc,
        arguments.paths(),
        arguments.values("cut"),
        arguments.values("keep"),
    )
}

fn read_command(alloc: Global, words: &[String]) -> Result<Command, WordsError>
    ensures read { ReadsWords result (command_of (map string_bytes words.now)) }
    ensures memory { IsErrOf result WordsError.NoMemory → MayLackMemory (map string_bytes words.now) }
{
    match words {
        [name, rest @ ..] if name.as_str() == "format" => read_format(alloc, rest),
        [name, rest @ ..] if name.as_str() == "script" => read_script(alloc, rest),
        _ => Err(WordsError::Usage),
    }
}

/// The command of these words: `format OUT [--segments 1..128]`, or `script IMAGE SCRIPT OUT [--cut N] [--keep K]`.
/// Options stand anywhere behind the command's name, each once at most, as `--name=value` or as `--name` and the next
/// word. No word is empty, and one that begins with a minus is an option's. Memory is asked for where the first word is the
/// name of a command and each other word may stand.
pub fn read_words(alloc: Global, words: &[String]) -> Result<Command, WordsError>
    ensures read { ReadsWords result (command_of (map string_bytes words.now)) }
    ensures memory { IsErrOf result WordsError.NoMemory → MayLackMemory (map string_bytes words.now) }
    ensures segments { IfOk result (λ command. HasSegments (job_in command)) }
{
    read_command(alloc, words)
}

/// The job of these words.
pub fn read_job(alloc: Global, words: &[String]) -> Result<Job, WordsError>
    ensures read { ReadsWords result (job_of (map string_bytes words.now)) }
    ensures memory { IsErrOf result WordsError.NoMemory → MayLackMemory (map string_bytes words.now) }
    ensures segments { IfOk result HasSegments }
{
    let Command::Run { job, .. } = read_words(alloc, words)?;
    Ok(job)
}
