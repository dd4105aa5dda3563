ghost use Rattle.std.specs.Prelude.{◌≡◌, IsErrOf, true, map, option_map, string_bytes};
ghost use Rattle.std.specs.List.{list_all};
ghost use Rattle.command_line.specs.Outcome.{Reads, values_in};
ghost use Rattle.command_line.specs.Parts.{has_minus, may_stand, parts_of, path};
ghost use Rattle.command_line.specs.declared.arguments.WordsError.TheVariants as error;

use crate::command::{PATH, command_with};
use clap::ArgMatches;
use clap::error::ErrorKind;
use std::alloc::{AllocError, Global};
use thiserror::Error;

/// Why words are refused.
#[derive(Clone, Copy, Debug, PartialEq, Eq, Error)]
pub enum WordsError {
    #[error("usage")]
    Usage,
    #[error("no memory")]
    NoMemory,
}

impl From<AllocError> for WordsError {
    ghost from_gives = { λ _ made. made ≡ error.NoMemory };

    fn from(_error: AllocError) -> WordsError {
        WordsError::NoMemory
    }
}

/// The paths and options of a command line.
#[derive(Drop)]
pub(crate) struct Arguments<'a> {
    matches: ArgMatches<'a>,
}

impl<'a> Arguments<'a> {
    /// The values of the option with this name, in their order; nothing stands for none of them.
    pub(crate) fn values(&self, name: &str) -> Option<&[&'a str]>
        ensures { option_map (λ values. map (λ value. value.now) values.now) result ≡ values_in self.now name.now }
    {
        self.matches.get_raw(name)
    }

    /// The paths, in their order; nothing stands for none of them.
    pub(crate) fn paths(&self) -> Option<&[&'a str]>
        ensures { option_map (λ values. map (λ value. value.now) values.now) result ≡ values_in self.now path }
    {
        self.values(PATH)
    }
}

/// Whether a word may stand on a command line. It isn't empty; one that begins with a minus is an option's, with a
/// second minus and something behind it.
fn may_stand(word: &str) -> bool
    ensures { result ≡ may_stand word.now }
{
    match word.as_bytes() {
        [] => false,
        [b'-', second, ..] => *second == b'-' && word.len() > 2,
        [first, ..] => *first != b'-',
    }
}

fn may_all_stand(words: &[String]) -> bool
    ensures { result ≡ list_all may_stand (map string_bytes words.now) }
{
    words.iter().all(|word| may_stand(word.as_str()))
}

/// The paths of the words, and the values of options with these names: `--name=value`, or `--name` and the next word,
/// anywhere. Every other word is a path. An option that isn't named, or has no value, is wrong usage. Memory
/// is asked for where each word may stand.
pub(crate) fn read_arguments<'a>(
    alloc: Global,
    options: &'a [&'a str],
    words: &'a [String],
) -> Result<Arguments<'a>, WordsError>
    ensures read { Reads result
        (parts_of (map (λ name. name.now) options.entry.now) (map string_bytes words.entry.now)) }
    ensures memory { IsErrOf result WordsError.NoMemory → list_all may_stand (map string_bytes words.entry.now) ≡ true }
{
    if !may_all_stand(words) {
        return Err(WordsError::Usage);
    }
    let command = command_with(alloc, options)?;
    match command.try_get_matches_from(words) {
        Ok(matches) => Ok(Arguments { matches }),
        Err(error) => match error.kind() {
            ErrorKind::OutOfMemory => Err(WordsError::NoMemory),
            _ => Err(WordsError::Usage),
        },
    }
}
