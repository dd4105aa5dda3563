ghost use Rattle.std.specs.Prelude.{◌≡◌, IfOk, false, map};
ghost use Rattle.clap.specs.Words.{app_of, rule_of};
ghost use Rattle.command_line.specs.Command.{app_for, option_rule, path_rule};

use clap::{Arg, ArgAction, Command};
use std::alloc::{AllocError, Global};

/// What the paths are called.
pub(crate) const PATH: &str = "path";

fn path_argument<'a>(alloc: Global) -> Arg<'a>
    ensures rule { rule_of result ≡ path_rule }
    ensures local { result.global ≡ false }
{
    Arg::new(alloc, PATH).action(ArgAction::Append)
}

fn option_argument<'a>(alloc: Global, name: &'a str) -> Arg<'a>
    ensures rule { rule_of result ≡ option_rule name.entry.now }
    ensures local { result.global ≡ false }
{
    Arg::new(alloc, name).long(name).action(ArgAction::Append)
}

/// A command with paths and options of these names, and nothing else.
pub(crate) fn command_with<'a>(
    alloc: Global,
    options: &'a [&'a str],
) -> Result<Command<'a>, AllocError>
    ensures { IfOk result (λ command. app_of command ≡ app_for (map (λ name. name.now) options.entry.now)) }
{
    let mut command = Command::new(alloc, "sofort")
        .no_binary_name(true)
        .disable_help_flag(true)
        .disable_version_flag(true)
        .arg(path_argument(alloc))?;
    for name in options {
        command = command.arg(option_argument(alloc, name))?;
    }
    Ok(command)
}
