//! The words of `run`, as `clap` reads them.
ghost use Rattle.std.specs.Prelude.{◌≡◌, ◌⊎◌, false, map, string_bytes, IfErr, IfOk};
ghost use Rattle.clap.specs.Words.{found_of, kind_of};
ghost use Rattle.clap.specs.declared.error.kind.ErrorKind.TheVariants.{OutOfMemory};
ghost use Rattle.tact_top.specs.Commands.{IsCommand, TellsCommand, run_of};
ghost use Rattle.tact_top.specs.RunWords.{HasTries, are_run_words};

use crate::words::{Command, Reading, WordsFault};
use clap::builder::ValueParser;
use clap::error::ErrorKind;
use clap::{Arg, ArgAction, ArgMatches, Error};
use run_model::UsageKind;
use std::alloc::Global;

/// A run, by its words, of which the first is its name.
pub(crate) fn run_of(alloc: Global, words: &[String]) -> Result<Command, WordsFault>
    ensures told { TellsCommand (run_of (map string_bytes words.now)) result }
    ensures sound { IfOk result IsCommand }
{
    match parsed(alloc, words) {
        Ok(matches) => {
            let Some(tries) = matches.get_one::<u64>("tries") else {
                unreachable!()
            };
            Ok(Command::Read(Reading::Run { tries }))
        }
        Err(error) if error.kind() == ErrorKind::OutOfMemory => Err(WordsFault::NoMemory),
        Err(_) => Err(WordsFault::Usage(UsageKind::RunWords)),
    }
}

// What the command finds in its words: a number from 1 to 100.
fn parsed<'a>(alloc: Global, words: &'a [String]) -> Result<ArgMatches<'a>, Error>
    ensures ok { IfOk result (λ matches. HasTries (map string_bytes words.now) (found_of matches)) }
    ensures err { IfErr result (λ error. (kind_of error ≡ OutOfMemory)
        ⊎ (are_run_words (map string_bytes words.now) ≡ false)) }
{
    let tries = Arg::new(alloc, "tries")
        .long("tries")
        .action(ArgAction::Set)
        .default_value("20")
        .value_parser(ValueParser::unsigned(1, 100));
    let command = clap::Command::new(alloc, "run")
        .disable_help_flag(true)
        .disable_version_flag(true)
        .arg(tries)?;
    command.try_get_matches_from(words)
}
