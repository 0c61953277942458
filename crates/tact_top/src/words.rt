//! The words of a command.
ghost use Rattle.std.specs.Prelude.{◌≡◌, find, map, nat_eq, string_bytes, IfOk};
ghost use Rattle.std.specs.Cmp.Lexicographic.{pointwise};
ghost use Rattle.std.specs.Option.{option_map};
ghost use Rattle.tact_top.specs.Commands.{IsCommand, TellsCommand, alone, command_of, drawn_by, named, named_of};
ghost use Rattle.tact_top.specs.declared.words.TheConstants.{NAMES};

use crate::run_words::run_of;
use run_model::UsageKind;
use std::alloc::Global;
use tact_base::whole_number;

/// What the words of a command ask for.
#[derive(Clone, Copy, Debug, PartialEq, Eq)]
pub(crate) enum Command {
    /// What reads an input.
    Read(Reading),
    /// What a number draws.
    Draw { drawing: Drawing, number: u64 },
}

/// A command that draws its input by a number.
#[derive(Clone, Copy, Debug, PartialEq, Eq)]
pub(crate) enum Drawing {
    Drill,
    Primary,
    Roam,
    Sales,
}

/// A command that reads an input.
#[derive(Clone, Copy, Debug, PartialEq, Eq)]
pub(crate) enum Reading {
    Play,
    Check,
    Pack,
    Unpack,
    /// A run of a workload, in which each item is tried so often at most.
    Run { tries: u64 },
}

/// Why words ask for nothing: they are no command, or want of memory.
#[derive(Clone, Copy, Debug, PartialEq, Eq)]
pub(crate) enum WordsFault {
    Usage(UsageKind),
    NoMemory,
}

/// What a word names: a command that reads an input, or one that a number draws.
#[derive(Clone, Copy, Debug, PartialEq, Eq)]
pub(crate) enum Name {
    Read(Reading),
    Draw(Drawing),
}

/// The word of each command but `run`.
const NAMES: [(&[u8], Name); 8] = [
    (b"play", Name::Read(Reading::Play)),
    (b"check", Name::Read(Reading::Check)),
    (b"pack", Name::Read(Reading::Pack)),
    (b"unpack", Name::Read(Reading::Unpack)),
    (b"drill", Name::Draw(Drawing::Drill)),
    (b"primary", Name::Draw(Drawing::Primary)),
    (b"roam", Name::Draw(Drawing::Roam)),
    (b"sales", Name::Draw(Drawing::Sales)),
];

/// What the words ask for, of which the first is the program's name.
pub(crate) fn command_of(alloc: Global, words: &[String]) -> Result<Command, WordsFault>
    ensures told { TellsCommand (command_of (map string_bytes words.now)) result }
    ensures sound { IfOk result IsCommand }
{
    let [_, of_command @ ..] = words else {
        return Err(WordsFault::Usage(UsageKind::NoCommand));
    };
    let [first, rest @ ..] = of_command else {
        return Err(WordsFault::Usage(UsageKind::NoCommand));
    };
    if first.as_str() == "run" {
        return run_of(alloc, of_command);
    }
    command_named(first.as_bytes(), rest)
}

// The command of a word that isn't `run`, with the words after it.
fn command_named(word: &[u8], rest: &[String]) -> Result<Command, WordsFault>
    ensures told { TellsCommand (named_of (named word.now) (map string_bytes rest.now)) result }
    ensures sound { IfOk result IsCommand }
{
    match named_of(named(word), rest) {
        Ok(command) => Ok(command),
        Err(kind) => Err(WordsFault::Usage(kind)),
    }
}

// A command that a word names, if it does, with the words after it.
fn named_of(named: Option<Name>, rest: &[String]) -> Result<Command, UsageKind>
    ensures { result ≡ named_of named (map string_bytes rest.now) }
{
    match named {
        Some(Name::Read(reading)) => alone(Command::Read(reading), rest),
        Some(Name::Draw(drawing)) => drawn_by(drawing, rest),
        None => Err(UsageKind::UnknownCommand),
    }
}

// What a word names, if it does.
fn named(word: &[u8]) -> Option<Name>
    ensures { result ≡ named word.now }
{
    found(word)
}

// What stands at a word in the table.
fn found(word: &[u8]) -> Option<Name>
    ensures { result ≡ option_map (λ entry. entry.1) (find (λ entry. pointwise nat_eq word.now entry.0.now) NAMES) }
{
    for (name, command) in NAMES.iter() {
        if word == *name {
            return Some(*command);
        }
    }
    None
}

// What draws by a number, by the words after its name.
fn drawn_by(drawing: Drawing, words: &[String]) -> Result<Command, UsageKind>
    ensures { result ≡ drawn_by drawing (map string_bytes words.now) }
{
    match words {
        [] => Err(UsageKind::MissingNumber),
        [word, rest @ ..] => match whole_number(word.as_bytes(), u64::MAX) {
            Ok(number) => alone(Command::Draw { drawing, number }, rest),
            Err(_) => Err(UsageKind::BadNumber),
        },
    }
}

// A command that no word may follow.
fn alone(command: Command, rest: &[String]) -> Result<Command, UsageKind>
    ensures { result ≡ alone command (map string_bytes rest.now) }
{
    if rest.is_empty() {
        Ok(command)
    } else {
        Err(UsageKind::ExtraWord)
    }
}
