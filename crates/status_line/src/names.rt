//! The names that kinds have in the line of a status.
ghost use Rattle.std.specs.Prelude.{◌≡◌, ◌≤◌, length};
ghost use Rattle.status_line.specs.Names.{usage_name, line_name, byte_name, load_name, input_name};

use run_model::{ByteKind, InputKind, LineKind, LoadKind, UsageKind};

// Why words are no command.
pub(crate) fn usage_name(kind: UsageKind) -> &'static [u8]
    ensures name { result.now ≡ usage_name kind }
    ensures short { length result.now ≤ 14 }
{
    match kind {
        UsageKind::NoCommand => b"NoCommand",
        UsageKind::UnknownCommand => b"UnknownCommand",
        UsageKind::ExtraWord => b"ExtraWord",
        UsageKind::MissingNumber => b"MissingNumber",
        UsageKind::BadNumber => b"BadNumber",
        UsageKind::RunWords => b"RunWords",
    }
}

// The fault of an input, by what was read.
pub(crate) fn input_name(kind: InputKind) -> &'static [u8]
    ensures name { result.now ≡ input_name kind }
    ensures short { length result.now ≤ 14 }
{
    match kind {
        InputKind::Line(kind) => line_name(kind),
        InputKind::Bytes(kind) => byte_name(kind),
        InputKind::Load(kind) => load_name(kind),
    }
}

// The fault of a line of a text.
fn line_name(kind: LineKind) -> &'static [u8]
    ensures name { result.now ≡ line_name kind }
    ensures short { length result.now ≤ 14 }
{
    match kind {
        LineKind::TooManyLines => b"TooManyLines",
        LineKind::LongLine => b"LongLine",
        LineKind::BadByte => b"BadByte",
        LineKind::NoStart => b"NoStart",
        LineKind::SecondStart => b"SecondStart",
        LineKind::BadHeader => b"BadHeader",
        LineKind::AfterEnd => b"AfterEnd",
        LineKind::UnknownWord => b"UnknownWord",
        LineKind::Missing => b"Missing",
        LineKind::NotNumber => b"NotNumber",
        LineKind::OutOfRange => b"OutOfRange",
        LineKind::SameReplica => b"SameReplica",
        LineKind::Unordered => b"Unordered",
        LineKind::Extra => b"Extra",
        LineKind::LoansOver => b"LoansOver",
        LineKind::LateBound => b"LateBound",
        LineKind::NoMessage => b"NoMessage",
        LineKind::WrongCount => b"WrongCount",
        LineKind::MissingEnd => b"MissingEnd",
    }
}

// The fault of a record in bytes.
fn byte_name(kind: ByteKind) -> &'static [u8]
    ensures name { result.now ≡ byte_name kind }
    ensures short { length result.now ≤ 14 }
{
    match kind {
        ByteKind::Short => b"Short",
        ByteKind::BadField => b"BadField",
        ByteKind::LoansOver => b"LoansOver",
        ByteKind::WrongCount => b"WrongCount",
        ByteKind::AfterEnd => b"AfterEnd",
    }
}

// The fault of a workload.
fn load_name(kind: LoadKind) -> &'static [u8]
    ensures name { result.now ≡ load_name kind }
    ensures short { length result.now ≤ 14 }
{
    match kind {
        LoadKind::NotJson => b"NotJson",
        LoadKind::Shape => b"Shape",
        LoadKind::Range => b"Range",
        LoadKind::Twice => b"Twice",
        LoadKind::LoansOver => b"LoansOver",
        LoadKind::Same => b"Same",
        LoadKind::Unordered => b"Unordered",
    }
}
