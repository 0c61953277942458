//! Each status with its exit and its line.

use crate::{exit_of, status_line};
use run_model::{ByteKind, Cause, InputKind, LineKind, LoadKind, Status, UsageKind};

// Whether a status ends the program with an exit, and is told by a line.
fn tells(status: &Status, exit: u8, line: &[u8]) -> bool {
    exit_of(status) == exit && status_line(status).bytes() == line
}

#[test]
fn statuses(rt: HostRuntime) {
    let bad = Status::Bad {
        entry: 7,
        cause: Cause::Full { replica: 1 },
    };
    let full = Status::Full {
        replica: 0,
        count: 20_000,
        clock: 5,
    };
    let foreign = Status::JournalForeign {
        replica: 4_294_967_295,
        place: 18_446_744_073_709_551_615,
    };
    let cases: [(Status, u8, &[u8]); 9] = [
        (Status::Done, 0, b""),
        (bad, 1, b""),
        (Status::TooLong, 4, b"tactcli: TooLong\n"),
        (Status::ReadFault, 5, b"tactcli: ReadFault\n"),
        (Status::WriteFault, 6, b"tactcli: WriteFault\n"),
        (
            Status::JournalFault { replica: 6 },
            7,
            b"tactcli: JournalFault 6\n",
        ),
        (full, 8, b"tactcli: Full 0 20000 5\n"),
        (Status::NoMemory, 9, b"tactcli: NoMemory\n"),
        (
            foreign,
            10,
            b"tactcli: JournalForeign 4294967295 18446744073709551615\n",
        ),
    ];
    for (status, exit, line) in &cases {
        assert!(rt; tells(status, *exit, line), "of {status:?}");
    }
}

#[test]
fn usages(rt: HostRuntime) {
    let cases: [(UsageKind, &[u8]); 6] = [
        (UsageKind::NoCommand, b"tactcli: Usage NoCommand\n"),
        (
            UsageKind::UnknownCommand,
            b"tactcli: Usage UnknownCommand\n",
        ),
        (UsageKind::ExtraWord, b"tactcli: Usage ExtraWord\n"),
        (UsageKind::MissingNumber, b"tactcli: Usage MissingNumber\n"),
        (UsageKind::BadNumber, b"tactcli: Usage BadNumber\n"),
        (UsageKind::RunWords, b"tactcli: Usage RunWords\n"),
    ];
    for (kind, line) in cases {
        assert!(rt; tells(&Status::Usage(kind), 2, line), "of {kind:?}");
    }
}

#[test]
fn inputs(rt: HostRuntime) {
    let cases: [(u64, InputKind, &[u8]); 31] = [
        (
            10_001,
            InputKind::Line(LineKind::TooManyLines),
            b"tactcli: BadInput 10001 TooManyLines\n",
        ),
        (
            3,
            InputKind::Line(LineKind::LongLine),
            b"tactcli: BadInput 3 LongLine\n",
        ),
        (
            1,
            InputKind::Line(LineKind::BadByte),
            b"tactcli: BadInput 1 BadByte\n",
        ),
        (
            1,
            InputKind::Line(LineKind::NoStart),
            b"tactcli: BadInput 1 NoStart\n",
        ),
        (
            9,
            InputKind::Line(LineKind::SecondStart),
            b"tactcli: BadInput 9 SecondStart\n",
        ),
        (
            1,
            InputKind::Line(LineKind::BadHeader),
            b"tactcli: BadInput 1 BadHeader\n",
        ),
        (
            12,
            InputKind::Line(LineKind::AfterEnd),
            b"tactcli: BadInput 12 AfterEnd\n",
        ),
        (
            2,
            InputKind::Line(LineKind::UnknownWord),
            b"tactcli: BadInput 2 UnknownWord\n",
        ),
        (
            40,
            InputKind::Line(LineKind::Missing),
            b"tactcli: BadInput 40 Missing\n",
        ),
        (
            5,
            InputKind::Line(LineKind::NotNumber),
            b"tactcli: BadInput 5 NotNumber\n",
        ),
        (
            6,
            InputKind::Line(LineKind::OutOfRange),
            b"tactcli: BadInput 6 OutOfRange\n",
        ),
        (
            7,
            InputKind::Line(LineKind::SameReplica),
            b"tactcli: BadInput 7 SameReplica\n",
        ),
        (
            8,
            InputKind::Line(LineKind::Unordered),
            b"tactcli: BadInput 8 Unordered\n",
        ),
        (
            10,
            InputKind::Line(LineKind::Extra),
            b"tactcli: BadInput 10 Extra\n",
        ),
        (
            2,
            InputKind::Line(LineKind::LoansOver),
            b"tactcli: BadInput 2 LoansOver\n",
        ),
        (
            11,
            InputKind::Line(LineKind::LateBound),
            b"tactcli: BadInput 11 LateBound\n",
        ),
        (
            100,
            InputKind::Line(LineKind::NoMessage),
            b"tactcli: BadInput 100 NoMessage\n",
        ),
        (
            99,
            InputKind::Line(LineKind::WrongCount),
            b"tactcli: BadInput 99 WrongCount\n",
        ),
        (
            4,
            InputKind::Line(LineKind::MissingEnd),
            b"tactcli: BadInput 4 MissingEnd\n",
        ),
        (
            0,
            InputKind::Bytes(ByteKind::Short),
            b"tactcli: BadInput 0 Short\n",
        ),
        (
            67_108_864,
            InputKind::Bytes(ByteKind::BadField),
            b"tactcli: BadInput 67108864 BadField\n",
        ),
        (
            17,
            InputKind::Bytes(ByteKind::LoansOver),
            b"tactcli: BadInput 17 LoansOver\n",
        ),
        (
            25,
            InputKind::Bytes(ByteKind::WrongCount),
            b"tactcli: BadInput 25 WrongCount\n",
        ),
        (
            31,
            InputKind::Bytes(ByteKind::AfterEnd),
            b"tactcli: BadInput 31 AfterEnd\n",
        ),
        (
            0,
            InputKind::Load(LoadKind::NotJson),
            b"tactcli: BadInput 0 NotJson\n",
        ),
        (
            0,
            InputKind::Load(LoadKind::Shape),
            b"tactcli: BadInput 0 Shape\n",
        ),
        (
            1,
            InputKind::Load(LoadKind::Range),
            b"tactcli: BadInput 1 Range\n",
        ),
        (
            2,
            InputKind::Load(LoadKind::Twice),
            b"tactcli: BadInput 2 Twice\n",
        ),
        (
            0,
            InputKind::Load(LoadKind::LoansOver),
            b"tactcli: BadInput 0 LoansOver\n",
        ),
        (
            3,
            InputKind::Load(LoadKind::Same),
            b"tactcli: BadInput 3 Same\n",
        ),
        (
            18_446_744_073_709_551_615,
            InputKind::Load(LoadKind::Unordered),
            b"tactcli: BadInput 18446744073709551615 Unordered\n",
        ),
    ];
    for (place, kind, line) in cases {
        let status = Status::BadInput { place, kind };
        assert!(rt; tells(&status, 3, line), "of {kind:?}");
    }
}
