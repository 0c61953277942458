//! Records that are packed, unpacked and checked, and inputs that are none.

use crate::obeying::assert_obeys;
use run_model::{ByteKind, Cause, InputKind, LineKind, Status};

// A record without entries, and its bytes.
const EMPTY: &[u8] = b"tact 1 2 1
bound 0 0 0 0 0
bound 1 0 0 0 0
end 0
";

const EMPTY_BYTES: &[u8] = b"TACT\x01\x02\x01\
\0\0\0\0\0\0\0\0\0\0\0\0\0\0\0\0\0\0\0\0\0\0\0\0\
\0\0\0\0\0\0\0\0\0\0\0\0\0\0\0\0\0\0\0\0\0\0\0\0\
\xff\0\0\0\0\0\0\0\0";

// These, where the count of entries is 1, with one byte more, and with one less.
const MISCOUNTED: &[u8] = b"TACT\x01\x02\x01\
\0\0\0\0\0\0\0\0\0\0\0\0\0\0\0\0\0\0\0\0\0\0\0\0\
\0\0\0\0\0\0\0\0\0\0\0\0\0\0\0\0\0\0\0\0\0\0\0\0\
\xff\0\0\0\0\0\0\0\x01";

const LONGER: &[u8] = b"TACT\x01\x02\x01\
\0\0\0\0\0\0\0\0\0\0\0\0\0\0\0\0\0\0\0\0\0\0\0\0\
\0\0\0\0\0\0\0\0\0\0\0\0\0\0\0\0\0\0\0\0\0\0\0\0\
\xff\0\0\0\0\0\0\0\0\0";

const SHORTER: &[u8] = b"TACT\x01\x02\x01\
\0\0\0\0\0\0\0\0\0\0\0\0\0\0\0\0\0\0\0\0\0\0\0\0\
\0\0\0\0\0\0\0\0\0\0\0\0\0\0\0\0\0\0\0\0\0\0\0\0\
\xff\0\0\0\0\0\0\0";

const EMPTY_LINE: &[u8] =
    b"run 0 calls 0 writes 0 waits 0 sends 0 takes 0 lends 0 backs 0 restarts 0\n";

// The same record with comments, blank lines, more spaces and leading zeros.
const LOOSE: &[u8] = b"# a record
tact 1  02 1

bound 0 0 0 0 0
 bound 1 0 0 00 0
# its end
end 000
";

const WRONG_COUNT: &[u8] = b"tact 1 2 1
bound 0 0 0 0 0
bound 1 0 0 0 0
end 1
";

const NO_SEND: &[u8] = b"tact 1 2 1
bound 0 0 10 0 10
bound 1 0 10 10 0
e 1 0 take 0 0
end 1
";

// Each command, what it reads and what it writes.
static FORMS: [(&str, &[u8], &[u8]); 5] = [
    ("tactcli pack", EMPTY, EMPTY_BYTES),
    ("tactcli pack", LOOSE, EMPTY_BYTES),
    ("tactcli unpack", EMPTY_BYTES, EMPTY),
    ("tactcli check", EMPTY, EMPTY_LINE),
    ("tactcli check", EMPTY_BYTES, EMPTY_LINE),
];

#[test]
fn forms_of_a_record(rt: HostRuntime) {
    for &(line, input, wanted) in &FORMS {
        assert_obeys(&rt, line, input, Status::Done, wanted);
    }
}

#[test]
fn a_take_without_a_send(rt: HostRuntime) {
    let cause = Cause::NoSend { from: 0, number: 0 };
    let wanted = Status::Bad { entry: 0, cause };
    assert_obeys(
        &rt,
        "tactcli check",
        NO_SEND,
        wanted,
        b"bad 0 no-send 0 0\n",
    );
}

// Each command, what it reads, and the place and the kind of the first fault.
#[rattlefmt::skip]
static NO_RECORDS: [(&str, &[u8], u64, InputKind); 11] = [
    ("tactcli pack", b"", 1, InputKind::Line(LineKind::BadHeader)),
    ("tactcli pack", WRONG_COUNT, 4, InputKind::Line(LineKind::WrongCount)),
    ("tactcli pack", EMPTY_BYTES, 1, InputKind::Line(LineKind::BadByte)),
    ("tactcli unpack", b"", 0, InputKind::Bytes(ByteKind::Short)),
    ("tactcli unpack", EMPTY, 0, InputKind::Bytes(ByteKind::BadField)),
    ("tactcli unpack", SHORTER, 63, InputKind::Bytes(ByteKind::Short)),
    ("tactcli unpack", MISCOUNTED, 56, InputKind::Bytes(ByteKind::WrongCount)),
    ("tactcli check", LONGER, 64, InputKind::Bytes(ByteKind::AfterEnd)),
    ("tactcli check", b"", 1, InputKind::Line(LineKind::BadHeader)),
    ("tactcli check", b"T", 1, InputKind::Bytes(ByteKind::Short)),
    ("tactcli check", b"t", 1, InputKind::Line(LineKind::BadHeader)),
];

#[test]
fn inputs_that_are_no_records(rt: HostRuntime) {
    for &(line, input, place, kind) in &NO_RECORDS {
        assert_obeys(&rt, line, input, Status::BadInput { place, kind }, b"");
    }
}
