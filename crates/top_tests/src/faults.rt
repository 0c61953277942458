//! A source and a sink that fail in mid-stream.

use crate::obeying::assert_fails;
use run_model::Status;

const RECORD: &[u8] = b"tact 1 2 1
bound 0 0 0 0 0
bound 1 0 0 0 0
end 0
";

#[test]
fn the_outside_is_named(rt: HostRuntime) {
    assert_fails(&rt, "tactcli check", RECORD, &[1], &[], Status::ReadFault);
    assert_fails(&rt, "tactcli check", RECORD, &[], &[0], Status::WriteFault);
    assert_fails(&rt, "tactcli pack", RECORD, &[1], &[], Status::ReadFault);
    assert_fails(&rt, "tactcli pack", RECORD, &[], &[0], Status::WriteFault);
    // A fault goes before what is wrong with what was read.
    assert_fails(&rt, "tactcli unpack", RECORD, &[1], &[], Status::ReadFault);
    // A drill reads nothing.
    assert_fails(
        &rt,
        "tactcli drill 0",
        RECORD,
        &[0],
        &[0],
        Status::WriteFault,
    );
}
