//! The words of a command.

use crate::obeying::assert_obeys;
use run_model::{Status, UsageKind};

static LINES: [(&str, UsageKind); 34] = [
    ("", UsageKind::NoCommand),
    ("tactcli", UsageKind::NoCommand),
    ("tactcli plays", UsageKind::UnknownCommand),
    ("tactcli --help", UsageKind::UnknownCommand),
    ("tactcli play x", UsageKind::ExtraWord),
    ("tactcli check x", UsageKind::ExtraWord),
    ("tactcli pack x", UsageKind::ExtraWord),
    ("tactcli unpack x", UsageKind::ExtraWord),
    ("tactcli drill", UsageKind::MissingNumber),
    ("tactcli drill 1a", UsageKind::BadNumber),
    ("tactcli drill -1", UsageKind::BadNumber),
    ("tactcli drill 18446744073709551616", UsageKind::BadNumber),
    ("tactcli drill 1a 1", UsageKind::BadNumber),
    ("tactcli drill 1 1", UsageKind::ExtraWord),
    ("tactcli primary", UsageKind::MissingNumber),
    ("tactcli primary x", UsageKind::BadNumber),
    ("tactcli primary x 1", UsageKind::BadNumber),
    ("tactcli primary 1 1", UsageKind::ExtraWord),
    ("tactcli roam", UsageKind::MissingNumber),
    ("tactcli roam x", UsageKind::BadNumber),
    ("tactcli roam x 1", UsageKind::BadNumber),
    ("tactcli roam 1 1", UsageKind::ExtraWord),
    ("tactcli sales", UsageKind::MissingNumber),
    ("tactcli sales x", UsageKind::BadNumber),
    ("tactcli sales x 1", UsageKind::BadNumber),
    ("tactcli sales 1 1", UsageKind::ExtraWord),
    ("tactcli run --tries 0", UsageKind::RunWords),
    ("tactcli run --tries 101", UsageKind::RunWords),
    ("tactcli run --tries 3 --tries 4", UsageKind::RunWords),
    ("tactcli run --tries", UsageKind::RunWords),
    ("tactcli run --tries x", UsageKind::RunWords),
    ("tactcli run --help", UsageKind::RunWords),
    ("tactcli run --version", UsageKind::RunWords),
    ("tactcli run x", UsageKind::RunWords),
];

#[test]
fn each_command_line_has_its_status(rt: HostRuntime) {
    for &(line, wanted) in &LINES {
        assert_obeys(&rt, line, b"start 2 1 0 0\n", Status::Usage(wanted), b"");
    }
}
