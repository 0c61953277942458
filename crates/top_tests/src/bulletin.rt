//! A bulletin board on three replicas, whose record is checked, packed and unpacked.

use crate::obeying::{assert_obeys, done, obeyed};
use run_model::Status;
use std::alloc::Global;
use std::process::Abort;
use std::sync::Wait;
use std::thread::Threads;
use tact_io::MemSink;

// Each two replicas tell each other what they have.
const ROUND: &str = "sync 0 1\nsync 1 2\nsync 0 2\n";

const LAST_LINES: &str = "show 0\nshow 1\nshow 2\nread 2 0 39 0:20:0:0\n";

// What the text of the run ends with.
const LAST_TEXT: &str = "# show 0 have 14 13 13 clock 14 point 14 committed 40 last 0.13 tentative 0
# show 1 have 14 13 13 clock 14 point 14 committed 40 last 0.13 tentative 0
# show 2 have 14 13 13 clock 14 point 14 committed 40 last 0.13 tentative 0
e 2 0 call 0 13 read 39 0:20:0:0 = value 1 40
# need 0 num 0/20 order 0/0 stale 0/0
end 125
";

const VERDICT: &str =
    "run 125 calls 41 writes 40 waits 0 sends 42 takes 42 lends 0 backs 0 restarts 0\n";

// Forty posts, at the replicas in turn, with a round after every sixth and after the last.
fn script(rt: &impl Abort, alloc: Global) -> String {
    let mut script = String::from_str(alloc, "start 3 1 20 10\n").expect(rt, "a script");
    push_posts(rt, alloc, &mut script);
    script
}

fn push_posts(rt: &impl Abort, alloc: Global, script: &mut String) {
    for key in 0..40_u64 {
        push_post(rt, alloc, key, script);
        if key % 6 == 5 || key == 39 {
            script.push_str(ROUND).expect(rt, "room for a round");
        }
    }
    script
        .push_str(LAST_LINES)
        .expect(rt, "room for the last lines");
}

fn push_post(rt: &impl Abort, alloc: Global, key: u64, script: &mut String) {
    let post = format!(in alloc; "write {} 0 put {key} 1 0:1:1\n", key % 3).expect(rt, "a post");
    script.push_str(&post).expect(rt, "room for a post");
}

// The text of its run.
fn played<R: Threads + Wait + Sync + AllocGlobal + Abort>(rt: &R) -> MemSink {
    let script = script(rt, rt.alloc());
    done(rt, "tactcli play", script.as_bytes())
}

// The lines of a text but its comments.
fn without_comments(rt: &impl Abort, alloc: Global, text: &[u8]) -> Vec<u8> {
    let mut kept = Vec::new(alloc);
    push_kept(rt, text, &mut kept);
    kept
}

fn push_kept(rt: &impl Abort, text: &[u8], kept: &mut Vec<u8>) {
    for line in text.split_inclusive(|byte| *byte == b'\n') {
        if !line.starts_with(b"#") {
            kept.extend_from_slice(line).expect(rt, "room for a line");
        }
    }
}

// The verdict on a record of the run.
fn assert_checks<R: Threads + Wait + Sync + AllocGlobal + Abort>(rt: &R, record: &[u8]) {
    assert_obeys(
        rt,
        "tactcli check",
        record,
        Status::Done,
        VERDICT.as_bytes(),
    );
}

#[test]
fn a_board_is_played_and_checked(rt: HostRuntime) {
    let played = played(&rt);
    assert_eq!(rt; played.bytes().ends_with(LAST_TEXT.as_bytes()), true);
    assert_checks(&rt, played.bytes());
}

// Where these reads and writes fail, playing it ends so, and what is written is the front of the text: all of it, or nothing.
fn assert_plays<R: Threads + Wait + Sync + AllocGlobal + Abort>(
    rt: &R,
    script: &[u8],
    whole: &[u8],
    reads: &[u64],
    writes: &[u64],
    wanted: Status,
) {
    let (status, sink) = obeyed(rt, "tactcli play", script, reads, writes);
    assert_eq!(rt; status, wanted, "{reads:?} {writes:?}");
    assert_eq!(rt; whole.starts_with(sink.bytes()), true);
    let written = if status == Status::Done {
        whole.len()
    } else {
        0
    };
    assert_eq!(rt; sink.bytes().len(), written, "{reads:?} {writes:?}");
}

fn assert_all_play<R: Threads + Wait + Sync + AllocGlobal + Abort>(
    rt: &R,
    script: &[u8],
    whole: &[u8],
) {
    assert_plays(rt, script, whole, &[0], &[], Status::ReadFault);
    assert_plays(rt, script, whole, &[1], &[], Status::ReadFault);
    assert_plays(rt, script, whole, &[2], &[], Status::Done);
    assert_plays(rt, script, whole, &[], &[0], Status::WriteFault);
    assert_plays(rt, script, whole, &[], &[1], Status::Done);
}

#[test]
fn a_board_where_a_read_or_a_write_fails(rt: HostRuntime) {
    let script = script(&rt, rt.alloc());
    let whole = done(&rt, "tactcli play", script.as_bytes());
    assert_all_play(&rt, script.as_bytes(), whole.bytes());
}

// What is packed is checked too, and is unpacked to the text without its comments.
fn assert_unpacks<R: Threads + Wait + Sync + AllocGlobal + Abort>(
    rt: &R,
    text: &[u8],
    packed: &[u8],
) {
    assert_checks(rt, packed);
    let kept = without_comments(rt, rt.alloc(), text);
    assert_obeys(rt, "tactcli unpack", packed, Status::Done, &kept);
}

#[test]
fn packed_and_unpacked_it_has_no_comments(rt: HostRuntime) {
    let played = played(&rt);
    let packed = done(&rt, "tactcli pack", played.bytes());
    assert_unpacks(&rt, played.bytes(), packed.bytes());
}
