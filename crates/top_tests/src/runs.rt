//! Runs of workloads, whose records are checked.

use crate::obeying::{assert_fails, assert_obeys, done, obeyed, obeyed_over};
use run_model::{InputKind, LoadKind, Status};
use std::process::Abort;
use std::sync::Wait;
use std::thread::Threads;
use tact_base::Bytes;
use tact_io::{JournalFail, MemShelf, MemSink};

const WORKED: &[u8] = br#"{"replicas":3,"conits":1,
 "bounds":[[0,0,200,[0,100,100]],[1,0,200,[100,0,100]],[2,0,200,[100,100,0]]],
 "links":[[0,5,7,0],[1,5,7,0],[2,5,7,3]],"settle":4,
 "clients":[
  [0,0,[["write",["add",1,1],[[0,1,1]]],["write",["add",1,1],[[0,1,1]]],["read",1,[[0,200,50,1000000]]]]],
  [0,1,[["reserve",0,5],["held",["add",2,1],[0,5,1]],["release",0]]],
  [1,0,[["write",["shift",1,2,1],[[0,-1,1]]],["lend",0,0,0],["read",2,[[0,200,50,1000000]]]]],
  [2,0,[["write",["put",9,4],[[0,2,1]]],["back",0,0,10],["read",9,[]]]]]}"#;

// A client of replica 0 that asks 1,000 times for what waits until its replica hears of the other.
fn append_reads(rt: &impl Abort, text: &mut Bytes) {
    append(rt, br#"{"replicas":2,"conits":1,"clients":[[0,0,["#, text);
    for read in 0..1_000 {
        if read > 0 {
            append(rt, b",", text);
        }
        append(rt, br#"["read",1,[[0,0,0,0]]]"#, text);
    }
    append(rt, b"]]]}", text);
}

fn append(rt: &impl Abort, part: &[u8], text: &mut Bytes) {
    text.append(part).expect(rt, "room for a part");
}

// Each command line, what is no workload, and the place and the kind of its first fault.
#[rattlefmt::skip]
static NO_WORKLOADS: [(&str, &[u8], u64, LoadKind); 3] = [
    ("tactcli run", br#"{"replicas":3"#, 0, LoadKind::NotJson),
    ("tactcli run --tries 100", br#"{"replicas":3}"#, 0, LoadKind::Shape),
    ("tactcli run --tries=1", br#"{"replicas":2,"conits":1,"clients":[[0,0,[]],[1,8,[]]]}"#, 2, LoadKind::Range),
];

#[test]
fn what_is_no_workload_has_its_place(rt: HostRuntime) {
    for &(line, input, place, kind) in &NO_WORKLOADS {
        let kind = InputKind::Load(kind);
        assert_obeys(&rt, line, input, Status::BadInput { place, kind }, b"");
    }
}

// The line that is said of the record of the worked workload.
fn assert_worked(rt: &impl Abort, said: &[u8]) {
    let line = str::from_utf8(said).expect(rt, "a line");
    assert!(rt;
        line.starts_with("run ") && line.ends_with(" lends 1 backs 1 restarts 0\n"),
        "{line}"
    );
    assert!(rt;
        !line.contains(" sends 0 ") && !line.contains(" takes 0 "),
        "{line}"
    );
}

#[test]
fn the_worked_workload_runs_to_its_end(rt: HostRuntime) {
    let record = done(&rt, "tactcli run --tries 50", WORKED);
    let said = done(&rt, "tactcli check", record.bytes());
    assert_worked(&rt, said.bytes());
}

#[test]
fn a_run_that_is_not_written(rt: HostRuntime) {
    assert_fails(&rt, "tactcli run", WORKED, &[], &[0], Status::WriteFault);
}

// Each entry of the record is of replica 0, at the moment 7.
fn assert_entries(rt: &impl Abort, record: &[u8]) {
    let text = str::from_utf8(record).expect(rt, "a text");
    for line in text.lines() {
        assert_eq!(rt;
            !line.starts_with("e ") || line.starts_with("e 0 7 "),
            true,
            "{line}"
        );
    }
}

fn assert_full<R: Threads + Wait + Sync + AllocGlobal + Abort>(rt: &R, record: &[u8]) {
    assert_entries(rt, record);
    let said = done(rt, "tactcli check", record);
    assert_eq!(rt; said.bytes().starts_with(b"run 20000 calls "), true);
}

#[test]
fn the_run_of_a_full_replica_is_written(rt: HostRuntime) {
    let mut input = Bytes::new(rt.alloc());
    append_reads(&rt, &mut input);
    let (status, sink) = obeyed(&rt, "tactcli run", input.items(), &[], &[]);
    let wanted = Status::Full {
        replica: 0,
        count: 20_000,
        clock: 0,
    };
    assert_eq!(rt; status, wanted);
    assert_full(&rt, sink.bytes());
}

const ONCE: JournalFail = JournalFail {
    call: 0,
    kept: true,
};

const AGAIN: JournalFail = JournalFail {
    call: 1,
    kept: true,
};

// How a run of one write ends over journals of which these calls fail, and what is written.
fn run_over<R: Threads + Wait + Sync + AllocGlobal + Abort>(
    rt: &R,
    fails: &[JournalFail],
) -> (Status, MemSink) {
    let mut shelf = MemShelf::new(rt.alloc(), fails).expect(rt, "a shelf");
    let input = br#"{"replicas":2,"conits":1,"clients":[[0,0,[["write",["put",1,7],[]]]]]}"#;
    obeyed_over(rt, "tactcli run", input, &[], &[], &mut shelf)
}

fn assert_restarted<R: Threads + Wait + Sync + AllocGlobal + Abort>(rt: &R, record: &[u8]) {
    let said = done(rt, "tactcli check", record);
    assert!(rt; said.bytes().ends_with(b" restarts 1\n"));
}

#[test]
fn a_run_whose_journal_fails_once_is_written(rt: HostRuntime) {
    let (status, sink) = run_over(&rt, &[ONCE]);
    assert_eq!(rt; status, Status::Done);
    assert_restarted(&rt, sink.bytes());
}

#[test]
fn a_run_whose_journal_fails_again_writes_nothing(rt: HostRuntime) {
    let (status, sink) = run_over(&rt, &[ONCE, AGAIN]);
    assert_eq!(rt; status, Status::JournalFault { replica: 0 });
    assert_eq!(rt; sink.bytes().is_empty(), true);
}
