//! The text of entries, and of a record's first and last lines.

use run_model::{
    Act, Config, Entry, Line, Message, Reply, Request, Sums, end_of, head_of, line_of,
};
use std::alloc::Global;
use std::process::Abort;
use tact_base::{Bytes, Covers, Need, Needs, Numbers, Op, SharedWrites, Weight, Weights};

const ADD: Op = Op::Add { key: 7, delta: 1 };

const ONE: Weight = Weight {
    conit: 0,
    nweight: 1,
    oweight: 1,
};

// Prints a copy of an entry. Entries are boxed, since a box is let go in one step.
fn print(rt: &impl Abort, alloc: Global, entry: &Entry, out: &mut Bytes) {
    let copy = entry.clone().expect(rt, "a copy");
    let copy = Box::new(alloc, copy).expect(rt, "a box");
    line_of(&copy, out).expect(rt, "a line");
}

// The line of a copy of replica 0's entry with this act at this moment.
fn line_at(rt: &impl Abort, alloc: Global, moment: u64, act: Act) -> Bytes {
    let entry = Entry {
        replica: 0,
        moment,
        act,
    };
    let entry = Box::new(alloc, entry).expect(rt, "a box");
    let mut out = Bytes::new(alloc);
    print(rt, alloc, &entry, &mut out);
    out
}

// The line of replica 0's entry with this act at this moment is this.
fn assert_line(rt: &(impl Abort + AllocGlobal), moment: u64, act: Act, due: &str) {
    let line = line_at(rt, rt.alloc(), moment, act);
    assert!(rt; line.items() == due.as_bytes(), "{due}");
}

// The line of a call of client 0 at replica 0, its second at the moment 3, that is done is this.
fn assert_request(rt: &(impl Abort + AllocGlobal), request: Request, due: &str) {
    let call = Act::Call {
        client: 0,
        number: 2,
        request,
        reply: Reply::Done { index: 0, stamp: 1 },
    };
    assert_line(rt, 3, call, due);
}

static WRITES: [(Op, &[Weight], &str); 3] = [
    (ADD, &[], "e 0 3 call 0 2 write add 7 1 = done 0 1\n"),
    (
        Op::Put { key: 1, value: -5 },
        &[ONE],
        "e 0 3 call 0 2 write put 1 -5 0:1:1 = done 0 1\n",
    ),
    (
        Op::Shift {
            from: 1,
            to: 2,
            amount: 5,
        },
        &[
            Weight {
                conit: 0,
                nweight: -5,
                oweight: 1,
            },
            Weight {
                conit: 15,
                nweight: 1_000_000,
                oweight: 0,
            },
        ],
        "e 0 3 call 0 2 write shift 1 2 5 0:-5:1 15:1000000:0 = done 0 1\n",
    ),
];

#[test]
fn prints_writes(rt: HostRuntime) {
    for &(op, weights, due) in &WRITES {
        let weights = Weights::new(weights).expect(&rt, "weights");
        assert_request(&rt, Request::Write { weights, op }, due);
    }
}

static READS: [(&[Need], &str); 2] = [
    (&[], "e 0 3 call 0 2 read 1 = done 0 1\n"),
    (
        &[Need {
            conit: 0,
            num: 10,
            order: 9,
            stale: 8,
        }],
        "e 0 3 call 0 2 read 1 0:10:9:8 = done 0 1\n",
    ),
];

#[test]
fn prints_reads(rt: HostRuntime) {
    for &(needs, due) in &READS {
        let needs = Needs::new(needs).expect(&rt, "needs");
        assert_request(&rt, Request::Read { key: 1, needs }, due);
    }
}

#[rattlefmt::skip]
const HELD: [(Request, &str); 3] = [
    (Request::Held { weight: ONE, op: ADD }, "e 0 3 call 0 2 held add 7 1 0:1:1 = done 0 1\n"),
    (Request::Reserve { conit: 0, amount: 10 }, "e 0 3 call 0 2 reserve 0 10 = done 0 1\n"),
    (Request::Release { conit: 0, amount: 1 }, "e 0 3 call 0 2 release 0 1 = done 0 1\n"),
];

#[test]
fn prints_what_is_held(rt: HostRuntime) {
    for (request, due) in &HELD {
        let request = request.clone().expect(&rt, "a copy");
        assert_request(&rt, request, due);
    }
}

// A reply to client 0's first call waits or doesn't, and its line at the moment 0 is this.
fn assert_reply(rt: &(impl Abort + AllocGlobal), reply: &Reply, waits: bool, due: &str) {
    assert!(rt; reply.is_waiting() == waits, "{due}");
    let weights = Weights::new(&[ONE]).expect(rt, "a weight");
    let reply = reply.clone().expect(rt, "a copy");
    let call = Act::Call {
        client: 0,
        number: 1,
        request: Request::Write { weights, op: ADD },
        reply,
    };
    assert_line(rt, 0, call, due);
}

// The same of each reply of a table.
fn assert_replies(rt: &(impl Abort + AllocGlobal), table: &[(Reply, &str)], waits: bool) {
    for (reply, due) in table {
        assert_reply(rt, reply, waits, due);
    }
}

#[rattlefmt::skip]
const FINAL: [(Reply, &str); 5] = [
    (Reply::Done { index: 1, stamp: 2 }, "e 0 0 call 0 1 write add 7 1 0:1:1 = done 1 2\n"),
    (Reply::Granted, "e 0 0 call 0 1 write add 7 1 0:1:1 = granted\n"),
    (Reply::Released, "e 0 0 call 0 1 write add 7 1 0:1:1 = released\n"),
    (Reply::TooHeavy { conit: 0, peer: 1, weight: 6, share: 5 }, "e 0 0 call 0 1 write add 7 1 0:1:1 = too-heavy 0 1 6 5\n"),
    (Reply::NotHeld { conit: 0, held: 0, amount: 1 }, "e 0 0 call 0 1 write add 7 1 0:1:1 = not-held 0 0 1\n"),
];

#[test]
fn prints_final_replies(rt: HostRuntime) {
    assert_replies(&rt, &FINAL, false);
}

#[rattlefmt::skip]
const WAITING: [(Reply, &str); 5] = [
    (Reply::WaitHeld { conit: 0, peer: 1, reserved: 10, weight: 1, share: 10 }, "e 0 0 call 0 1 write add 7 1 0:1:1 = wait-held 0 1 10 1 10\n"),
    (Reply::WaitShare { conit: 0, peer: 2, missing: 5, reserved: 0, weight: 1, share: 5 }, "e 0 0 call 0 1 write add 7 1 0:1:1 = wait-share 0 2 5 0 1 5\n"),
    (Reply::WaitLent { conit: 0, holder: 1, out: 5, total: 10, num: 9 }, "e 0 0 call 0 1 write add 7 1 0:1:1 = wait-lent 0 1 5 10 9\n"),
    (Reply::WaitOrder { conit: 0, replica: 1, tentative: 4, order: 3 }, "e 0 0 call 0 1 write add 7 1 0:1:1 = wait-order 0 1 4 3\n"),
    (Reply::WaitStale { conit: 0, replica: 1, moment: 100, wanted: 101 }, "e 0 0 call 0 1 write add 7 1 0:1:1 = wait-stale 0 1 100 101\n"),
];

#[test]
fn prints_what_is_waited_for(rt: HostRuntime) {
    assert_replies(&rt, &WAITING, true);
}

static VALUES: [(i64, &[i64], &str); 2] = [
    (0, &[], "e 0 0 call 0 1 write add 7 1 0:1:1 = value 0\n"),
    (
        -1,
        &[5, -6],
        "e 0 0 call 0 1 write add 7 1 0:1:1 = value -1 5 -6\n",
    ),
];

#[test]
fn prints_values(rt: HostRuntime) {
    for &(value, sums, due) in &VALUES {
        assert!(rt; sums.len() <= 4);
        let sums = Sums::new(sums);
        assert_reply(&rt, &Reply::Value { value, sums }, false, due);
    }
}

// A message with no writes and no counts.
fn message(rt: &impl Abort, alloc: Global, from: u32, to: u32, number: u64) -> Message {
    Message {
        from,
        to,
        number,
        firsts: Numbers::from_slice(alloc, &[2, 0, 3]).expect(rt, "firsts"),
        haves: Numbers::new(alloc),
        covers: Covers::new(alloc),
        writes: SharedWrites::empty(),
        lent: Numbers::new(alloc),
        returned: Numbers::new(alloc),
    }
}

#[test]
fn prints_messages(rt: HostRuntime) {
    let send = Act::Send {
        message: message(&rt, rt.alloc(), 0, 1, 4),
    };
    assert_line(&rt, 100, send, "e 0 100 send 1 4 2 0 3\n");
    let take = Act::Take {
        message: message(&rt, rt.alloc(), 1, 0, 5),
    };
    assert_line(&rt, 100, take, "e 0 100 take 1 5\n");
}

#[test]
fn prints_loans_and_restarts(rt: HostRuntime) {
    let lend = Act::Lend {
        to: 1,
        conit: 2,
        amount: 6,
    };
    assert_line(&rt, 100, lend, "e 0 100 lend 1 2 6\n");
    let back = Act::Back {
        owner: 2,
        conit: 1,
        amount: 7,
    };
    assert_line(&rt, 100, back, "e 0 100 back 2 1 7\n");
    assert_line(&rt, 100, Act::Restart, "e 0 100 restart\n");
}

// The first lines and the last line of a record of 7 entries.
fn ends(rt: &impl Abort, alloc: Global, config: &Config) -> Bytes {
    let mut out = Bytes::new(alloc);
    head_of(config, &mut out).expect(rt, "a head");
    end_of(7, &mut out).expect(rt, "an end");
    out
}

static ENDS: [(u32, &[u64], &[u64], &str); 2] = [
    (
        1,
        &[10, 10],
        &[0, 5, 5, 0],
        "tact 1 2 1\nbound 0 0 10 0 5\nbound 1 0 10 5 0\nend 7\n",
    ),
    (
        2,
        &[1, 2, 3, 4],
        &[0, 1, 0, 2, 3, 0, 4, 0],
        "tact 1 2 2\nbound 0 0 1 0 1\nbound 0 1 2 0 2\nbound 1 0 3 3 0\nbound 1 1 4 4 0\nend 7\n",
    ),
];

#[test]
fn begins_and_ends_records(rt: HostRuntime) {
    for &(conits, alphas, loans, due) in &ENDS {
        let config = Config::new(rt.alloc(), 2, conits, alphas, loans).expect(&rt, "a setup");
        let out = ends(&rt, rt.alloc(), &config);
        assert!(rt; out.items() == due.as_bytes(), "{due}");
    }
}

#[test]
fn copies_lines(rt: HostRuntime) {
    let firsts = Numbers::from_slice(rt.alloc(), &[1, 2]).expect(&rt, "firsts");
    let line = Line::Send {
        from: 0,
        to: 1,
        firsts,
    };
    let copy = line.clone().expect(&rt, "a copy");
    assert!(rt; copy == line);
}
