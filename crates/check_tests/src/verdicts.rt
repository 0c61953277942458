//! What is said of records, each given as text.

use crate::saying::said_of;
use std::test::Fail;
use tact_base::Bytes;

// Two replicas and a conit: each lends all that it has to the other.
const PAIR: &[u8] = b"tact 1 2 1\nbound 0 0 10 0 10\nbound 1 0 10 10 0\n";

// Three replicas and a conit, and nothing lent.
const THREE: &[u8] = b"tact 1 3 1\nbound 0 0 0 0 0 0\nbound 1 0 0 0 0 0\nbound 2 0 0 0 0 0\n";

// An entry of each kind, one of them a call that waits.
const EACH_KIND: &[u8] = b"e 0 0 call 0 0 write add 7 1 0:5:1 = done 0 1\n\
    e 0 0 call 0 1 write add 7 1 0:6:1 = wait-share 0 1 5 0 6 10\n\
    e 0 1 send 1 0 0 0\n\
    e 1 2 take 0 0\n\
    e 1 3 back 0 0 10\n\
    e 1 3 send 0 0 1 0\n\
    e 0 4 take 1 0\n\
    e 0 4 lend 1 0 1\n\
    e 1 5 restart\n\
    end 9\n";

#[test]
fn records_of_runs(rt: HostRuntime) -> Result<(), Fail> {
    let cases: [(&[u8], &[u8], &[u8]); 2] = [
        (
            PAIR,
            b"end 0\n",
            b"run 0 calls 0 writes 0 waits 0 sends 0 takes 0 lends 0 backs 0 restarts 0\n",
        ),
        (
            PAIR,
            EACH_KIND,
            b"run 9 calls 2 writes 1 waits 1 sends 2 takes 2 lends 1 backs 1 restarts 1\n",
        ),
    ];
    for (front, rest, line) in cases {
        let said = said_of(rt.alloc(), front, rest)?;
        assert_eq!(rt; said.items(), line);
    }
    Ok(())
}

#[test]
fn each_cause(rt: HostRuntime) -> Result<(), Fail> {
    let cases: [(&[u8], &[u8], &[u8]); 11] = [
        (
            PAIR,
            b"e 0 5 restart\ne 0 4 restart\nend 2\n",
            b"bad 1 moment 4 5\n",
        ),
        (
            PAIR,
            b"e 0 0 call 0 1 release 0 0 = released\nend 1\n",
            b"bad 0 number 1 0\n",
        ),
        (PAIR, b"e 0 0 send 1 1 0 0\nend 1\n", b"bad 0 number 1 0\n"),
        (PAIR, b"e 0 0 send 1 0 1 3\nend 1\n", b"bad 0 first 0 1 0\n"),
        (PAIR, b"e 0 0 send 1 0 0 3\nend 1\n", b"bad 0 first 1 3 0\n"),
        (PAIR, b"e 1 0 take 0 0\nend 1\n", b"bad 0 no-send 0 0\n"),
        (
            THREE,
            b"e 0 0 send 1 0 0 0 0\ne 2 0 take 0 0\nend 2\n",
            b"bad 1 not-addressed 1\n",
        ),
        (PAIR, b"e 0 0 lend 1 0 1\nend 1\n", b"bad 0 home 1 0\n"),
        (PAIR, b"e 1 0 back 0 0 11\nend 1\n", b"bad 0 free 11 10\n"),
        (
            PAIR,
            b"e 0 0 call 0 0 write add 7 1 0:11:1 = done 0 1\nend 1\n",
            b"bad 0 reply done 0 1 | too-heavy 0 1 11 10\n",
        ),
        (
            PAIR,
            b"e 0 0 call 0 0 read 7 0:10:9:9 = value -1 2\nend 1\n",
            b"bad 0 reply value -1 2 | value 0 0\n",
        ),
    ];
    for (front, rest, line) in cases {
        let said = said_of(rt.alloc(), front, rest)?;
        assert_eq!(rt; said.items(), line);
    }
    Ok(())
}

// Of several tests that fail the first is named, and of several entries the first.
#[test]
fn the_first_cause(rt: HostRuntime) -> Result<(), Fail> {
    let cases: [(&[u8], &[u8]); 4] = [
        (
            b"e 0 5 restart\ne 0 4 call 0 7 release 0 0 = granted\nend 2\n",
            b"bad 1 moment 4 5\n",
        ),
        (
            b"e 0 0 call 0 1 release 0 0 = granted\nend 1\n",
            b"bad 0 number 1 0\n",
        ),
        (b"e 0 0 send 1 2 1 0\nend 1\n", b"bad 0 number 2 0\n"),
        (
            b"e 1 9 take 0 0\ne 1 8 take 0 0\ne 0 0 lend 1 0 1\nend 3\n",
            b"bad 0 no-send 0 0\n",
        ),
    ];
    for (rest, line) in cases {
        let said = said_of(rt.alloc(), PAIR, rest)?;
        assert_eq!(rt; said.items(), line);
    }
    Ok(())
}

#[test]
fn a_replica_that_is_full(rt: HostRuntime) -> Result<(), Fail> {
    let mut entries = Bytes::new(rt.alloc());
    for _ in 0..20_001 {
        entries.append(b"e 1 0 restart\n")?;
    }
    entries.append(b"end 20001\n")?;
    let said = said_of(rt.alloc(), PAIR, entries.items())?;
    assert_eq!(rt; said.items(), b"bad 20000 full 1\n".as_slice());
    Ok(())
}
