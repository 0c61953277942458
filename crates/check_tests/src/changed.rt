//! A record of a run, of which each entry in turn is left out, doubled or moved behind the last. The lines that are due
//! were reckoned apart, by a plain program that goes by the definitions over whole lists.

use crate::saying::said_of;
use std::alloc::Global;
use std::test::Fail;

const FRONT: &str = "tact 1 2 1\nbound 0 0 10 0 4\nbound 1 0 10 4 0\n";

// An entry of each kind.
const ENTRIES: [&str; 16] = [
    "e 0 0 call 0 0 reserve 0 3 = granted",
    "e 0 0 call 0 1 held add 7 1 0:2:1 = done 0 1",
    "e 0 2 call 0 2 write add 7 1 0:1:1 = done 1 2",
    "e 0 2 call 1 0 write put 7 5 0:4:1 = wait-held 0 1 1 4 4",
    "e 0 2 send 1 0 0 0",
    "e 0 2 lend 1 0 2",
    "e 0 2 send 1 1 0 0",
    "e 1 2 take 0 0",
    "e 1 4 take 0 1",
    "e 1 4 call 0 0 read 7 0:9:9:9 = value 2 3",
    "e 1 4 back 0 0 2",
    "e 1 4 send 0 0 2 0",
    "e 0 6 take 1 0",
    "e 0 6 restart",
    "e 0 6 call 0 3 release 0 1 = released",
    "e 0 6 call 1 1 write put 7 5 0:4:1 = done 2 3",
];

// What is said where an entry is left out.
const LEFT_OUT: [&str; 16] = [
    "bad 0 number 1 0",
    "bad 1 number 2 1",
    "bad 8 reply value 2 3 | value 1 2",
    "bad 14 number 1 0",
    "bad 5 number 1 0",
    "run 15 calls 7 writes 3 waits 1 sends 3 takes 3 lends 0 backs 1 restarts 1",
    "bad 7 no-send 0 1",
    "run 15 calls 7 writes 3 waits 1 sends 3 takes 2 lends 1 backs 1 restarts 1",
    "run 15 calls 7 writes 3 waits 1 sends 3 takes 2 lends 1 backs 1 restarts 1",
    "run 15 calls 6 writes 3 waits 1 sends 3 takes 3 lends 1 backs 1 restarts 1",
    "run 15 calls 7 writes 3 waits 1 sends 3 takes 3 lends 1 backs 0 restarts 1",
    "bad 11 no-send 1 0",
    "bad 14 reply done 2 3 | wait-share 0 1 3 0 4 4",
    "run 15 calls 7 writes 3 waits 1 sends 3 takes 3 lends 1 backs 1 restarts 0",
    "bad 14 reply done 2 3 | wait-held 0 1 1 4 4",
    "run 15 calls 6 writes 2 waits 1 sends 3 takes 3 lends 1 backs 1 restarts 1",
];

// What is said where it stands twice.
const DOUBLED: [&str; 16] = [
    "bad 1 number 0 1",
    "bad 2 number 1 2",
    "bad 3 number 2 3",
    "bad 4 number 0 1",
    "bad 5 number 0 1",
    "run 17 calls 7 writes 3 waits 1 sends 3 takes 3 lends 2 backs 1 restarts 1",
    "bad 7 number 1 2",
    "run 17 calls 7 writes 3 waits 1 sends 3 takes 4 lends 1 backs 1 restarts 1",
    "run 17 calls 7 writes 3 waits 1 sends 3 takes 4 lends 1 backs 1 restarts 1",
    "bad 10 number 0 1",
    "run 17 calls 7 writes 3 waits 1 sends 3 takes 3 lends 1 backs 2 restarts 1",
    "bad 12 number 0 1",
    "run 17 calls 7 writes 3 waits 1 sends 3 takes 4 lends 1 backs 1 restarts 1",
    "run 17 calls 7 writes 3 waits 1 sends 3 takes 3 lends 1 backs 1 restarts 2",
    "bad 15 number 3 4",
    "bad 16 number 1 2",
];

// What is said where it stands behind the last.
const MOVED: [&str; 16] = [
    "bad 0 number 1 0",
    "bad 1 number 2 1",
    "bad 8 reply value 2 3 | value 1 2",
    "bad 14 number 1 0",
    "bad 5 number 1 0",
    "bad 15 moment 2 6",
    "bad 7 no-send 0 1",
    "bad 15 moment 2 4",
    "run 16 calls 7 writes 3 waits 1 sends 3 takes 3 lends 1 backs 1 restarts 1",
    "run 16 calls 7 writes 3 waits 1 sends 3 takes 3 lends 1 backs 1 restarts 1",
    "run 16 calls 7 writes 3 waits 1 sends 3 takes 3 lends 1 backs 1 restarts 1",
    "bad 11 no-send 1 0",
    "bad 14 reply done 2 3 | wait-share 0 1 3 0 4 4",
    "run 16 calls 7 writes 3 waits 1 sends 3 takes 3 lends 1 backs 1 restarts 1",
    "bad 14 reply done 2 3 | wait-held 0 1 1 4 4",
    "run 16 calls 7 writes 3 waits 1 sends 3 takes 3 lends 1 backs 1 restarts 1",
];

// The line that is said of the record with these entries.
fn said_of_entries(alloc: Global, entries: &[&str]) -> Result<String, Fail> {
    let mut rest = String::new(alloc);
    for entry in entries {
        rest.push_str(entry)?;
        rest.push_str("\n")?;
    }
    let end = format!(in alloc; "end {}\n", entries.len())?;
    rest.push_str(&end)?;
    let said = said_of(alloc, FRONT.as_bytes(), rest.as_bytes())?;
    let line = str::from_utf8(said.items()).map_err(|_| "a line of text")?;
    Ok(String::from_str(alloc, line.trim_end())?)
}

#[test]
fn an_entry_is_left_out(rt: HostRuntime) -> Result<(), Fail> {
    for (place, line) in LEFT_OUT.iter().enumerate() {
        let mut entries = Vec::from_slice(rt.alloc(), &ENTRIES)?;
        entries.remove(place);
        assert_eq!(rt;
            said_of_entries(rt.alloc(), &entries)?.as_str(),
            *line,
            "{place}"
        );
    }
    Ok(())
}

#[test]
fn an_entry_is_doubled(rt: HostRuntime) -> Result<(), Fail> {
    for (place, line) in DOUBLED.iter().enumerate() {
        let mut entries = Vec::from_slice(rt.alloc(), &ENTRIES)?;
        entries.insert(place, ENTRIES[place])?;
        assert_eq!(rt;
            said_of_entries(rt.alloc(), &entries)?.as_str(),
            *line,
            "{place}"
        );
    }
    Ok(())
}

#[test]
fn an_entry_is_moved(rt: HostRuntime) -> Result<(), Fail> {
    for (place, line) in MOVED.iter().enumerate() {
        let mut entries = Vec::from_slice(rt.alloc(), &ENTRIES)?;
        let moved = entries.remove(place);
        entries.push(moved)?;
        assert_eq!(rt;
            said_of_entries(rt.alloc(), &entries)?.as_str(),
            *line,
            "{place}"
        );
    }
    Ok(())
}
