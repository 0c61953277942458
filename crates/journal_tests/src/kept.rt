//! What a journal gives back is put into a journal again.

ghost use Rattle.std.specs.Prelude.{All, IfOk};
ghost use Rattle.restart_journal.specs.Pieces.{CanBePut};

use crate::journaled::Journaled;
use crate::pieces::{KINDS, of_kind, read, write};
use replica_core::Replica;
use restart_journal::{Recovered, call_piece, put_entry};
use run_model::{Act, Entry};
use std::alloc::Global;
use std::process::Abort;
use std::test::Fail;
use tact_base::{Bytes, NoMemory};

// What a journal with an entry of each kind gives back.
fn recovered(alloc: Global) -> Result<Box<Recovered>, Fail>
    ensures { IfOk result (λ made. All CanBePut made.value.stored) }
{
    let mut journal = Journaled::new(alloc, &[])?;
    fill(&mut journal)?;
    Ok(journal.recovered()?)
}

fn fill(journal: &mut Journaled) -> Result<(), Fail> {
    for place in 0..KINDS {
        journal.put(of_kind(place))?;
    }
    Ok(())
}

// The pieces of entries, one behind the other.
fn put_each(alloc: Global, entries: &[Entry]) -> Result<Bytes, NoMemory>
    requires { All CanBePut entries.now }
{
    let mut out = Bytes::new(alloc);
    for entry in entries {
        put_entry(entry, &mut out)?;
    }
    Ok(out)
}

// Those of a journal with an entry of each kind.
fn bytes_of_kinds(alloc: Global) -> Result<Bytes, NoMemory> {
    let mut out = Bytes::new(alloc);
    for place in 0..KINDS {
        out.append(of_kind(place))?;
    }
    Ok(out)
}

// Whether the entries have just those pieces.
fn are_put(alloc: Global, entries: &[Entry]) -> Result<bool, NoMemory>
    requires { All CanBePut entries.now }
{
    let put = put_each(alloc, entries)?;
    let due = bytes_of_kinds(alloc)?;
    Ok(put.items() == due.items())
}

// One own write stands above what the other vouches for; both writes are seen.
fn assert_state(rt: &impl Abort, replica: &Replica) {
    assert!(rt; replica.count() == KINDS as u64);
    assert!(rt; replica.clock() == 2);
    assert!(rt; replica.get(7) == 2);
}

#[test]
fn put_again(rt: HostRuntime) -> Result<(), Fail> {
    let made = recovered(rt.alloc())?;
    assert_state(&rt, &made.replica);
    assert!(rt; are_put(rt.alloc(), made.stored.items())?);
    Ok(())
}

// Appends the piece of a call, which is made in place, and of any other entry nothing.
fn put_call(entry: &Entry, out: &mut Bytes) -> Result<(), NoMemory>
    requires { CanBePut entry.now }
{
    match &entry.act {
        Act::Call { .. } => out.append(call_piece(entry).bytes()),
        _ => Ok(()),
    }
}

// The pieces of the calls among entries, one behind the other.
fn put_calls(alloc: Global, entries: &[Entry]) -> Result<Bytes, NoMemory>
    requires { All CanBePut entries.now }
{
    let mut out = Bytes::new(alloc);
    for entry in entries {
        put_call(entry, &mut out)?;
    }
    Ok(out)
}

// Whether those pieces are what `put_entry` appends for the write and the read.
fn are_in_place(alloc: Global, entries: &[Entry]) -> Result<bool, NoMemory>
    requires { All CanBePut entries.now }
{
    let put = put_calls(alloc, entries)?;
    let mut due = Bytes::from_slice(alloc, write())?;
    due.append(read())?;
    Ok(put.items() == due.items())
}

#[test]
fn calls_in_place(rt: HostRuntime) -> Result<(), Fail> {
    let made = recovered(rt.alloc())?;
    assert!(rt; are_in_place(rt.alloc(), made.stored.items())?);
    Ok(())
}
