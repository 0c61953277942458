ghost use Rattle.std.specs.Prelude.{◌≡◌, ◌≢◌, ◌≤◌, slice_index, IsTrue};

use crate::purse::Purse;
use std::sync::Wait;
use std::test::Fail;
use std::thread;
use weight_ledger::{Cell, Tally};

const TURNS: u64 = 200;

// One turn at the shared place, which gains 1 in two steps.
fn pay<R: Wait>(rt: &R, cell: &Cell<Purse>, tally: &mut Tally<u64>)
    requires cell { tally.old.id ≡ cell.now.id }
    requires places { (cell.now.shared ≡ 1) × (cell.now.owned ≡ 1) }
    ensures id { tally.new.id ≡ tally.old.id }
    ensures owns { tally.new.owns ≡ tally.old.owns }
{
    let (mut held, mut purse) = cell.lock(rt);
    if purse.paid < u64::MAX - 3 {
        held.raise(tally, 0, 3);
        held.lower(tally, 0, 2);
        purse.paid += 1;
    }
    held.end(purse);
}

// One turn at the owned place, of whose total the owner knows all.
fn count<R: Wait>(rt: &R, cell: &Cell<Purse>, tally: &mut Tally<u64>)
    requires cell { tally.old.id ≡ cell.now.id }
    requires places { (cell.now.shared ≡ 1) × (cell.now.owned ≡ 1) }
    requires owner { slice_index tally.old.owns 1 ≢ 0 }
    ensures id { tally.new.id ≡ tally.old.id }
    ensures owns { tally.new.owns ≡ tally.old.owns }
{
    let (mut held, mut purse) = cell.lock(rt);
    held.agree(tally);
    if purse.turns < u64::MAX - 3 {
        held.raise(tally, 1, 3);
        held.lower(tally, 1, 2);
        purse.turns += 1;
    }
    held.end(purse);
}

// Many turns at the shared place.
fn pay_often<R: Wait>(rt: &R, cell: &Cell<Purse>, mut tally: Tally<u64>) -> Tally<u64>
    requires cell { tally.id ≡ cell.now.id }
    requires places { (cell.now.shared ≡ 1) × (cell.now.owned ≡ 1) }
    ensures { result.id ≡ cell.now.id }
{
    for _ in 0..TURNS {
        pay(rt, cell, &mut tally);
    }
    tally
}

// Many turns at both places.
fn pay_and_count<R: Wait>(rt: &R, cell: &Cell<Purse>, mut tally: Tally<u64>) -> Tally<u64>
    requires cell { tally.id ≡ cell.now.id }
    requires places { (cell.now.shared ≡ 1) × (cell.now.owned ≡ 1) }
    requires owner { slice_index tally.owns 1 ≢ 0 }
    ensures { result.id ≡ cell.now.id }
{
    for _ in 0..TURNS {
        pay(rt, cell, &mut tally);
        count(rt, cell, &mut tally);
    }
    tally
}

// A visit to the value, which changes nothing that a tally has.
fn visit_often<R: Wait>(rt: &R, cell: &Cell<Purse>) {
    for _ in 0..TURNS {
        let (held, mut purse) = cell.lock(rt);
        if purse.visits < u64::MAX {
            purse.visits += 1;
        }
        held.end(purse);
    }
}

// A tally, and whether it was granted something.
#[derive(Drop)]
struct Sold {
    tally: Tally<u64>,
    granted: bool,
}

// Reserves 5 of the 10 that may be reserved or spent, and spends them.
fn sell<R: Wait>(rt: &R, cell: &Cell<Purse>, mut tally: Tally<u64>) -> Sold
    requires cell { tally.id ≡ cell.now.id }
    requires places { (cell.now.shared ≡ 1) × (cell.now.owned ≡ 1) }
    ensures { result.tally.id ≡ cell.now.id }
{
    let granted = reserve(rt, cell, &mut tally);
    if granted {
        spend(rt, cell, &mut tally);
    }
    Sold { tally, granted }
}

fn reserve<R: Wait>(rt: &R, cell: &Cell<Purse>, tally: &mut Tally<u64>) -> bool
    requires cell { tally.old.id ≡ cell.now.id }
    requires places { (cell.now.shared ≡ 1) × (cell.now.owned ≡ 1) }
    ensures id { tally.new.id ≡ tally.old.id }
    ensures granted { IsTrue result → 5 ≤ slice_index tally.new.amounts 0 }
{
    let (mut held, mut purse) = cell.lock(rt);
    let granted = purse.paid <= 5 && purse.visits <= 5 - purse.paid;
    if granted {
        held.raise(tally, 0, 5);
        purse.paid += 5;
    }
    held.end(purse);
    granted
}

fn spend<R: Wait>(rt: &R, cell: &Cell<Purse>, tally: &mut Tally<u64>)
    requires cell { tally.old.id ≡ cell.now.id }
    requires places { (cell.now.shared ≡ 1) × (cell.now.owned ≡ 1) }
    requires amount { 5 ≤ slice_index tally.old.amounts 0 }
    ensures { tally.new.id ≡ tally.old.id }
{
    let (mut held, mut purse) = cell.lock(rt);
    held.agree(tally);
    held.lower(tally, 0, 5);
    purse.paid -= 5;
    if purse.visits <= 5 {
        purse.visits += 5;
    }
    held.end(purse);
}

fn empty_purse() -> Purse
    ensures { result ≡ record { number = 7; paid = 0; turns = 0; visits = 0 } }
{
    Purse {
        number: 7,
        paid: 0,
        turns: 0,
        visits: 0,
    }
}

#[test]
fn totals_are_the_tally_after_two_threads(rt: HostRuntime) -> Result<(), Fail> {
    let Ok((cell, mut all)) = Cell::new(rt.alloc(), empty_purse(), 1, 1) else {
        panic!(rt; "no memory")
    };
    let payer = cell.split(&mut all, 0, 0);
    let owner = cell.split_own(&mut all, &[1]);
    let (payer, owner) = thread::join(
        &rt,
        || pay_often(&rt, &cell, payer),
        || pay_and_count(&rt, &cell, owner),
    );
    cell.join(&mut all, payer);
    cell.join(&mut all, owner);
    let purse = cell.end(&rt, all);
    assert_eq!(rt; [purse.number, purse.paid, purse.turns], [7, 400, 200]);
    Ok(())
}

#[test]
fn four_threads_wait_at_once(rt: HostRuntime) -> Result<(), Fail> {
    let Ok((cell, all)) = Cell::new(rt.alloc(), empty_purse(), 1, 1) else {
        panic!(rt; "no memory")
    };
    let done = thread::map_indices(&rt, rt.alloc(), 4, &|_| visit_often(&rt, &cell));
    let purse = cell.end(&rt, all);
    assert_eq!(rt; (done?.len(), purse.visits), (4, 800));
    Ok(())
}

#[test]
fn two_threads_share_ten(rt: HostRuntime) -> Result<(), Fail> {
    let Ok((cell, mut all)) = Cell::new(rt.alloc(), empty_purse(), 1, 1) else {
        panic!(rt; "no memory")
    };
    let other = cell.split(&mut all, 0, 0);
    let (one, two) = thread::join(&rt, || sell(&rt, &cell, all), || sell(&rt, &cell, other));
    let three = sell(&rt, &cell, two.tally);
    let granted = [one.granted, two.granted, three.granted];
    let purse = cell.end(&rt, three.tally);
    assert_eq!(rt; granted, [true, true, false]);
    assert_eq!(rt; [purse.paid, purse.visits], [0, 10]);
    Ok(())
}
