//! What tallies outside add up, while the value of a node's cell is out.
ghost use Rattle.std.specs.Prelude.{◌≡◌, ◌≢◌, ℕ, ◌+◌, ◌-◌, ◌<◌, ◌≤◌, ◌^◌, length, slice_index, slice_set};
ghost use Rattle.tact_base.specs.declared.limits.TheConstants.{CLIENTS};
ghost use Rattle.replica_lock.specs.Ledgers.{owe_of};

use crate::label::Label;
use crate::ledger::Ledger;
use crate::locked_box::LockedBox;
use crate::owe::Owe;
use std::marker::Model;
use tact_base::CLIENTS;
use tact_io::Journal;
use weight_ledger::{Held, Tally};

/// The totals of a node's cell by place, with the right to give its value back. It can't be dropped.
pub struct Counts<'n, J: Journal> {
    held: Held<'n, LockedBox<J>>,
    ledger: Ledger,
}

impl<'n, J: Journal> Model for Counts<'n, J> {
    ghost use Rattle.std.specs.Prelude.{◌≡◌, ◌+◌, length};
    ghost use Rattle.tact_base.specs.declared.limits.TheConstants.{CLIENTS};
    ghost use Rattle.replica_lock.specs.Nodes.{CountsView};

    ghost Value = { CountsView };

    ghost view = { λ c. record { cell = c.held.cell; book = c.held.book; owes = c.ledger.owes } };

    ghost invariant = { λ c. (c.ledger.book ≡ c.held.book) × (length c.held.book ≡ c.held.cell.shared + c.held.cell.owned) × (length c.ledger.owes ≡ CLIENTS) };
}

impl<'n, J: Journal> Counts<'n, J> {
    /// The totals of a cell whose value is out, by the ledger that came with it.
    pub fn new(held: Held<'n, LockedBox<J>>, ledger: Ledger) -> Self
        requires same { ledger.book ≡ held.book }
        requires sized { length held.book ≡ held.cell.shared + held.cell.owned }
        requires clients { length ledger.owes ≡ CLIENTS }
        ensures { result ≡ record { cell = held.entry.cell; book = held.entry.book; owes = ledger.owes } }
    {
        Counts { held, ledger }
    }

    /// Raises an amount of a tally, and the total there.
    pub fn raise(&mut self, tally: &mut Tally<Label>, place: u32, amount: u64)
        requires cell { tally.old.id ≡ self.old.cell.id }
        requires place { place < self.old.cell.shared + self.old.cell.owned }
        requires owner { self.old.cell.shared ≤ place → slice_index tally.old.owns place ≢ 0 }
        requires room { slice_index self.old.book place + amount < 2 ^ 64 }
        ensures book { self.new ≡ record self.old { book = slice_set self.old.book place (slice_index self.old.book place + amount) } }
        ensures tally { tally.new ≡ record tally.old { amounts = slice_set tally.old.amounts place (slice_index tally.old.amounts place + amount) } }
        ensures mine { slice_index tally.new.amounts place ≡ slice_index tally.old.amounts place + amount }
    {
        self.held.raise(tally, place, amount);
        raise_at(&mut self.ledger.book, place, amount);
    }

    /// Lowers an amount of a tally, and the total there.
    pub fn lower(&mut self, tally: &mut Tally<Label>, place: u32, amount: u64)
        requires cell { tally.old.id ≡ self.old.cell.id }
        requires place { place < self.old.cell.shared + self.old.cell.owned }
        requires owner { self.old.cell.shared ≤ place → slice_index tally.old.owns place ≢ 0 }
        requires amount { amount ≤ slice_index tally.old.amounts place }
        ensures book { self.new ≡ record self.old { book = slice_set self.old.book place (slice_index self.old.book place - amount) } }
        ensures tally { tally.new ≡ record tally.old { amounts = slice_set tally.old.amounts place (slice_index tally.old.amounts place - amount) } }
        ensures mine { slice_index tally.new.amounts place ≡ slice_index tally.old.amounts place - amount }
    {
        self.held.agree(tally);
        self.held.lower(tally, place, amount);
        lower_at(&mut self.ledger.book, place, amount);
    }

    /// What a tally owns has these totals, and no amount of it is above one.
    pub fn agree(&mut self, tally: &mut Tally<Label>)
        requires { tally.old.id ≡ self.old.cell.id }
        ensures book { self.new ≡ self.old }
        ensures tally { tally.new ≡ tally.old }
        ensures owned { (p : ℕ) → slice_index tally.old.owns p ≢ 0 → slice_index self.old.book p ≡ slice_index tally.old.amounts p }
        ensures least { (p : ℕ) → slice_index tally.old.amounts p ≤ slice_index self.old.book p }
    {
        self.held.agree(tally);
    }

    /// What is owed to a client.
    pub fn owe(&self, client: u32) -> Owe
        requires { client < CLIENTS }
        ensures { result ≡ owe_of self.now.owes client }
    {
        self.ledger.owes[client as usize]
    }

    /// Something else is owed to a client.
    pub fn set_owe(&mut self, client: u32, owe: Owe)
        requires { client < CLIENTS }
        ensures { self.new ≡ record self.old { owes = slice_set self.old.owes client owe } }
    {
        self.ledger.owes[client as usize] = owe;
    }

    /// The right to give the value back, and the ledger to go with it.
    pub fn into_parts(self) -> (Held<'n, LockedBox<J>>, Ledger)
        ensures cell { result.0.cell ≡ self.entry.cell }
        ensures book { result.0.book ≡ self.entry.book }
        ensures ledger { result.1 ≡ record { book = self.entry.book; owes = self.entry.owes } }
    {
        let Counts { held, ledger } = self;
        (held, ledger)
    }
}

// A number of a list that is more.
fn raise_at(book: &mut Vec<u64>, place: u32, amount: u64)
    requires place { place < length book.old.items }
    requires room { slice_index book.old.items place + amount < 2 ^ 64 }
    ensures { book.new.items ≡ slice_set book.old.items place (slice_index book.old.items place + amount) }
{
    book[place as usize] += amount;
}

// A number of a list that is less.
fn lower_at(book: &mut Vec<u64>, place: u32, amount: u64)
    requires place { place < length book.old.items }
    requires enough { amount ≤ slice_index book.old.items place }
    ensures { book.new.items ≡ slice_set book.old.items place (slice_index book.old.items place - amount) }
{
    book[place as usize] -= amount;
}
