//! Allowances: amounts that are reserved on a conit of a node, out with its clients.
ghost use Rattle.std.specs.Prelude.{◌≡◌, ◌≢◌, ◌+◌, ◌-◌, ◌<◌, ◌≤◌, IfErr, OnOk};
ghost use Rattle.replica_lock.specs.Allowances.{IsAllowanceOf, allowance_of};
ghost use Rattle.replica_lock.specs.Sessions.{IsAtNode, IsSessionOf};

use crate::label::Label;
use crate::node::Node;
use crate::session::Session;
use std::marker::Model;
use tact_io::{Gate, Journal};
use weight_ledger::Tally;

/// An amount that is reserved on a conit of a node, a plain count. It may be split, joined, spent and released, go to
/// another thread, and can't be copied or made but by its node. What one that is dropped has stays reserved.
#[derive(Drop)]
pub struct Allowance {
    pub(crate) replica: u32,
    pub(crate) conit: u32,
    pub(crate) amount: u64,
    pub(crate) tally: Tally<Label>,
}

impl Model for Allowance {
    ghost use Rattle.replica_lock.specs.Allowances.{AllowanceView, KeepsAllowance};

    ghost Value = { AllowanceView };

    ghost view = { λ a. record { cell = a.tally.id; replica = a.replica; conit = a.conit; amount = a.amount } };

    ghost invariant = { λ a. KeepsAllowance (view a) a.tally };
}

impl Allowance {
    /// The number of its conit.
    pub fn conit(&self) -> u32
        ensures { result ≡ self.now.conit }
    {
        self.conit
    }

    /// The number of its replica.
    pub fn replica(&self) -> u32
        ensures { result ≡ self.now.replica }
    {
        self.replica
    }

    /// How much it has.
    pub fn amount(&self) -> u64
        ensures { result ≡ self.now.amount }
    {
        self.amount
    }
}

impl<'d, J: Journal, G: Gate> Node<'d, J, G> {
    /// An allowance of nothing on a conit. It makes no entry, takes no memory and waits for nobody.
    pub fn empty(&self, session: &mut Session, conit: u32) -> Allowance
        requires session { IsSessionOf self.now session.old }
        requires conit { conit < self.now.desk.setup.conits }
        ensures session { session.new ≡ session.old }
        ensures empty { result ≡ allowance_of self.now conit 0 }
    {
        self.bare(session, conit)
    }

    // The same of a session that may be in doubt.
    pub(crate) fn bare(&self, session: &mut Session, conit: u32) -> Allowance
        requires session { IsAtNode self.now session.old }
        requires conit { conit < self.now.desk.setup.conits }
        ensures session { session.new ≡ session.old }
        ensures empty { result ≡ allowance_of self.now conit 0 }
    {
        Allowance {
            replica: session.replica,
            conit,
            amount: 0,
            tally: self.cell.split(&mut session.tally, conit, 0),
        }
    }

    /// Moves an amount of an allowance to a new one on the same conit. It makes no entry, takes no memory and waits for
    /// nobody.
    pub fn split_off(&self, allowance: &mut Allowance, amount: u64) -> Allowance
        requires allowance { IsAllowanceOf self.now allowance.old }
        requires amount { amount ≤ allowance.old.amount }
        ensures left { allowance.new ≡ record allowance.old { amount = allowance.old.amount - amount } }
        ensures split { result ≡ record allowance.old { amount = amount } }
        ensures sum { allowance.new.amount + result.amount ≡ allowance.old.amount }
    {
        let tally = self
            .cell
            .split(&mut allowance.tally, allowance.conit, amount);
        allowance.amount -= amount;
        Allowance {
            replica: allowance.replica,
            conit: allowance.conit,
            amount,
            tally,
        }
    }

    /// Moves all that another allowance has to this one. The other comes back exactly where their conits differ, and
    /// both are as they were. It makes no entry, takes no memory and waits for nobody.
    pub fn join(&self, allowance: &mut Allowance, other: Allowance) -> Result<(), Allowance>
        requires allowance { IsAllowanceOf self.now allowance.old }
        requires other { IsAllowanceOf self.now other }
        ensures same { OnOk result (other.conit ≡ allowance.old.conit) }
        ensures joined { OnOk result (allowance.new ≡ record allowance.old { amount = allowance.old.amount + other.amount }) }
        ensures back { IfErr result (λ back. (back ≡ other) × (other.conit ≢ allowance.old.conit) × (allowance.new ≡ allowance.old)) }
    {
        if other.conit != allowance.conit {
            return Err(other);
        }
        let Allowance { amount, tally, .. } = other;
        self.cell.join(&mut allowance.tally, tally);
        self.cell.bound(&mut allowance.tally, allowance.conit);
        allowance.amount += amount;
        Ok(())
    }
}
