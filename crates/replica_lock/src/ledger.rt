ghost use Rattle.std.specs.Prelude.{◌≡◌, ◌+◌, ◌*◌, IfOk, replicate};
ghost use Rattle.tact_base.specs.declared.limits.TheConstants.{CLIENTS};
ghost use Rattle.weight_ledger.specs.Amounts.{zeros};
ghost use Rattle.replica_lock.specs.Ledgers.{nothing_owed};

use crate::owe::Owe;
use std::alloc::{AllocError, Global};
use std::marker::Model;
use tact_base::CLIENTS;

/// What tallies outside add up, by place, and by client what is owed to it.
#[derive(Drop)]
pub struct Ledger {
    pub(crate) book: Vec<u64>,
    pub(crate) owes: Vec<Owe>,
}

impl Model for Ledger {
    ghost use Rattle.replica_lock.specs.Ledgers.{LedgerView};

    ghost Value = { LedgerView };

    ghost view = { λ l. record { book = l.book.items; owes = l.owes.items } };
}

impl Ledger {
    /// That of a node that made no entry: five places for each client behind those of the conits. Want of memory is its
    /// only error.
    pub fn new(alloc: Global, conits: u32) -> Result<Ledger, AllocError>
        ensures { IfOk result (λ made. made ≡ record { book = zeros (conits + 5 * CLIENTS); owes = replicate CLIENTS nothing_owed }) }
    {
        let book = vec![in alloc; 0; conits as usize + 5 * CLIENTS as usize]?;
        let owes = vec![in alloc; Owe::nothing(); CLIENTS as usize]?;
        Ok(Ledger { book, owes })
    }
}
