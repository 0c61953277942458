//! The budgets of replica 0 of a setup. They carry what the tests know of them, so that none of them says it again.

ghost use Rattle.std.specs.Prelude.{◌≡◌, ◌<◌};

use run_model::Config;
use split_budget::{Budget, Budgets, Fit};
use std::alloc::Global;
use std::process::Abort;
use tact_base::{Numbers, Weight, Weights};

/// The budgets of replica 0 of a setup, with the counts of its replicas and of its conits. They are boxed, since a box
/// is let go in one step.
#[derive(Drop)]
pub(crate) struct Opened {
    replicas: u32,
    conits: u32,
    budgets: Budgets,
    ghost sized: { budgets.setup.replicas ≡ replicas },
    ghost on_conits: { budgets.setup.conits ≡ conits },
    ghost of_zero: { budgets.replica ≡ 0 },
}

/// What is read of a peer on a conit: of the peer's bound first, and then of replica 0's.
#[derive(Clone, Copy, Debug, PartialEq, Eq)]
pub(crate) struct Readings {
    pub share: u64,
    pub missing: (u64, u64),
    pub free: u64,
    pub returned: u64,
    pub reserved: u64,
    pub home: u64,
    pub lent: u64,
    pub out: u64,
}

impl Opened {
    /// At the opening of a setup without a fault.
    pub(crate) fn new(
        rt: &impl Abort,
        alloc: Global,
        replicas: u32,
        conits: u32,
        alphas: &[u64],
        loans: &[u64],
    ) -> Box<Opened>
        requires { 0 < replicas }
    {
        assert!(rt; Config::new(alloc, replicas, conits, alphas, loans).is_ok());
        let budget = Budget {
            replica: 0,
            replicas,
            conits,
            alphas: Numbers::from_slice(alloc, alphas).expect(rt, "alphas"),
            loans: Numbers::from_slice(alloc, loans).expect(rt, "loans"),
        };
        let opened = Opened {
            replicas,
            conits,
            budgets: Budgets::new(alloc, &budget).expect(rt, "budgets"),
        };
        Box::new(alloc, opened).expect(rt, "a box")
    }

    /// Of three, on one conit: each allows 10, and lends 5 to each other.
    pub(crate) fn of_three(rt: &impl Abort, alloc: Global) -> Box<Opened> {
        Opened::new(rt, alloc, 3, 1, &[10; 3], &[0, 5, 5, 5, 0, 5, 5, 5, 0])
    }

    /// Of two, on two conits: on conit 0 each allows 10, and lends `loan`, and on conit 1 it allows 7, and lends 1.
    pub(crate) fn of_two(rt: &impl Abort, alloc: Global, loan: u64) -> Box<Opened> {
        let loans = [0, loan, 0, 1, loan, 0, 1, 0];
        Opened::new(rt, alloc, 2, 2, &[10, 7, 10, 7], &loans)
    }

    /// What is read of a peer on a conit.
    pub(crate) fn read(&self, rt: &impl Abort, peer: u32, conit: u32) -> Readings {
        assert!(rt; 0 < peer && peer < self.replicas && conit < self.conits);
        let budgets = &self.budgets;
        Readings {
            share: budgets.share(peer, conit),
            missing: budgets.missing(peer, conit),
            free: budgets.free(peer, conit),
            returned: budgets.returned(peer, conit),
            reserved: budgets.reserved(conit),
            home: budgets.home(conit),
            lent: budgets.lent(peer, conit),
            out: budgets.out(peer, conit),
        }
    }

    /// The answer to a weight.
    pub(crate) fn test(&self, rt: &impl Abort, weight: Weight) -> Fit {
        assert!(rt; weight.conit < self.conits);
        self.budgets.test(weight)
    }

    /// The answer to a weight, of which a write is added where it fits.
    pub(crate) fn accept(&mut self, rt: &impl Abort, weight: Weight) -> Fit {
        assert!(rt; weight.conit < self.conits);
        self.budgets.reserve_room(1).expect(rt, "room for one");
        let weights = Weights::new(&[weight]).expect(rt, "a weight");
        let fit = self.budgets.test(weight);
        if fit == Fit::Fits {
            self.budgets.add(&weights);
        }
        fit
    }

    /// The answer to an amount, which is held where it fits.
    pub(crate) fn hold(&mut self, rt: &impl Abort, conit: u32, amount: u64) -> Fit {
        assert!(rt; conit < self.conits);
        let fit = self.budgets.test_reserve(conit, amount);
        if fit == Fit::Fits {
            self.budgets.hold(conit, amount);
        }
        fit
    }

    /// Frees an amount where so much is held: whether it is.
    pub(crate) fn free_held(&mut self, rt: &impl Abort, conit: u32, amount: u64) -> bool {
        assert!(rt; conit < self.conits);
        if amount > self.budgets.reserved(conit) {
            return false;
        }
        self.budgets.free_held(conit, amount);
        true
    }

    /// Spends a weight where so much is held: whether it is.
    pub(crate) fn spend(&mut self, rt: &impl Abort, weight: Weight) -> bool {
        assert!(rt; weight.conit < self.conits);
        self.budgets.reserve_room(1).expect(rt, "room for one");
        if weight.nweight.unsigned_abs() > self.budgets.reserved(weight.conit) {
            return false;
        }
        self.budgets.spend(weight);
        true
    }

    /// A peer has so many of the writes.
    pub(crate) fn acked(&mut self, rt: &impl Abort, peer: u32, count: u64) {
        assert!(rt; 0 < peer && peer < self.replicas);
        self.budgets.acked(peer, count);
    }

    /// Lends replica 1 an amount on conit 0.
    pub(crate) fn lend(&mut self, rt: &impl Abort, amount: u8) {
        let amount = u64::from(amount);
        assert!(rt; 1 < self.replicas && 0 < self.conits);
        assert!(rt; amount <= self.budgets.home(0) && self.budgets.lent(1, 0) <= 1000);
        self.budgets.lend(1, 0, amount);
    }

    /// Hears of all that replica 1 gave back on conit 0.
    pub(crate) fn note_returned(&mut self, rt: &impl Abort, told: u64) {
        assert!(rt; 1 < self.replicas && 0 < self.conits);
        assert!(rt; told <= self.budgets.lent(1, 0));
        self.budgets.note_returned(1, 0, told);
    }

    /// Gives back to replica 1 an amount on conit 0.
    pub(crate) fn give_back(&mut self, rt: &impl Abort, amount: u64) {
        assert!(rt; 1 < self.replicas && 0 < self.conits);
        assert!(rt; amount <= self.budgets.free(1, 0));
        self.budgets.give_back(1, 0, amount);
    }

    /// Hears of all that replica 1 lent on conit 0.
    pub(crate) fn note_lent(&mut self, rt: &impl Abort, told: u64) {
        assert!(rt; 1 < self.replicas && 0 < self.conits);
        self.budgets.note_lent(1, 0, told);
    }
}
