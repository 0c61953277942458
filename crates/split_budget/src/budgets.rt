ghost use Rattle.std.specs.Prelude.{◌≡◌, ◌+◌, ◌-◌, ◌<◌, ◌≤◌, [], ◌∷◌, ◌++◌, All, IfOk, OnOk, OnErr, IsOk, map, max, slice_index, slice_set, unsigned_abs};
ghost use Rattle.tact_base.specs.Setup.{place_of, conits_of};
ghost use Rattle.tact_base.specs.declared.fit.Fit.TheVariants.{Fits};
ghost use Rattle.tact_base.specs.declared.limits.TheConstants.{LENT_MAX};
ghost use Rattle.split_budget.specs.Budgets.{IsBudget, setup_of, opening, IsPeer, reserved_on, lent_to, returned_by};
ghost use Rattle.split_budget.specs.Budgets.{lent_by, returned_to, share, out, home, missing_plus, missing_minus, free};
ghost use Rattle.split_budget.specs.Budgets.{with_given_up};
ghost use Rattle.split_budget.specs.Kept.{KeepsBudgets};
ghost use Rattle.split_budget.specs.Answers.{fit_by, answer, missing_on, weight_answer, reserve_answer};

use crate::opening::{copy, lent, lent_known};
use crate::own_writes::OwnWrites;
use crate::side::Side;
use crate::{Budget, Fit};
use std::alloc::Global;
use std::marker::Model;
use tact_base::{NoMemory, Weight, Weights};

/// The budgets of one replica. It holds a share of each peer's bound on each conit, and accepts own writes
/// as long as what the peer may not have seen of them stays within it, of either sign. Of its own bound it
/// lends shares to its peers. Contracts see plain lists of what was accepted, told, lent and given back.
#[derive(Debug, Drop)]
pub struct Budgets {
    config: Budget,
    own: OwnWrites,
    reserved: Vec<u64>,
    lent: Vec<u64>,
    lent_known: Vec<u64>,
    returned: Vec<u64>,
    returned_known: Vec<u64>,
}

impl Model for Budgets {
    ghost use Rattle.split_budget.specs.Budgets.{BudgetState, setup_of};

    ghost Value = { BudgetState };

    ghost use Rattle.split_budget.specs.Kept.{KeepsOwn};

    ghost view = { λ a. record {
      setup = setup_of a.config;
      replica = a.config.replica;
      given_up = a.own.given_up;
      weights = a.own.weights;
      known = a.own.known;
      reserved = a.reserved.items;
      lent = a.lent.items;
      lent_known = a.lent_known.items;
      returned = a.returned.items;
      returned_known = a.returned_known.items;
      room = a.own.room;
    } };

    ghost invariant = { λ a. KeepsOwn (view a) a.own };
}

impl Budgets {
    /// The budgets at the opening, in memory of `alloc`: no write, nothing reserved and nothing given back.
    pub fn new(alloc: Global, config: &Budget) -> Result<Budgets, NoMemory>
        requires { IsBudget config.now }
        ensures { IfOk result (λ made. made ≡ opening (setup_of config.now) config.now.replica made.room) }
    {
        let places = config.replicas as usize * config.conits as usize;
        Ok(Budgets {
            config: copy(alloc, config)?,
            own: OwnWrites::new(alloc, config.replica, config.replicas, config.conits)?,
            reserved: vec![in alloc; 0; config.conits as usize]?,
            lent: lent(alloc, config)?,
            lent_known: lent_known(alloc, config)?,
            returned: vec![in alloc; 0; places]?,
            returned_known: vec![in alloc; 0; places]?,
        })
    }

    /// The share that the replica holds of the owner's bound on the conit. Takes no memory.
    pub fn share(&self, owner: u32, conit: u32) -> u64
        requires owner { IsPeer self.now owner }
        requires conit { conit < self.now.setup.conits }
        ensures share { result ≡ share self.now owner conit }
        ensures kept { KeepsBudgets self.now }
    {
        let place = self.config.place_of(owner, conit);
        self.lent_known[place] - self.returned[place]
    }

    /// Of the own writes that the peer isn't known to have, the sum of the positive nweights on the conit,
    /// and that of the sizes of the negative ones. Takes no memory.
    pub fn missing(&self, peer: u32, conit: u32) -> (u64, u64)
        requires peer { IsPeer self.now peer }
        requires conit { conit < self.now.setup.conits }
        ensures sums { result ≡ (missing_plus self.now peer conit, missing_minus self.now peer conit) }
        ensures kept { KeepsBudgets self.now }
    {
        (self.own.plus(peer, conit), self.own.minus(peer, conit))
    }

    /// What is reserved on the conit. Takes no memory.
    pub fn reserved(&self, conit: u32) -> u64
        requires { conit < self.now.setup.conits }
        ensures reserved { result ≡ reserved_on self.now conit }
        ensures kept { KeepsBudgets self.now }
    {
        self.reserved[conit as usize]
    }

    /// What of the replica's own bound on the conit isn't lent out. Takes no memory.
    pub fn home(&self, conit: u32) -> u64
        requires { conit < self.now.setup.conits }
        ensures home { result ≡ home self.now conit }
        ensures kept { KeepsBudgets self.now }
    {
        let place = self.config.place_of(self.config.replica, conit);
        let mut home = self.config.alphas.items()[place];
        for peer in 0..self.config.replicas {
            if peer != self.config.replica {
                home -= self.out(peer, conit);
            }
        }
        home
    }

    /// What the holder has of the replica's own bound on the conit. Takes no memory.
    pub fn out(&self, holder: u32, conit: u32) -> u64
        requires holder { IsPeer self.now holder }
        requires conit { conit < self.now.setup.conits }
        ensures out { result ≡ out self.now holder conit }
        ensures kept { KeepsBudgets self.now }
    {
        let place = self.config.place_of(holder, conit);
        self.lent[place] - self.returned_known[place]
    }

    /// All that was ever lent to the holder of the replica's own bound on the conit, the opening loan
    /// included. Takes no memory.
    pub fn lent(&self, holder: u32, conit: u32) -> u64
        requires holder { IsPeer self.now holder }
        requires conit { conit < self.now.setup.conits }
        ensures lent { result ≡ lent_to self.now holder conit }
        ensures kept { KeepsBudgets self.now }
    {
        self.lent[self.config.place_of(holder, conit)]
    }

    /// All that was ever given back to the owner of its bound on the conit. Takes no memory.
    pub fn returned(&self, owner: u32, conit: u32) -> u64
        requires owner { IsPeer self.now owner }
        requires conit { conit < self.now.setup.conits }
        ensures returned { result ≡ returned_to self.now owner conit }
        ensures kept { KeepsBudgets self.now }
    {
        self.returned[self.config.place_of(owner, conit)]
    }

    /// What was ever lent to the holder, by conit, as [`Budgets::lent`] tells it. Takes no memory.
    pub fn all_lent(&self, holder: u32) -> &[u64]
        requires { IsPeer self.now holder }
        ensures { result.now ≡ map (lent_to self.now holder) (conits_of self.now.setup) }
    {
        self.config.row(&self.lent, holder)
    }

    /// What was ever given back to the owner, by conit, as [`Budgets::returned`] tells it. Takes no memory.
    pub fn all_returned(&self, owner: u32) -> &[u64]
        requires { IsPeer self.now owner }
        ensures { result.now ≡ map (returned_to self.now owner) (conits_of self.now.setup) }
    {
        self.config.row(&self.returned, owner)
    }

    /// What an owner is known to have lent, the opening loan included, by conit. Takes no memory.
    pub fn all_lent_by(&self, owner: u32) -> &[u64]
        requires { IsPeer self.now owner }
        ensures { result.now ≡ map (lent_by self.now owner) (conits_of self.now.setup) }
    {
        self.config.row(&self.lent_known, owner)
    }

    /// What a holder is known to have given back, by conit. Takes no memory.
    pub fn all_returned_by(&self, holder: u32) -> &[u64]
        requires { IsPeer self.now holder }
        ensures { result.now ≡ map (returned_by self.now holder) (conits_of self.now.setup) }
    {
        self.config.row(&self.returned_known, holder)
    }

    /// What of its share of the owner's bound on the conit the replica could give back. Takes no memory.
    pub fn free(&self, owner: u32, conit: u32) -> u64
        requires owner { IsPeer self.now owner }
        requires conit { conit < self.now.setup.conits }
        ensures free { result ≡ free self.now owner conit }
        ensures kept { KeepsBudgets self.now }
    {
        let (plus, minus) = self.missing(owner, conit);
        self.share(owner, conit) - plus.max(minus) - self.reserved(conit)
    }

    /// Whether a write of this weight can be accepted. Takes no memory.
    pub fn test(&self, weight: Weight) -> Fit
        requires { weight.conit < self.now.setup.conits }
        ensures answer { result ≡ weight_answer self.now weight }
        ensures kept { KeepsBudgets self.now }
    {
        let side = if weight.nweight < 0 {
            Side::Minus
        } else {
            Side::Plus
        };
        self.answer(weight.conit, weight.nweight.unsigned_abs(), side)
    }

    /// Whether the amount can be reserved on the conit, for weights of either sign. Takes no memory.
    pub fn test_reserve(&self, conit: u32, amount: u64) -> Fit
        requires { conit < self.now.setup.conits }
        ensures answer { result ≡ reserve_answer self.now conit amount }
        ensures kept { KeepsBudgets self.now }
    {
        self.answer(conit, amount, Side::Greater)
    }

    // The answer of the first peer that refuses the amount.
    fn answer(&self, conit: u32, amount: u64, side: Side) -> Fit
        requires { conit < self.now.setup.conits }
        ensures answer { result ≡ answer self.now conit amount (missing_on side self.now conit) }
        ensures kept { KeepsBudgets self.now }
    {
        for peer in 0..self.config.replicas {
            if peer != self.config.replica {
                match self.fit_by(peer, conit, amount, side) {
                    Fit::Fits => {}
                    refusal => return refusal,
                }
            }
        }
        Fit::Fits
    }

    // What the amount gets of the peer. Nothing is added up, so that nothing can pass what a u64 holds.
    fn fit_by(&self, peer: u32, conit: u32, amount: u64, side: Side) -> Fit
        requires peer { IsPeer self.now peer }
        requires conit { conit < self.now.setup.conits }
        ensures { result ≡ fit_by self.now conit amount peer (missing_on side self.now conit peer) }
    {
        let weight = amount;
        let share = self.share(peer, conit);
        let reserved = self.reserved(conit);
        let missing = self.missing_on(side, peer, conit);
        if weight > share {
            Fit::TooHeavy {
                peer,
                weight,
                share,
            }
        } else if weight > share - reserved {
            Fit::WaitHeld {
                peer,
                reserved,
                weight,
                share,
            }
        } else if weight > share - reserved - missing {
            Fit::WaitShare {
                peer,
                missing,
                reserved,
                weight,
                share,
            }
        } else {
            Fit::Fits
        }
    }

    // What the peer may miss on the conit, on this side.
    fn missing_on(&self, side: Side, peer: u32, conit: u32) -> u64
        requires peer { IsPeer self.now peer }
        requires conit { conit < self.now.setup.conits }
        ensures { result ≡ missing_on side self.now conit peer }
    {
        let (plus, minus) = self.missing(peer, conit);
        match side {
            Side::Plus => plus,
            Side::Minus => minus,
            Side::Greater => plus.max(minus),
        }
    }

    /// Makes room for at least `k` more writes, without memory where there is so much. `NoMemory` leaves
    /// everything as it was.
    pub fn reserve_room(&mut self, k: u64) -> Result<(), NoMemory>
        ensures others { self.new ≡ record self.old { room = self.new.room } }
        ensures ok { OnOk result (k ≤ self.new.room) }
        ensures enough { k ≤ self.old.room → IsOk result }
        ensures kept { self.old.room ≤ self.new.room }
        ensures err { OnErr result (self.new ≡ self.old) }
    {
        self.own.reserve(k)
    }

    /// Adds an own write with these weights, each of which fits. Takes no memory.
    pub fn add(&mut self, weights: &Weights)
        requires room { 0 < self.old.room }
        requires conits { All (λ weight. weight.conit < self.old.setup.conits) weights.now }
        requires fits { All (λ weight. weight_answer self.old weight ≡ Fits) weights.now }
        ensures added { self.new ≡ record self.old {
          weights = self.old.weights ++ weights.now ∷ [];
          room = self.new.room;
        } }
        ensures room { self.old.room ≤ self.new.room + 1 }
    {
        self.own.add(weights.items());
    }

    /// Reserves an amount that fits on the conit. Takes no memory.
    pub fn hold(&mut self, conit: u32, amount: u64)
        requires conit { conit < self.old.setup.conits }
        requires fits { reserve_answer self.old conit amount ≡ Fits }
        ensures { self.new ≡ record self.old {
          reserved = slice_set self.old.reserved conit (reserved_on self.old conit + amount);
        } }
    {
        self.reserved[conit as usize] += amount;
    }

    /// Frees an amount of what is reserved on the conit. Takes no memory.
    pub fn free_held(&mut self, conit: u32, amount: u64)
        requires conit { conit < self.old.setup.conits }
        requires held { amount ≤ reserved_on self.old conit }
        ensures { self.new ≡ record self.old {
          reserved = slice_set self.old.reserved conit (reserved_on self.old conit - amount);
        } }
    {
        self.reserved[conit as usize] -= amount;
    }

    /// Adds an own write of this weight, which takes its size out of what is reserved on its conit. Takes
    /// no memory.
    pub fn spend(&mut self, weight: Weight)
        requires room { 0 < self.old.room }
        requires conit { weight.conit < self.old.setup.conits }
        requires held { unsigned_abs weight.nweight ≤ reserved_on self.old weight.conit }
        ensures spent { self.new ≡ record self.old {
          weights = self.old.weights ++ (weight ∷ []) ∷ [];
          reserved = slice_set self.old.reserved weight.conit
              (reserved_on self.old weight.conit - unsigned_abs weight.nweight);
          room = self.new.room;
        } }
        ensures room { self.old.room ≤ self.new.room + 1 }
    {
        self.reserved[weight.conit as usize] -= weight.nweight.unsigned_abs();
        self.own.add(&[weight]);
    }

    /// Notes that the peer has the first `count` own writes, of which there may be fewer by now, and gives up
    /// those that each peer is known to have. An older note changes nothing else. Takes no memory.
    pub fn acked(&mut self, peer: u32, count: u64)
        requires { IsPeer self.old peer }
        ensures acked { self.new ≡ record (with_given_up (record self.old {
          known = slice_set self.old.known peer (max (slice_index self.old.known peer) count);
        })) { room = self.new.room } }
        ensures room { self.old.room ≤ self.new.room }
        ensures kept { KeepsBudgets self.new }
    {
        self.own.acked(peer, count);
    }

    /// Notes that the owner has lent `told` on the conit in all, the opening loan included. An older note
    /// changes nothing. Takes no memory.
    pub fn note_lent(&mut self, owner: u32, conit: u32, told: u64)
        requires owner { IsPeer self.old owner }
        requires conit { conit < self.old.setup.conits }
        ensures noted { self.new ≡ record self.old {
          lent_known = slice_set self.old.lent_known (place_of self.old.setup owner conit)
              (max (lent_by self.old owner conit) told);
        } }
        ensures kept { KeepsBudgets self.new }
    {
        let place = self.config.place_of(owner, conit);
        self.lent_known[place] = self.lent_known[place].max(told);
    }

    /// Notes that the holder has given back `told` on the conit in all, which is at most what it was lent.
    /// An older note changes nothing. Takes no memory.
    pub fn note_returned(&mut self, holder: u32, conit: u32, told: u64)
        requires holder { IsPeer self.old holder }
        requires conit { conit < self.old.setup.conits }
        requires lent { told ≤ lent_to self.old holder conit }
        ensures noted { self.new ≡ record self.old {
          returned_known = slice_set self.old.returned_known (place_of self.old.setup holder conit)
              (max (returned_by self.old holder conit) told);
        } }
        ensures kept { KeepsBudgets self.new }
    {
        let place = self.config.place_of(holder, conit);
        self.returned_known[place] = self.returned_known[place].max(told);
    }

    /// Lends the holder a further amount of what is at home on the conit. Takes no memory.
    pub fn lend(&mut self, holder: u32, conit: u32, amount: u64)
        requires holder { IsPeer self.old holder }
        requires conit { conit < self.old.setup.conits }
        requires home { amount ≤ home self.old conit }
        requires limit { lent_to self.old holder conit + amount ≤ LENT_MAX }
        ensures { self.new ≡ record self.old {
          lent = slice_set self.old.lent (place_of self.old.setup holder conit)
              (lent_to self.old holder conit + amount);
        } }
    {
        let place = self.config.place_of(holder, conit);
        self.lent[place] += amount;
    }

    /// Gives back to the owner an amount of its share on the conit that covers nothing. Takes no memory.
    pub fn give_back(&mut self, owner: u32, conit: u32, amount: u64)
        requires owner { IsPeer self.old owner }
        requires conit { conit < self.old.setup.conits }
        requires free { amount ≤ free self.old owner conit }
        ensures { self.new ≡ record self.old {
          returned = slice_set self.old.returned (place_of self.old.setup owner conit)
              (returned_to self.old owner conit + amount);
        } }
    {
        let place = self.config.place_of(owner, conit);
        self.returned[place] += amount;
    }
}
