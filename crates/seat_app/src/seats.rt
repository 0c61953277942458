//! Places of one capacity, and their sale at a replica.
ghost use Rattle.std.specs.Prelude.{◌≡◌, ◌+◌, ◌<◌, ◌≤◌, List, [], ◌∷◌, None, false, pos, neg_ℤ, unsigned_abs, IfErr, IfOk, IsOk, OnErr, OnOk};
ghost use Rattle.tact_base.specs.declared.limits.TheConstants.{ALPHA_MAX, AMOUNT_MAX, CLIENTS, KEY_MAX, MOMENT_MAX, WEIGHT_MAX};
ghost use Rattle.run_model.specs.declared.entry.Entry.{Entry};
ghost use Rattle.replica_core.specs.States.{is_full};
ghost use Rattle.replica_core.specs.Stands.{IsFaultOf, IsSameReplica, Stands};
ghost use Rattle.seat_app.specs.Sales.{OnLack, OnReply, lack_in};
ghost use Rattle.seat_app.specs.Seats.{lack_after, over, request_of, under};
ghost use Rattle.seat_app.specs.Selling.{EntersDue, IsDueCareful, TellsDue, lack_at, over_at, under_at};

use crate::Sale;
use crate::outs::all_out;
use crate::sale::sale_of;
use replica_core::{CoreFault, Replica};
use run_model::Request;
use std::marker::Model;
use tact_base::{Op, Weight, Weights};

/// So many places, which are sold at every replica. How many are sold is the value of a conit.
#[derive(Clone, Copy, Debug)]
pub struct Seats {
    conit: u32,
    capacity: u64,
}

impl Model for Seats {
    ghost use Rattle.std.specs.Prelude.{◌≤◌};
    ghost use Rattle.tact_base.specs.declared.limits.TheConstants.{AMOUNT_MAX};
    ghost use Rattle.seat_app.specs.Seats.{SeatsState};

    ghost Value = { SeatsState };

    ghost view = { λ s. record { conit = s.conit; capacity = s.capacity } };

    ghost invariant = { λ s. s.capacity ≤ AMOUNT_MAX };

    ghost inverse = { λ s. record { conit = s.conit; capacity = s.capacity } };
}

impl Seats {
    /// So many places, at most 10^12, that are counted on a conit.
    pub fn new(conit: u32, capacity: u64) -> Seats
        requires { capacity ≤ AMOUNT_MAX }
        ensures { result ≡ record { conit = conit; capacity = capacity } }
    {
        Seats { conit, capacity }
    }

    /// The conit that they are counted on. Takes no memory.
    pub(crate) fn conit(&self) -> u32
        ensures { result ≡ self.now.conit }
    {
        self.conit
    }

    /// Sells so many places at a replica and a moment: a write adds them to the key and to the conit's value, and
    /// weighs 1 in the order. `Over` comes exactly where, and the replica isn't full, the value that it sees passes
    /// the capacity with them and with all that is out at its peers; then nothing is asked. So no more places than
    /// there are can be sold, whatever the peers sold unseen (this project's own rule).
    ///
    /// `Full` comes exactly where 20,000 entries were made or the clock stands at 2^40. `NoMemory` doesn't come where
    /// the sale is `Over`, nor where there is room for a write (`spare`). Both leave the replica as it was.
    pub fn sell(
        &self,
        replica: &mut Replica,
        moment: u64,
        client: u32,
        key: u64,
        amount: u64,
    ) -> Result<Sale, CoreFault>
        requires moment { moment ≤ MOMENT_MAX }
        requires client { client < CLIENTS }
        requires key { key ≤ KEY_MAX }
        requires some { 1 ≤ amount }
        requires few { amount ≤ WEIGHT_MAX }
        requires conit { self.now.conit < replica.old.core.setup.conits }
        // It is over exactly where, with all that is out, too many might be sold.
        ensures lack { IfOk result (λ sale. lack_in sale ≡ over_at self.now replica.old.core amount) }
        ensures over { IfOk result (OnLack (replica.new ≡ replica.old)) }

        ensures goes_on { IfOk result (OnReply (EntersDue replica.old.core replica.new.core moment client
            (request_of self.now key (pos amount)))) }
        ensures due { IfOk result (λ sale. OnReply (TellsDue replica.old.core moment
            (request_of self.now key (pos amount)) sale) sale) }
        ensures careful { IfOk result (OnReply (IsDueCareful self.now replica.old.core moment client
            (request_of self.now key (pos amount)))) }

        ensures same { IsSameReplica replica.old.core replica.new.core }
        ensures spare { replica.old.spare ≤ replica.new.spare + 1 }
        ensures not_full { OnOk result (is_full replica.old.core ≡ false) }

        ensures fault { IfErr result (IsFaultOf replica.old.core) }
        ensures order { OnErr result (is_full replica.old.core ≡ false
            → over_at self.now replica.old.core amount ≡ None) }
        ensures enough { 0 < replica.old.spare → is_full replica.old.core ≡ false → IsOk result }
        ensures err { OnErr result (replica.new ≡ replica.old) }
    {
        self.change(replica, moment, client, key, amount as i64)
    }

    /// Cancels so many places at a replica and a moment, as `sell` sells them: a write takes them from the key and
    /// from the conit's value. `Under` comes exactly where, and the replica isn't full, the value that it sees is
    /// below them with all that is out at its peers. So no fewer places than none can be sold, whatever the peers
    /// cancelled unseen. The faults are those of `sell`.
    pub fn cancel(
        &self,
        replica: &mut Replica,
        moment: u64,
        client: u32,
        key: u64,
        amount: u64,
    ) -> Result<Sale, CoreFault>
        requires moment { moment ≤ MOMENT_MAX }
        requires client { client < CLIENTS }
        requires key { key ≤ KEY_MAX }
        requires some { 1 ≤ amount }
        requires few { amount ≤ WEIGHT_MAX }
        requires conit { self.now.conit < replica.old.core.setup.conits }
        // It is under exactly where, with all that is out, too many might be cancelled.
        ensures lack { IfOk result (λ sale. lack_in sale ≡ under_at self.now replica.old.core amount) }
        ensures under { IfOk result (OnLack (replica.new ≡ replica.old)) }

        ensures goes_on { IfOk result (OnReply (EntersDue replica.old.core replica.new.core moment client
            (request_of self.now key (neg_ℤ (pos amount))))) }
        ensures due { IfOk result (λ sale. OnReply (TellsDue replica.old.core moment
            (request_of self.now key (neg_ℤ (pos amount))) sale) sale) }
        ensures careful { IfOk result (OnReply (IsDueCareful self.now replica.old.core moment client
            (request_of self.now key (neg_ℤ (pos amount))))) }

        ensures same { IsSameReplica replica.old.core replica.new.core }
        ensures spare { replica.old.spare ≤ replica.new.spare + 1 }
        ensures not_full { OnOk result (is_full replica.old.core ≡ false) }

        ensures fault { IfErr result (IsFaultOf replica.old.core) }
        ensures order { OnErr result (is_full replica.old.core ≡ false
            → under_at self.now replica.old.core amount ≡ None) }
        ensures enough { 0 < replica.old.spare → is_full replica.old.core ≡ false → IsOk result }
        ensures err { OnErr result (replica.new ≡ replica.old) }
    {
        self.change(replica, moment, client, key, -(amount as i64))
    }

    // Asks a replica for so many places more or, below 0, fewer.
    fn change(
        &self,
        replica: &mut Replica,
        moment: u64,
        client: u32,
        key: u64,
        change: i64,
    ) -> Result<Sale, CoreFault>
        requires moment { moment ≤ MOMENT_MAX }
        requires client { client < CLIENTS }
        requires key { key ≤ KEY_MAX }
        requires few { unsigned_abs change ≤ WEIGHT_MAX }
        requires conit { self.now.conit < replica.old.core.setup.conits }
        ensures lack { IfOk result (λ sale. lack_in sale ≡ lack_at self.now replica.old.core change) }
        ensures kept_away { IfOk result (OnLack (replica.new ≡ replica.old)) }

        ensures goes_on { IfOk result (OnReply (EntersDue replica.old.core replica.new.core moment client
            (request_of self.now key change))) }
        ensures due { IfOk result (λ sale. OnReply (TellsDue replica.old.core moment
            (request_of self.now key change) sale) sale) }
        ensures careful { IfOk result (OnReply (IsDueCareful self.now replica.old.core moment client
            (request_of self.now key change))) }

        ensures same { IsSameReplica replica.old.core replica.new.core }
        ensures spare { replica.old.spare ≤ replica.new.spare + 1 }
        ensures not_full { OnOk result (is_full replica.old.core ≡ false) }

        ensures fault { IfErr result (IsFaultOf replica.old.core) }
        ensures order { OnErr result (is_full replica.old.core ≡ false
            → lack_at self.now replica.old.core change ≡ None) }
        ensures enough { 0 < replica.old.spare → is_full replica.old.core ≡ false → IsOk result }
        ensures err { OnErr result (replica.new ≡ replica.old) }
    {
        replica.may_enter()?;
        if let Some(lack) = self.lack(replica, change) {
            return Ok(lack);
        }
        let reply = replica.call(moment, client, &self.request(key, change))?;
        Ok(sale_of(reply))
    }

    /// What keeps a change away from a replica. Takes no memory.
    pub(crate) fn lack(&self, replica: &Replica, change: i64) -> Option<Sale>
        requires few { unsigned_abs change ≤ WEIGHT_MAX }
        requires conit { self.now.conit < replica.now.core.setup.conits }
        ensures lack { result ≡ lack_at self.now replica.now.core change }
        ensures of_part { (part : List Entry) → Stands part replica.now.core
            → result ≡ lack_after self.now replica.now.core.setup replica.now.core.replica part change }
    {
        let value = replica.value(self.conit);
        let out = all_out(replica, self.conit);
        let amount = change.unsigned_abs();
        if change < 0 {
            return under(value, out, amount);
        }
        self.over(value, out, amount)
    }

    // What keeps a sale away, where a value is seen and so much is out.
    fn over(&self, value: i64, out: u64, amount: u64) -> Option<Sale>
        requires out { out ≤ ALPHA_MAX }
        requires amount { amount ≤ WEIGHT_MAX }
        ensures { result ≡ over self.now value out amount }
    {
        let capacity = self.capacity;
        if value > capacity as i64 - out as i64 - amount as i64 {
            return Some(Sale::Over {
                value,
                out,
                amount,
                capacity,
            });
        }
        None
    }

    /// What is asked for a change. Takes no memory.
    pub(crate) fn request(&self, key: u64, change: i64) -> Request
        requires { unsigned_abs change ≤ WEIGHT_MAX }
        ensures { result ≡ request_of self.now key change }
    {
        let weight = Weight {
            conit: self.conit,
            nweight: change,
            oweight: 1,
        };
        Request::Write {
            weights: only(weight),
            op: Op::Add { key, delta: change },
        }
    }
}

// What keeps a cancellation away, where a value is seen and so much is out.
fn under(value: i64, out: u64, amount: u64) -> Option<Sale>
    requires out { out ≤ ALPHA_MAX }
    requires amount { amount ≤ WEIGHT_MAX }
    ensures { result ≡ under value out amount }
{
    if value < (out + amount) as i64 {
        return Some(Sale::Under { value, out, amount });
    }
    None
}

// The list of one weight.
fn only(weight: Weight) -> Weights
    requires nweight { unsigned_abs weight.nweight ≤ WEIGHT_MAX }
    requires oweight { weight.oweight ≤ WEIGHT_MAX }
    ensures { result ≡ weight ∷ [] }
{
    match Weights::new(&[weight]) {
        Ok(weights) => weights,
        Err(_) => unreachable!(),
    }
}
