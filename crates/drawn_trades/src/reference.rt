//! How many places are sold in all.
ghost use Rattle.std.specs.Prelude.{◌≡◌, ◌≤◌, length, map};
ghost use Rattle.std.specs.Option.{option_to_list};
ghost use Rattle.tact_base.specs.Sums.{net_sum, on_conit, signed_sum, weights_on};
ghost use Rattle.run_model.specs.OwnWrites.{accepted_by};
ghost use Rattle.run_model.specs.Reference.{reference};
ghost use Rattle.seat_app.specs.Bookings.{entries_of};
ghost use Rattle.drawn_trades.specs.DrawnTrades.{SellsAmongThree, places, three};

use run_model::{Act, Entry, Reply, Request};
use seat_app::Booking;
use tact_base::Weight;

// The conit that the places are counted on.
const CONIT: u32 = 0;

/// How many places are sold of all that all replicas accepted: the reference value of their conit. Takes no memory.
pub(crate) fn sold_in_all(booking: &Booking) -> i64
    requires { SellsAmongThree booking.now }
    ensures { result ≡ reference three (entries_of booking.now) places.conit }
{
    let mut sold = 0;
    for entry in booking.entries() {
        sold += change_by(entry, CONIT);
    }
    sold
}

// By how much an entry changes the value of a conit.
fn change_by(entry: &Entry, conit: u32) -> i64
    requires { length (weights_on (option_to_list (accepted_by entry.now.replica entry.now.moment entry.now.act)) conit) ≤ 1 }
    ensures { result ≡ net_sum (option_to_list (accepted_by entry.now.replica entry.now.moment entry.now.act)) conit }
{
    match &entry.act {
        Act::Call {
            request: Request::Write { weights, .. },
            reply: Reply::Done { .. },
            ..
        } => nweight_on(weights.items(), conit),
        Act::Call {
            request: Request::Held { weight, .. },
            reply: Reply::Done { .. },
            ..
        } => nweight_on(&[*weight], conit),
        _ => 0,
    }
}

// The nweight on a conit, of weights of which at most one is on it.
fn nweight_on(weights: &[Weight], conit: u32) -> i64
    requires { length (on_conit conit weights.now) ≤ 1 }
    ensures { result ≡ signed_sum (map (λ weight. weight.nweight) (on_conit conit weights.now)) }
{
    for weight in weights {
        if weight.conit == conit {
            return weight.nweight;
        }
    }
    0
}
