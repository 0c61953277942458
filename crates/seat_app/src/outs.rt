//! What the peers of a replica have of its bound.
ghost use Rattle.std.specs.Prelude.{◌≡◌, ◌<◌, ◌≤◌, List};
ghost use Rattle.tact_base.specs.declared.limits.TheConstants.{ALPHA_MAX};
ghost use Rattle.split_budget.specs.Budgets.{all_out};
ghost use Rattle.run_model.specs.declared.entry.Entry.{Entry};
ghost use Rattle.replica_core.specs.Stands.{Stands};
ghost use Rattle.seat_app.specs.Seats.{out_of};

use replica_core::Replica;

/// What all peers of a replica have of its bound on a conit. Takes no memory.
pub(crate) fn all_out(replica: &Replica, conit: u32) -> u64
    requires { conit < replica.now.core.setup.conits }
    ensures all { result ≡ all_out replica.now.core.budgets conit }
    ensures of_part { (part : List Entry) → Stands part replica.now.core
        → result ≡ out_of replica.now.core.setup replica.now.core.replica part conit }
    ensures few { result ≤ ALPHA_MAX }
{
    let own = replica.number();
    let budgets = replica.budgets();
    let mut out = 0;
    for peer in 0..replica.replicas() {
        if peer != own {
            out += budgets.out(peer, conit);
        }
    }
    out
}
