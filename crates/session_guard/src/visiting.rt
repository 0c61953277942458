//! A visit of a client at a replica.
ghost use Rattle.std.specs.Prelude.{◌≡◌, ◌<◌, ◌≤◌, ◌+◌, List, None, length, false, OnOk, OnErr, IfOk, IfErr, IsOk};
ghost use Rattle.tact_base.specs.declared.limits.TheConstants.{CLIENTS, MOMENT_MAX};
ghost use Rattle.run_model.specs.Histories.{calls_in, moment_at};
ghost use Rattle.run_model.specs.Ranges.{IsRequestInRange};
ghost use Rattle.run_model.specs.Replies.{reply_of};
ghost use Rattle.run_model.specs.declared.entry.Act.TheVariants as act;
ghost use Rattle.run_model.specs.declared.entry.Entry.{Entry};
ghost use Rattle.replica_core.specs.Calling.{IsWithoutWrite};
ghost use Rattle.replica_core.specs.States.{is_full};
ghost use Rattle.replica_core.specs.Stands.{GoesOn, IsFaultOf, IsSameReplica, Stands};
ghost use Rattle.session_guard.specs.Passes.{lack_of, pass_after};
ghost use Rattle.session_guard.specs.Visits.{IfAnswered, IsWriteOrRead, OnBehind, haves_at, lack_in};

use crate::counts::haves_of;
use crate::{Pass, Visit};
use replica_core::{CoreFault, Replica};
use run_model::Request;

/// A client with a pass asks a replica for a write or a read at a moment, as `Replica::call` has it, where the replica has
/// all writes that the pass speaks of; else the visit is `Behind` and makes no entry. A write that is accepted, and a read
/// that is answered with a value, is taken into account in the pass; other replies leave it (session guarantees after
/// Terry and others, 1994).
///
/// `Full` comes exactly where 20,000 entries were made or the clock stands at 2^40. `NoMemory` doesn't come where the
/// visit is `Behind`, nor where there is room for a write (`spare`), nor for a read. Both leave the replica and the pass as
/// they were.
pub fn visit(
    replica: &mut Replica,
    pass: &mut Pass,
    moment: u64,
    client: u32,
    request: &Request,
) -> Result<Visit, CoreFault>
    requires moment { moment ≤ MOMENT_MAX }
    requires client { client < CLIENTS }
    requires in_range { IsRequestInRange replica.old.core.setup request.now }
    requires kind { IsWriteOrRead request.now }
    requires sized { length pass.old.reads ≡ replica.old.core.setup.replicas }
    // It is behind exactly where the pass asks for more than there is.
    ensures lack { IfOk result (λ visit. lack_in visit ≡ lack_of (haves_at replica.old.core) pass.old) }
    ensures behind { IfOk result (OnBehind ((replica.new ≡ replica.old) × (pass.new ≡ pass.old))) }

    ensures goes_on { IfOk result (IfAnswered (λ given. GoesOn replica.old.core replica.new.core moment
        (λ part. act.Call client (calls_in part client) request.now given))) }
    ensures due { IfOk result (IfAnswered (λ given. (part : List Entry) → Stands part replica.old.core
        → given ≡ reply_of replica.old.core.setup replica.old.core.replica part (moment_at part moment) request.now)) }
    ensures noted { IfOk result (IfAnswered (λ given. (part : List Entry) → Stands part replica.old.core
        → pass.new ≡ pass_after (haves_at replica.old.core) replica.old.core.replica pass.old given)) }
    ensures sized { length pass.new.reads ≡ length pass.old.reads }

    ensures same { IsSameReplica replica.old.core replica.new.core }
    ensures spare { replica.old.spare ≤ replica.new.spare + 1 }
    ensures not_full { OnOk result (is_full replica.old.core ≡ false) }

    ensures fault { IfErr result (IsFaultOf replica.old.core) }
    ensures order { OnErr result (is_full replica.old.core ≡ false → lack_of (haves_at replica.old.core) pass.old ≡ None) }
    ensures enough { 0 < replica.old.spare → is_full replica.old.core ≡ false → IsOk result }
    ensures sure { IsWithoutWrite request.now → is_full replica.old.core ≡ false → IsOk result }
    ensures err { OnErr result ((replica.new ≡ replica.old) × (pass.new ≡ pass.old)) }
{
    replica.may_enter()?;
    let haves = haves_of(replica, pass.replicas());
    if let Some(behind) = pass.lack(haves.items()) {
        return Ok(behind);
    }
    let reply = replica.call(moment, client, request)?;
    pass.note(replica.number(), haves.items(), &reply);
    Ok(Visit::Answered(reply))
}
