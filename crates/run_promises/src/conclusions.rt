//! What a user concludes of every run. Each function states it by its clauses and does nothing.
ghost use Rattle.std.specs.Prelude.{◌≡◌, ℕ, ◌<◌, List, [], ◌∷◌, ◌++◌, All, map};
ghost use Rattle.tact_base.specs.Setup.{Setup, IsSetup};
ghost use Rattle.tact_base.specs.declared.conit_list.Need.{Need};
ghost use Rattle.tact_base.specs.declared.conit_list.Weight.{Weight};
ghost use Rattle.tact_base.specs.declared.write.Op.{Op};
ghost use Rattle.run_model.specs.Histories.{part_of, IsPrefix, EachAfter};
ghost use Rattle.run_model.specs.Order.{committed, value, image};
ghost use Rattle.run_model.specs.Reference.{reference};
ghost use Rattle.run_model.specs.Replies.{reply_of, done};
ghost use Rattle.run_model.specs.Runs.{IsRun};
ghost use Rattle.run_model.specs.declared.call.Reply.TheVariants as reply;
ghost use Rattle.run_model.specs.declared.call.Request.TheVariants as request;
ghost use Rattle.run_model.specs.declared.entry.Entry.{Entry};
ghost use Rattle.run_promises.specs.Conclusions.{TellsTruth, IsFree, HaveAsMany, IsSameState, HasAll, IsSettled, IsWithinShares};

/// The strict end. In every run a read that was answered under a need of 0, 0 and 0 was told the reference
/// value of its conit, with nothing tentative of weight there and no write missed that is older than its
/// moment.
pub fn strict_reads_tell_the_truth()
    ensures { (setup : Setup) (history : List Entry) → IsSetup setup → IsRun setup history
        → EachAfter (λ before entry. TellsTruth setup (before ++ entry ∷ []) entry.replica entry.moment entry.act) history }
{}

/// The free end. A read without needs is never made to wait. In a run nor is one whose needs allow as much
/// out as the alpha of the bound, as much order weight as is tentative, and any age: the reply that is due
/// is its value.
pub fn free_reads_never_wait()
    ensures without { (setup : Setup) (replica : ℕ) (part : List Entry) (moment key : ℕ)
        → reply_of setup replica part moment (request.Read key []) ≡ reply.Value (image setup replica part key) [] }
    ensures free { (setup : Setup) (history : List Entry) (replica moment key : ℕ) (needs : List Need)
        → IsSetup setup → IsRun setup history → replica < setup.replicas
        → All (IsFree setup replica (part_of history replica) moment) needs
        → reply_of setup replica (part_of history replica) moment (request.Read key needs)
        ≡ reply.Value (image setup replica (part_of history replica) key)
        (map (λ need. value setup replica (part_of history replica) need.conit) needs) }
{}

/// Committed stays committed. What a replica has committed at one point of a run is a prefix of what it has
/// committed at any later point.
pub fn committed_stays_committed()
    ensures { (setup : Setup) (history early late : List Entry) (replica : ℕ)
        → IsRun setup history → IsPrefix late history → IsPrefix early late → replica < setup.replicas
        → IsPrefix (committed setup replica (part_of early replica)) (committed setup replica (part_of late replica)) }
{}

/// Same writes, same state. Two replicas, at two points of a run, that have the same count of writes of each
/// origin have the same writes in the same order, and so the same values and the same image. Where a
/// replica has all writes of all origins, its values are the reference values.
pub fn same_writes_same_state()
    ensures same { (setup : Setup) (history first second : List Entry) (one other : ℕ)
        → IsRun setup history → IsPrefix first history → IsPrefix second history
        → HaveAsMany setup one (part_of first one) other (part_of second other)
        → IsSameState setup one (part_of first one) other (part_of second other) }
    ensures whole { (setup : Setup) (history : List Entry) (replica conit : ℕ)
        → IsRun setup history → HasAll setup history replica
        → value setup replica (part_of history replica) conit ≡ reference setup history conit }
{}

/// A write waits for its budget alone. Where no peer may miss anything of a replica's writes and nothing is
/// reserved, a write of which no weight passes a share is accepted at once, with the next index and stamp.
pub fn writes_wait_for_their_budget_alone()
    ensures { (setup : Setup) (replica : ℕ) (part : List Entry) (moment : ℕ) (weights : List Weight) (op : Op)
        → IsSettled setup replica part → All (IsWithinShares setup replica part) weights
        → reply_of setup replica part moment (request.Write weights op) ≡ done replica part }
{}
