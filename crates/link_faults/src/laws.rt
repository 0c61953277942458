//! Laws of inboxes. Each function states one by its clauses, for all plans and events, and does nothing.
ghost use Rattle.std.specs.Prelude.{◌≡◌, ◌<◌, ◌≤◌, ◌%◌, ◌^◌, List, [], ◌∷◌, ◌++◌, length, drop};
ghost use Rattle.link_faults.specs.Inboxes.{AddUp, Event, InboxState, after_put, counts_of, inbox_after, items_put, next_number};
ghost use Rattle.link_faults.specs.Plans.{no_faults};
ghost use Rattle.link_faults.specs.declared.plan.TheConstants.{INBOX_MAX};
ghost use Rattle.link_faults.specs.declared.plan.LinkPlan.{LinkPlan};

use crate::twin::Twin;

/// After any events what was put and copied was taken, was lost, or waits, modulo 2^64; at most 1,024 items
/// wait; and the puts are counted, modulo 2^64.
pub fn counts_add_up<T: Twin>()
    ensures add_up { (plan : LinkPlan) (events : List (Event T.Carried)) → AddUp (counts_of (inbox_after plan events)) }
    ensures few { (plan : LinkPlan) (events : List (Event T.Carried)) → length (inbox_after plan events).waiting ≤ INBOX_MAX }
    ensures puts { (plan : LinkPlan) (events : List (Event T.Carried)) → (inbox_after plan events).puts ≡ length (items_put events) % 2 ^ 64 }
{}

/// Under a plan of zeros an item that is put while fewer than 1,024 wait comes to wait behind the others, and
/// nothing is lost or copied. So where nothing was lost, what waits is what was put, without so many from its
/// front as were taken.
pub fn first_in_first_out<T: Twin>()
    ensures behind { (state : InboxState T.Carried) (c : T.Carried) →
        state.plan ≡ no_faults → length state.waiting < INBOX_MAX →
        after_put state c ≡ record state { waiting = state.waiting ++ c ∷ []; puts = next_number state.puts } }
    ensures in_order { (events : List (Event T.Carried)) → length events < 2 ^ 64 →
        let state = inbox_after no_faults events in
        state.lost ≡ 0 → state.waiting ≡ drop state.taken (items_put events) }
{}
