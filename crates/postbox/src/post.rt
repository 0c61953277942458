//! What is sent to one replica, in an inbox.
ghost use Rattle.std.specs.Prelude.{◌≡◌, ◌++◌, IfOk, IfSome, OnErr, OnOk};
ghost use Rattle.std.specs.Option.{option_to_list};
ghost use Rattle.link_faults.specs.Inboxes.{after_next, after_put, empty_inbox, fate_due};
ghost use Rattle.link_faults.specs.declared.plan.Fate.TheVariants.{Doubled};
ghost use Rattle.postbox.specs.Posts.{AreFor, IsFor, address_of, messages_in};

use link_faults::{Fate, Inbox, LinkPlan};
use replica_lock::Parcel;
use run_history::{Desk, Note};
use std::alloc::Global;
use std::marker::Model;
use tact_base::NoMemory;
use weight_ledger::Counted;

/// An inbox for one replica of a desk, which the note is of.
#[derive(Drop)]
pub struct Post {
    note: Note,
    to: u32,
    parcels: Inbox<Parcel>,
}

impl Model for Post {
    ghost use Rattle.postbox.specs.Posts.{AreFor, PostView};

    ghost Value = { PostView };

    ghost view = { λ p. record { desk = p.note.table; to = p.to; inbox = p.parcels } };

    ghost invariant = { λ p. AreFor p.note.table p.to p.parcels.waiting };
}

/// Where an inbox stands, which never changes: a note of its desk, its replica, and the plan of its link. No value of
/// it is made.
pub struct Address {
    pub note: Note,
    pub to: u32,
    pub plan: LinkPlan,
}

impl Counted for Post {
    type Label = Address;

    ghost use Rattle.std.specs.Prelude.{[]};
    ghost use Rattle.postbox.specs.Posts.{address_of};

    ghost label = { address_of };

    ghost totals = { λ _. [] };
}

impl Post {
    /// An empty one. `NoMemory` is the only error.
    pub fn new(alloc: Global, plan: LinkPlan, note: Note, to: u32) -> Result<Post, NoMemory>
        ensures { IfOk result (λ post. post ≡ record { desk = note.table; to = to; inbox = empty_inbox plan }) }
    {
        let parcels = Inbox::new(alloc, plan)?;
        Ok(Post { note, to, parcels })
    }

    /// Puts a parcel, which the plan may lose, double or turn. `NoMemory`, for the copy, is the only error: the inbox
    /// is as it was, and the parcel is lost.
    pub fn put(&mut self, desk: &Desk, parcel: Parcel) -> Result<Fate, NoMemory>
        requires desk { desk.now.table ≡ self.old.desk }
        requires parcel { IsFor self.old.desk self.old.to parcel }
        ensures address { address_of self.new ≡ address_of self.old }
        ensures fate { IfOk result (λ fate. fate ≡ fate_due self.old.inbox) }
        ensures messages { OnOk result
            (messages_in self.new.inbox ≡ after_put (messages_in self.old.inbox) parcel.message) }
        ensures err { OnErr result (self.new ≡ self.old) }
        ensures for_a_copy { OnErr result (fate_due self.old.inbox ≡ Doubled) }
    {
        let Ok(fate) = self.parcels.put(desk, parcel) else {
            return Err(NoMemory);
        };
        Ok(fate)
    }

    /// Takes the first parcel that waits, if any does.
    pub fn next(&mut self) -> Option<Parcel>
        ensures rest { self.new ≡ record self.old { inbox = after_next self.old.inbox } }
        ensures first { self.old.inbox.waiting ≡ option_to_list result ++ self.new.inbox.waiting }
        ensures is_for { IfSome result (IsFor self.old.desk self.old.to) }
    {
        self.parcels.next()
    }

    /// The inbox.
    pub fn into_inbox(self) -> Inbox<Parcel>
        ensures inbox { result ≡ self.inbox }
        ensures parcels { AreFor self.desk self.to result.waiting }
    {
        self.parcels
    }
}
