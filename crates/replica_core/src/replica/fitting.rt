//! Which messages a replica can take.
ghost use Rattle.std.specs.Prelude.{◌≡◌, ◌≢◌, ◌<◌, ◌≤◌, ◌↔◌, ℕ, List, All, IsTrue, length, slice_index};
ghost use Rattle.split_budget.specs.Budgets.{lent_to};
ghost use Rattle.run_model.specs.Ranges.{IsMessageInRange};
ghost use Rattle.run_model.specs.Runs.{Fits};
ghost use Rattle.run_model.specs.Taking.{told_have};
ghost use Rattle.run_model.specs.declared.entry.Entry.{Entry};
ghost use Rattle.replica_core.specs.States.{log_at};
ghost use Rattle.replica_core.specs.Stands.{Stands};
ghost use Rattle.replica_core.specs.Taking.{FitsAt};
ghost use Rattle.replica_core.specs.Fitting.{IsToldDue};

use super::Replica;
use run_model::{Message, is_message_in_range};
use tact_base::Write;

impl Replica {
    /// Whether it can take a message: exactly where the message is in range of the setup and addressed to this
    /// replica; tells no more of its own writes than there are; tells no more to have been given back than was
    /// lent; and each write that it would add stands above the point and at most at the stamp of the sender's
    /// own told cover. Takes no memory. A transport of somebody else's hands a message to `take` only after
    /// this.
    pub fn fits(&self, message: &Message) -> bool
        ensures exact { IsTrue result ↔ FitsAt self.now.core message.now }
        ensures of_part { (part : List Entry) → Stands part self.now.core
            → (IsTrue result ↔ Fits self.now.core.setup self.now.core.replica part message.now) }
    {
        self.is_addressed(message) && self.fits_kept(message)
    }

    // Whether a message is in range of the setup and addressed to this replica.
    fn is_addressed(&self, message: &Message) -> bool
        ensures { IsTrue result
            ↔ IsMessageInRange self.now.core.setup message.now × (message.now.to ≡ self.now.core.replica) }
    {
        is_message_in_range(&self.config, message) && message.to == self.replica
    }

    // Whether a message that is addressed to this replica fits what it keeps.
    fn fits_kept(&self, message: &Message) -> bool
        requires in_range { IsMessageInRange self.now.core.setup message.now }
        requires addressed { message.now.to ≡ self.now.core.replica }
        ensures { IsTrue result ↔ FitsAt self.now.core message.now }
    {
        self.is_own_told(message) && self.are_returns_lent(message) && self.are_told_due(message)
    }

    // Whether no more of its own writes is told than there is.
    fn is_own_told(&self, message: &Message) -> bool
        requires { self.now.core.replica < length message.now.haves }
        ensures { IsTrue result
            ↔ (told_have message.now self.now.core.replica ≤ length (log_at self.now.core self.now.core.replica)) }
    {
        message.haves.items()[self.replica as usize] <= self.have(self.replica)
    }

    // Whether no more is told to have been returned than was lent.
    fn are_returns_lent(&self, message: &Message) -> bool
        requires from { message.now.from < self.now.core.setup.replicas }
        requires other { message.now.from ≢ self.now.core.replica }
        requires returned { length message.now.returned ≡ self.now.core.setup.conits }
        ensures { IsTrue result
            ↔ ((conit : ℕ) → conit < self.now.core.setup.conits
            → slice_index message.now.returned conit ≤ lent_to self.now.core.budgets message.now.from conit) }
    {
        for conit in 0..self.config.conits() {
            let told = message.returned.items()[conit as usize];
            if told > self.budgets.lent(message.from, conit) {
                return false;
            }
        }
        true
    }

    // Whether each told write is due where a log would take it.
    fn are_told_due(&self, message: &Message) -> bool
        requires from { message.now.from < length message.now.covers }
        requires firsts { length message.now.firsts ≡ self.now.core.setup.replicas }
        requires origins { All (λ write. write.origin < self.now.core.setup.replicas) message.now.writes }
        ensures { IsTrue result ↔ All (IsToldDue self.now.core message.now) message.now.writes }
    {
        for write in message.writes.items() {
            if !self.is_told_due(message, write) {
                return false;
            }
        }
        true
    }

    // Whether a told write is due where the log of its origin would take it.
    fn is_told_due(&self, message: &Message, write: &Write) -> bool
        requires from { message.now.from < length message.now.covers }
        requires firsts { write.now.origin < length message.now.firsts }
        requires origin { write.now.origin < self.now.core.setup.replicas }
        ensures { IsTrue result ↔ IsToldDue self.now.core message.now write.now }
    {
        let have = self.have(write.origin);
        let first = message.firsts.items()[write.origin as usize];
        let stamp = message.covers.items()[message.from as usize].stamp;
        first > have || write.index < have || (self.point() < write.stamp && write.stamp <= stamp)
    }
}
