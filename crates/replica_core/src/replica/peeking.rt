//! The message that a replica would send now.
ghost use Rattle.std.specs.Prelude.{◌≡◌, ◌≢◌, ◌<◌, List, length, IfOk, OnOk};
ghost use Rattle.run_model.specs.Histories.{moment_at};
ghost use Rattle.run_model.specs.Messages.{message_of};
ghost use Rattle.run_model.specs.declared.entry.Entry.{Entry};
ghost use Rattle.replica_core.specs.Sending.{writes_told};
ghost use Rattle.replica_core.specs.Stands.{Stands};

use super::Replica;
use run_model::Message;
use tact_base::{NoMemory, Numbers};

impl Replica {
    /// The message that `send` would send to another replica at this moment, where these firsts are given, in the
    /// memory that the replica was made in. Who needs a second one takes it before sending: afterwards nothing is left
    /// to fail. `NoMemory` is its only error.
    pub fn message(&self, moment: u64, to: u32, firsts: &Numbers) -> Result<Message, NoMemory>
        requires to { to < self.now.core.setup.replicas }
        requires other { to ≢ self.now.core.replica }
        requires firsts { length firsts.now ≡ self.now.core.setup.replicas }
        ensures due { IfOk result (λ message. (part : List Entry) → Stands part self.now.core
            → message ≡ message_of self.now.core.setup self.now.core.replica part (moment_at part moment) to firsts.now) }
    {
        let mut message = Message::blank(self.alloc);
        self.put_message(moment, to, firsts, &mut message)?;
        Ok(message)
    }

    // Puts the message that `send` would send in the place of another.
    pub(super) fn put_message(
        &self,
        moment: u64,
        to: u32,
        firsts: &Numbers,
        message: &mut Message,
    ) -> Result<(), NoMemory>
        requires to { to < self.now.core.setup.replicas }
        requires other { to ≢ self.now.core.replica }
        requires firsts { length firsts.now ≡ self.now.core.setup.replicas }
        ensures due { OnOk result ((part : List Entry) → Stands part self.now.core
            → message.new ≡ message_of self.now.core.setup self.now.core.replica part (moment_at part moment) to firsts.now) }
        ensures sized { OnOk result (length message.new.firsts ≡ self.now.core.setup.replicas) }
        ensures told { OnOk result (message.new.writes ≡ writes_told self.now.core message.new.firsts) }
    {
        let moment = moment.max(self.last);
        self.put_next_message(moment, to, firsts.items(), message)
    }
}
