//! The message that a replica sends.
ghost use Rattle.std.specs.Prelude.{◌≡◌, ◌≢◌, ℕ, ◌<◌, ◌≤◌, List, true, false, take, drop, ◌++◌, length, map, slice_index, IfOk, IfErr, OnOk, OnErr};
ghost use Rattle.tact_base.specs.declared.limits.TheConstants.{MOMENT_MAX};
ghost use Rattle.tact_base.specs.Setup.{conits_of};
ghost use Rattle.split_budget.specs.Budgets.{lent_to, returned_to};
ghost use Rattle.run_model.specs.Histories.{moment_at};
ghost use Rattle.run_model.specs.Messages.{message_of};
ghost use Rattle.run_model.specs.declared.entry.Act.TheVariants as act;
ghost use Rattle.run_model.specs.declared.entry.Entry.{Entry};
ghost use Rattle.replica_core.specs.States.{log_at, base_at, origins_of, is_full};
ghost use Rattle.replica_core.specs.Sending.{cover_told, first_told, writes_told, next_message};
ghost use Rattle.replica_core.specs.Stands.{Stands, GoesOn, IsSameReplica, IsFaultOf};

use super::Replica;
use crate::CoreFault;
use run_model::Message;
use tact_base::{Cover, Covers, NoMemory, Numbers, REPLICAS_MAX, first_index};

impl Replica {
    /// Sends the next message to another replica, in the memory that the replica was made in. By origin its writes
    /// begin past those that the other is known to have, or at the given first where that is more (the rule of sending
    /// in docs/MODEL.md). The moment of the entry is the greater of the handed one and that of the last entry.
    ///
    /// `Full` comes exactly where 20,000 entries were made or the clock stands at 2^40. Both faults leave the
    /// replica as it was.
    pub fn send(&mut self, moment: u64, to: u32, firsts: &Numbers) -> Result<Message, CoreFault>
        requires moment { moment ≤ MOMENT_MAX }
        requires to { to < self.old.core.setup.replicas }
        requires other { to ≢ self.old.core.replica }
        requires firsts { length firsts.now ≡ self.old.core.setup.replicas }
        ensures goes_on { IfOk result (λ message. GoesOn self.old.core self.new.core moment (λ part. act.Send message)) }
        ensures due { IfOk result (λ message. (part : List Entry) → Stands part self.old.core
            → message ≡ message_of self.old.core.setup self.old.core.replica part (moment_at part moment) to firsts.now) }
        ensures same { IsSameReplica self.old.core self.new.core }
        ensures spare { self.new.spare ≡ self.old.spare }
        ensures not_full { OnOk result (is_full self.old.core ≡ false) }
        ensures fault { IfErr result (IsFaultOf self.old.core) }
        ensures err { OnErr result (self.new ≡ self.old) }
    {
        let mut message = Message::blank(self.alloc);
        self.send_into(moment, to, firsts, &mut message)?;
        Ok(message)
    }

    /// Sends the next message to another replica, as [`Replica::send`], and puts it in the place of `message`, whose
    /// memory it uses: so a message needn't be moved to where it is to lie.
    ///
    /// `Full` comes exactly where 20,000 entries were made or the clock stands at 2^40. Both faults leave the
    /// replica as it was, and of `message` nothing is said then.
    pub fn send_into(
        &mut self,
        moment: u64,
        to: u32,
        firsts: &Numbers,
        message: &mut Message,
    ) -> Result<(), CoreFault>
        requires moment { moment ≤ MOMENT_MAX }
        requires to { to < self.old.core.setup.replicas }
        requires other { to ≢ self.old.core.replica }
        requires firsts { length firsts.now ≡ self.old.core.setup.replicas }
        ensures goes_on { OnOk result (GoesOn self.old.core self.new.core moment (λ part. act.Send message.new)) }
        ensures due { OnOk result ((part : List Entry) → Stands part self.old.core
            → message.new ≡ message_of self.old.core.setup self.old.core.replica part (moment_at part moment) to firsts.now) }
        ensures same { IsSameReplica self.old.core self.new.core }
        ensures spare { self.new.spare ≡ self.old.spare }
        ensures not_full { OnOk result (is_full self.old.core ≡ false) }
        ensures fault { IfErr result (IsFaultOf self.old.core) }
        ensures err { OnErr result (self.new ≡ self.old) }
    {
        self.may_enter()?;
        self.put_message(moment, to, firsts, message)?;
        self.keep_told(to, message);
        self.enter_sending(moment, to, firsts, message);
        Ok(())
    }

    /// Goes on by the sending of a message that is the one `message` gives now. Who has to keep the entry before the
    /// replica makes it, in a journal say, sends so, and nothing is left to fail. The replica may not be full. Takes no
    /// memory.
    pub fn enter_sending(&mut self, moment: u64, to: u32, firsts: &Numbers, message: &Message)
        requires free { is_full self.old.core ≡ false }
        requires moment { moment ≤ MOMENT_MAX }
        requires to { to < self.old.core.setup.replicas }
        requires other { to ≢ self.old.core.replica }
        requires firsts { length firsts.now ≡ self.old.core.setup.replicas }
        requires due { (part : List Entry) → Stands part self.old.core
            → message.now ≡ message_of self.old.core.setup self.old.core.replica part (moment_at part moment) to firsts.now }
        ensures goes_on { GoesOn self.old.core self.new.core moment (λ part. act.Send message.now) }
        ensures same { IsSameReplica self.old.core self.new.core }
        ensures spare { self.new.spare ≡ self.old.spare }
    {
        self.sends = self.sends.saturating_add(1);
        self.enter(moment);
    }

    // Puts the message that is sent at this moment, where these firsts are given, in the place of another.
    pub(crate) fn put_next_message(
        &self,
        moment: u64,
        to: u32,
        given: &[u64],
        message: &mut Message,
    ) -> Result<(), NoMemory>
        requires to { to < self.now.core.setup.replicas }
        requires other { to ≢ self.now.core.replica }
        requires given { length given.now ≡ self.now.core.setup.replicas }
        ensures { OnOk result (message.new ≡ next_message self.now.core moment to given.now) }
    {
        message.from = self.replica;
        message.to = to;
        message.number = self.sends;
        self.put_haves(&mut message.haves)?;
        self.put_covers(moment, &mut message.covers)?;
        self.put_firsts(to, given, &mut message.firsts)?;
        message.writes = self.logs.told(self.alloc, to, message.firsts.items())?;
        message.lent.replace(self.budgets.all_lent(to))?;
        message.returned.replace(self.budgets.all_returned(to))
    }

    // By origin, where the told writes begin.
    fn put_firsts(&self, to: u32, given: &[u64], firsts: &mut Numbers) -> Result<(), NoMemory>
        requires to { to < self.now.core.setup.replicas }
        requires given { length given.now ≡ self.now.core.setup.replicas }
        ensures { OnOk result (firsts.new ≡ map (first_told self.now.core to given.now) (origins_of self.now.core)) }
    {
        let mut row = [0; REPLICAS_MAX as usize];
        for origin in 0..self.config.replicas() {
            row[origin as usize] = self.first_told(to, given, origin);
        }
        firsts.replace(&row[..self.config.replicas() as usize])
    }

    // Where the told writes of an origin begin.
    fn first_told(&self, to: u32, given: &[u64], origin: u32) -> u64
        requires to { to < self.now.core.setup.replicas }
        requires origin { origin < self.now.core.setup.replicas }
        requires given { length given.now ≡ self.now.core.setup.replicas }
        ensures { result ≡ first_told self.now.core to given.now origin }
    {
        let given = given[origin as usize];
        first_index(to, origin, self.have(origin), self.known(to, origin), given)
    }

    // By origin, how many writes it has.
    fn put_haves(&self, haves: &mut Numbers) -> Result<(), NoMemory>
        ensures { OnOk result (haves.new ≡ map (λ origin. length (log_at self.now.core origin)) (origins_of self.now.core)) }
    {
        let mut row = [0; REPLICAS_MAX as usize];
        for origin in 0..self.config.replicas() {
            row[origin as usize] = self.have(origin);
        }
        haves.replace(&row[..self.config.replicas() as usize])
    }

    // The cover of each origin: of itself its own state, at this moment.
    fn put_covers(&self, moment: u64, covers: &mut Covers) -> Result<(), NoMemory>
        ensures { OnOk result (covers.new ≡ map (cover_told self.now.core moment) (origins_of self.now.core)) }
    {
        covers.replace(self.vector.covers())?;
        let own = Cover {
            count: self.have(self.replica),
            stamp: self.clock,
            moment,
        };
        covers.set(self.replica as usize, own);
        Ok(())
    }

    // Keeps, for a peer, the list of a full message to it.
    fn keep_told(&mut self, to: u32, message: &Message)
        requires to { to < self.old.core.setup.replicas }
        requires sized { length message.now.firsts ≡ self.old.core.setup.replicas }
        requires told { message.now.writes ≡ writes_told self.old.core message.now.firsts }
        ensures { self.new ≡ self.old }
    {
        self.logs
            .keep_told(to, message.firsts.items(), &message.writes);
    }
}
