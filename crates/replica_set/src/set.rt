//! The replicas of a setup side by side.
ghost use Rattle.std.specs.Prelude.{◌≡◌, ◌≢◌, ℕ, ◌<◌, ◌≤◌, List, [], length, true, false, IfOk, IfErr, OnOk, OnErr};
ghost use Rattle.tact_base.specs.declared.limits.TheConstants.{AMOUNT_MAX, CLIENTS, MOMENT_MAX};
ghost use Rattle.run_model.specs.Histories.{part_of, calls_in, moment_at};
ghost use Rattle.run_model.specs.Messages.{message_of};
ghost use Rattle.run_model.specs.Ranges.{IsRequestInRange};
ghost use Rattle.run_model.specs.Replies.{reply_of};
ghost use Rattle.run_model.specs.declared.entry.Act.TheVariants as act;
ghost use Rattle.run_model.specs.declared.entry.Entry.{Entry};
ghost use Rattle.replica_core.specs.Lending.{IsLendFault, IsReturnFault, MayLend, MayReturn};
ghost use Rattle.replica_core.specs.Stands.{IsFaultOf};
ghost use Rattle.replica_core.specs.States.{is_full};
ghost use Rattle.replica_core.specs.Taking.{FitsAt};
ghost use Rattle.replica_set.specs.Sets.{StandsFor, GoesOn, IsAt, HoldsAt};

use replica_core::{CoreFault, LoanFault, Replica};
use run_model::{Config, Message, Reply, Request};
use std::alloc::Global;
use std::marker::Model;
use tact_base::{NoMemory, Numbers};

/// All replicas of a setup. Contracts see the setup and what each replica keeps, by number; `StandsFor` says
/// when that is what the definitions say of a history of all of them. Each call is one of one replica, and
/// goes on from every history that the replicas stood for.
#[derive(Drop)]
pub struct ReplicaSet {
    config: Config,
    replicas: Vec<Replica>,
}

impl Model for ReplicaSet {
    ghost use Rattle.std.specs.Prelude.{map};
    ghost use Rattle.replica_core.specs.States.{ReplicaState};
    ghost use Rattle.replica_set.specs.Sets.{SetState, IsSet};

    ghost Value = { SetState };

    ghost view = { λ s. record { setup = s.config; cores = map (λ (replica : ReplicaState). replica.core) s.replicas.items } };

    ghost invariant = { λ s. IsSet (view s) };
}

impl ReplicaSet {
    /// The replicas of a setup, which have done nothing. They keep what they have in memory of `alloc`.
    pub fn new(alloc: Global, config: &Config) -> Result<ReplicaSet, NoMemory>
        ensures setup { IfOk result (λ set. set.setup ≡ config.now) }
        ensures stands { IfOk result (StandsFor []) }
    {
        let mut replicas = Vec::new(alloc);
        for replica in 0..config.replicas() {
            replicas.push(Replica::new(alloc, config, replica)?)?;
        }
        Ok(ReplicaSet {
            config: config.copy(alloc)?,
            replicas,
        })
    }

    /// The setup that they are the replicas of. Takes no memory.
    pub fn config(&self) -> &Config
        ensures { result.now ≡ self.now.setup }
    {
        &self.config
    }

    /// The replica of a number. Takes no memory.
    pub fn at(&self, replica: u32) -> &Replica
        requires { replica < self.now.setup.replicas }
        ensures { IsAt self.now replica result.now.core }
    {
        &self.replicas[replica as usize]
    }
}

impl ReplicaSet {
    /// A replica answers a call of a client at a moment, with the reply that is due after its part. The moment of
    /// the entry is the greater of the handed one and that of the replica's last entry.
    ///
    /// `Full` comes exactly where the replica made 20,000 entries or its clock stands at 2^40. Both faults leave
    /// all replicas as they were.
    pub fn call(
        &mut self,
        replica: u32,
        moment: u64,
        client: u32,
        request: &Request,
    ) -> Result<Reply, CoreFault>
        requires replica { replica < self.old.setup.replicas }
        requires moment { moment ≤ MOMENT_MAX }
        requires client { client < CLIENTS }
        requires in_range { IsRequestInRange self.old.setup request.now }
        ensures goes_on { IfOk result (λ given. GoesOn self.old self.new replica moment
            (λ part. act.Call client (calls_in part client) request.now given)) }
        ensures due { IfOk result (λ given. (history : List Entry) → StandsFor history self.old
            → given ≡ reply_of self.old.setup replica (part_of history replica) (moment_at (part_of history replica) moment) request.now) }
        ensures setup { self.new.setup ≡ self.old.setup }
        ensures fault { IfErr result (λ fault. HoldsAt self.old replica (λ core. IsFaultOf core fault)) }
        ensures err { OnErr result (self.new ≡ self.old) }
    {
        let one = &mut self.replicas[replica as usize];
        one.call(moment, client, request)
    }

    /// A replica sends the message to another that is due after its part, where these firsts are given. The moment
    /// of the entry is the greater of the handed one and that of the replica's last entry.
    ///
    /// `Full` comes exactly where the replica made 20,000 entries or its clock stands at 2^40. Both faults leave
    /// all replicas as they were.
    pub fn send(
        &mut self,
        from: u32,
        moment: u64,
        to: u32,
        firsts: &Numbers,
    ) -> Result<Message, CoreFault>
        requires from { from < self.old.setup.replicas }
        requires moment { moment ≤ MOMENT_MAX }
        requires to { to < self.old.setup.replicas }
        requires other { to ≢ from }
        requires firsts { length firsts.now ≡ self.old.setup.replicas }
        ensures goes_on { IfOk result (λ message. GoesOn self.old self.new from moment (λ part. act.Send message)) }
        ensures due { IfOk result (λ message. (history : List Entry) → StandsFor history self.old
            → message ≡ message_of self.old.setup from (part_of history from) (moment_at (part_of history from) moment) to firsts.now) }
        ensures setup { self.new.setup ≡ self.old.setup }
        ensures fault { IfErr result (λ fault. HoldsAt self.old from (λ core. IsFaultOf core fault)) }
        ensures err { OnErr result (self.new ≡ self.old) }
    {
        let one = &mut self.replicas[from as usize];
        one.send(moment, to, firsts)
    }

    /// A replica sends the message to another that is due after its part, as [`ReplicaSet::send`], and it is put in
    /// the place of `message`, whose memory it uses.
    ///
    /// `Full` comes exactly where the replica made 20,000 entries or its clock stands at 2^40. Both faults leave
    /// all replicas as they were, and of `message` nothing is said then.
    pub fn send_into(
        &mut self,
        from: u32,
        moment: u64,
        to: u32,
        firsts: &Numbers,
        message: &mut Message,
    ) -> Result<(), CoreFault>
        requires from { from < self.old.setup.replicas }
        requires moment { moment ≤ MOMENT_MAX }
        requires to { to < self.old.setup.replicas }
        requires other { to ≢ from }
        requires firsts { length firsts.now ≡ self.old.setup.replicas }
        ensures goes_on { OnOk result (GoesOn self.old self.new from moment (λ part. act.Send message.new)) }
        ensures due { OnOk result ((history : List Entry) → StandsFor history self.old
            → message.new ≡ message_of self.old.setup from (part_of history from) (moment_at (part_of history from) moment) to firsts.now) }
        ensures setup { self.new.setup ≡ self.old.setup }
        ensures fault { IfErr result (λ fault. HoldsAt self.old from (λ core. IsFaultOf core fault)) }
        ensures err { OnErr result (self.new ≡ self.old) }
    {
        let sender = &mut self.replicas[from as usize];
        sender.send_into(moment, to, firsts, message)
    }

    /// A replica takes a message, which fits it unless it is full; a message that was sent to it in a run does
    /// (`sent_message_fits`). The moment of the entry is the greater of the handed one and that of the replica's last
    /// entry.
    ///
    /// `Full` comes exactly where the replica made 20,000 entries or its clock stands at 2^40. Both faults leave
    /// all replicas as they were.
    pub fn take(&mut self, replica: u32, moment: u64, message: &Message) -> Result<(), CoreFault>
        requires replica { replica < self.old.setup.replicas }
        requires moment { moment ≤ MOMENT_MAX }
        requires fits { HoldsAt self.old replica (λ core. is_full core ≡ false → FitsAt core message.now) }
        ensures goes_on { OnOk result (GoesOn self.old self.new replica moment (λ part. act.Take message.now)) }
        ensures setup { self.new.setup ≡ self.old.setup }
        ensures fault { IfErr result (λ fault. HoldsAt self.old replica (λ core. IsFaultOf core fault)) }
        ensures err { OnErr result (self.new ≡ self.old) }
    {
        let one = &mut self.replicas[replica as usize];
        one.may_enter()?;
        one.take(moment, message)
    }

    /// An owner lends a holder a further amount of its own bound on a conit. The moment of the entry is the greater
    /// of the handed one and that of the owner's last entry. Takes no memory.
    ///
    /// `Full` comes exactly where the owner made 20,000 entries or its clock stands at 2^40, and else `Home`
    /// exactly where less than the amount is at home. Both leave all replicas as they were.
    pub fn lend(
        &mut self,
        owner: u32,
        moment: u64,
        holder: u32,
        conit: u32,
        amount: u64,
    ) -> Result<(), LoanFault>
        requires owner { owner < self.old.setup.replicas }
        requires moment { moment ≤ MOMENT_MAX }
        requires holder { holder < self.old.setup.replicas }
        requires other { holder ≢ owner }
        requires conit { conit < self.old.setup.conits }
        requires amount { amount ≤ AMOUNT_MAX }
        ensures goes_on { OnOk result (GoesOn self.old self.new owner moment (λ part. act.Lend holder conit amount)) }
        ensures may { OnOk result (HoldsAt self.old owner (λ core. MayLend core conit amount)) }
        ensures setup { self.new.setup ≡ self.old.setup }
        ensures fault { IfErr result (λ fault. HoldsAt self.old owner (λ core. IsLendFault core conit amount fault)) }
        ensures err { OnErr result (self.new ≡ self.old) }
    {
        let one = &mut self.replicas[owner as usize];
        one.lend(moment, holder, conit, amount)
    }

    /// A holder gives back to an owner an amount of its share of the owner's bound on a conit. The moment of the
    /// entry is the greater of the handed one and that of the holder's last entry. Takes no memory.
    ///
    /// `Full` comes exactly where the holder made 20,000 entries or its clock stands at 2^40, and else `Free`
    /// exactly where less than the amount is free. Both leave all replicas as they were.
    pub fn give_back(
        &mut self,
        holder: u32,
        moment: u64,
        owner: u32,
        conit: u32,
        amount: u64,
    ) -> Result<(), LoanFault>
        requires holder { holder < self.old.setup.replicas }
        requires moment { moment ≤ MOMENT_MAX }
        requires owner { owner < self.old.setup.replicas }
        requires other { owner ≢ holder }
        requires conit { conit < self.old.setup.conits }
        requires amount { amount ≤ AMOUNT_MAX }
        ensures goes_on { OnOk result (GoesOn self.old self.new holder moment (λ part. act.Back owner conit amount)) }
        ensures may { OnOk result (HoldsAt self.old holder (λ core. MayReturn core owner conit amount)) }
        ensures setup { self.new.setup ≡ self.old.setup }
        ensures fault { IfErr result (λ fault. HoldsAt self.old holder (λ core. IsReturnFault core owner conit amount fault)) }
        ensures err { OnErr result (self.new ≡ self.old) }
    {
        let one = &mut self.replicas[holder as usize];
        one.give_back(moment, owner, conit, amount)
    }

    /// A replica begins anew. The moment of the entry is the greater of the handed one and that of the replica's
    /// last entry. Takes no memory.
    ///
    /// `Full` comes exactly where the replica made 20,000 entries or its clock stands at 2^40, and leaves all
    /// replicas as they were.
    pub fn restart(&mut self, replica: u32, moment: u64) -> Result<(), CoreFault>
        requires replica { replica < self.old.setup.replicas }
        requires moment { moment ≤ MOMENT_MAX }
        ensures goes_on { OnOk result (GoesOn self.old self.new replica moment (λ part. act.Restart)) }
        ensures setup { self.new.setup ≡ self.old.setup }
        ensures fault { IfErr result (λ fault. HoldsAt self.old replica (λ core. (is_full core ≡ true) × IsFaultOf core fault)) }
        ensures err { OnErr result (self.new ≡ self.old) }
    {
        let one = &mut self.replicas[replica as usize];
        one.restart(moment)
    }
}
