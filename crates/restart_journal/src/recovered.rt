//! A replica that is made again, entry by entry, from what pieces of its journal tell. Where one of the private calls
//! refuses a piece, what was made is of no further use.

ghost use Rattle.std.specs.Prelude.{◌≡◌, ◌≢◌, ◌↔◌, ◌<◌, ◌≤◌, [], ◌∷◌, ◌++◌, OnOk, IfErr, IfOk, IsTrue};
ghost use Rattle.tact_base.specs.declared.limits.TheConstants.{MOMENT_MAX};
ghost use Rattle.run_model.specs.Histories.{last_moment};
ghost use Rattle.run_record.specs.Records.{IsActOf};
ghost use Rattle.run_record.specs.RecordBytes.{act_tag};
ghost use Rattle.run_record.specs.declared.short.ShortAct.TheVariants as short;
ghost use Rattle.restart_journal.specs.declared.parts.Told.TheVariants as told;

use crate::fault::StepFault;
use crate::get_piece::piece_in;
use crate::parts::{Piece, Told};
use replica_core::Replica;
use run_model::{Act, Config, Entry, Message, Reply, Request};
use run_record::{Counts, ShortAct, are_same_replies};
use std::alloc::Global;
use tact_base::{Items, NoMemory, Numbers};

/// The entries of a replica, in order.
pub type EntryList = Items<Entry>;

/// What a journal gave back: a replica, and the entries that it made, in order.
#[derive(Drop)]
pub struct Recovered {
    /// The replica. It stands for the entries.
    pub replica: Replica,
    /// The entries of the journal.
    pub stored: EntryList,
}

impl Recovered {
    ghost use Rattle.restart_journal.specs.PieceAt.{IsPiece, a_piece, entry_with};
    ghost use Rattle.restart_journal.specs.Steps.{IsInStep, HasStored, HasFollowed, HasRead, IsNoneTold, IsNoneRead};

    // The replica of this number of a setup, which made no entry.
    pub(crate) fn new(alloc: Global, config: &Config, replica: u32) -> Result<Recovered, NoMemory>
        requires { replica < config.now.replicas }
        ensures setup { IfOk result (λ made. made.replica.core.setup ≡ config.now) }
        ensures replica { IfOk result (λ made. made.replica.core.replica ≡ replica) }
        ensures stored { IfOk result (λ made. made.stored ≡ []) }
        ensures in_step { IfOk result IsInStep }
    {
        Ok(Recovered {
            replica: Replica::new(alloc, config, replica)?,
            stored: EntryList::new(alloc),
        })
    }

    // The entry of one more piece, of the replica of this number of a setup.
    pub(crate) fn read(
        &mut self,
        alloc: Global,
        config: &Config,
        replica: u32,
        bytes: &[u8],
    ) -> Result<(), StepFault>
        requires setup { self.old.replica.core.setup ≡ config.now }
        requires replica { self.old.replica.core.replica ≡ replica }
        requires in_step { IsInStep self.old }
        ensures ok { OnOk result (HasRead self.old self.new bytes.now) }
        ensures err { IfErr result (IsNoneRead self.old bytes.now) }
    {
        let counts = Counts {
            replicas: config.replicas(),
            conits: config.conits(),
        };
        let Some(piece) = piece_in(alloc, counts, bytes)? else {
            return Err(StepFault::Foreign);
        };
        self.follow(replica, piece)
    }

    // The entry that a piece tells.
    fn follow(&mut self, replica: u32, piece: Piece) -> Result<(), StepFault>
        requires in_step { IsInStep self.old }
        requires replica { self.old.replica.core.replica ≡ replica }
        requires told { IsPiece self.old.replica.core.setup piece }
        ensures ok { OnOk result (HasFollowed self.old self.new piece) }
        ensures err { IfErr result (IsNoneTold self.old piece) }
    {
        let Piece {
            replica: maker,
            moment,
            told,
        } = piece;
        if maker != replica || moment < self.replica.last() {
            return Err(StepFault::Foreign);
        }
        match told {
            Told::Take { message } => self.take(replica, moment, message),
            Told::Step(act) => self.make(replica, moment, act),
        }
    }

    // A message that was taken.
    fn take(&mut self, replica: u32, moment: u64, message: Message) -> Result<(), StepFault>
        requires in_step { IsInStep self.old }
        requires replica { self.old.replica.core.replica ≡ replica }
        requires moment { moment ≤ MOMENT_MAX }
        requires in_time { last_moment self.old.stored ≤ moment }
        ensures ok { OnOk result (HasFollowed self.old self.new (a_piece replica moment (told.Take message))) }
        ensures err { IfErr result (IsNoneTold self.old (a_piece replica moment (told.Take message))) }
    {
        if !self.replica.fits(&message) {
            return Err(StepFault::Foreign);
        }
        self.replica.take(moment, &message)?;
        self.store(replica, moment, Act::Take { message })
    }

    // Another act.
    fn make(&mut self, replica: u32, moment: u64, act: ShortAct) -> Result<(), StepFault>
        requires in_step { IsInStep self.old }
        requires replica { self.old.replica.core.replica ≡ replica }
        requires moment { moment ≤ MOMENT_MAX }
        requires in_time { last_moment self.old.stored ≤ moment }
        requires act { IsActOf self.old.replica.core.setup replica act }
        requires no_take { act_tag act ≢ 3 }
        ensures ok { OnOk result (HasFollowed self.old self.new (a_piece replica moment (told.Step act))) }
        ensures err { IfErr result (IsNoneTold self.old (a_piece replica moment (told.Step act))) }
    {
        match act {
            ShortAct::Call {
                client,
                number,
                request,
                reply,
            } => self.call(replica, moment, client, number, request, reply),
            ShortAct::Send { to, number, firsts } => self.send(replica, moment, to, number, firsts),
            ShortAct::Take { .. } => unreachable!(),
            ShortAct::Lend { to, conit, amount } => self.lend(replica, moment, to, conit, amount),
            ShortAct::Back {
                owner,
                conit,
                amount,
            } => self.give_back(replica, moment, owner, conit, amount),
            ShortAct::Restart => self.restart(replica, moment),
        }
    }

    // A call of a client: its number is the next, and its reply the one that is due.
    fn call(
        &mut self,
        replica: u32,
        moment: u64,
        client: u32,
        number: u64,
        request: Request,
        reply: Reply,
    ) -> Result<(), StepFault>
        requires in_step { IsInStep self.old }
        requires replica { self.old.replica.core.replica ≡ replica }
        requires moment { moment ≤ MOMENT_MAX }
        requires in_time { last_moment self.old.stored ≤ moment }
        requires act { IsActOf self.old.replica.core.setup replica (short.Call client number request reply) }
        ensures ok { OnOk result (HasFollowed self.old self.new (a_piece replica moment (told.Step (short.Call client number request reply)))) }
        ensures err { IfErr result (IsNoneTold self.old (a_piece replica moment (told.Step (short.Call client number request reply)))) }
    {
        if number != self.replica.calls(client) {
            return Err(StepFault::Foreign);
        }
        let due = self.replica.call(moment, client, &request)?;
        if !are_same_replies(&reply, &due) {
            return Err(StepFault::Foreign);
        }
        let act = Act::Call {
            client,
            number,
            request,
            reply,
        };
        self.store(replica, moment, act)
    }

    // A message that was sent: its number is the next, and its firsts are those that the rule of sending makes of them.
    fn send(
        &mut self,
        replica: u32,
        moment: u64,
        to: u32,
        number: u64,
        firsts: Numbers,
    ) -> Result<(), StepFault>
        requires in_step { IsInStep self.old }
        requires replica { self.old.replica.core.replica ≡ replica }
        requires moment { moment ≤ MOMENT_MAX }
        requires in_time { last_moment self.old.stored ≤ moment }
        requires act { IsActOf self.old.replica.core.setup replica (short.Send to number firsts) }
        ensures ok { OnOk result (HasFollowed self.old self.new (a_piece replica moment (told.Step (short.Send to number firsts)))) }
        ensures err { IfErr result (IsNoneTold self.old (a_piece replica moment (told.Step (short.Send to number firsts)))) }
    {
        let message = self.replica.send(moment, to, &firsts)?;
        if message.number != number || !are_same(message.firsts.items(), firsts.items()) {
            return Err(StepFault::Foreign);
        }
        self.store(replica, moment, Act::Send { message })
    }

    // A loan.
    fn lend(
        &mut self,
        replica: u32,
        moment: u64,
        to: u32,
        conit: u32,
        amount: u64,
    ) -> Result<(), StepFault>
        requires in_step { IsInStep self.old }
        requires replica { self.old.replica.core.replica ≡ replica }
        requires moment { moment ≤ MOMENT_MAX }
        requires in_time { last_moment self.old.stored ≤ moment }
        requires act { IsActOf self.old.replica.core.setup replica (short.Lend to conit amount) }
        ensures ok { OnOk result (HasFollowed self.old self.new (a_piece replica moment (told.Step (short.Lend to conit amount)))) }
        ensures err { IfErr result (IsNoneTold self.old (a_piece replica moment (told.Step (short.Lend to conit amount)))) }
    {
        match self.replica.lend(moment, to, conit, amount) {
            Ok(()) => self.store(replica, moment, Act::Lend { to, conit, amount }),
            Err(_) => Err(StepFault::Foreign),
        }
    }

    // An amount given back.
    fn give_back(
        &mut self,
        replica: u32,
        moment: u64,
        owner: u32,
        conit: u32,
        amount: u64,
    ) -> Result<(), StepFault>
        requires in_step { IsInStep self.old }
        requires replica { self.old.replica.core.replica ≡ replica }
        requires moment { moment ≤ MOMENT_MAX }
        requires in_time { last_moment self.old.stored ≤ moment }
        requires act { IsActOf self.old.replica.core.setup replica (short.Back owner conit amount) }
        ensures ok { OnOk result (HasFollowed self.old self.new (a_piece replica moment (told.Step (short.Back owner conit amount)))) }
        ensures err { IfErr result (IsNoneTold self.old (a_piece replica moment (told.Step (short.Back owner conit amount)))) }
    {
        match self.replica.give_back(moment, owner, conit, amount) {
            Ok(()) => {
                let act = Act::Back {
                    owner,
                    conit,
                    amount,
                };
                self.store(replica, moment, act)
            }
            Err(_) => Err(StepFault::Foreign),
        }
    }

    // A new beginning.
    fn restart(&mut self, replica: u32, moment: u64) -> Result<(), StepFault>
        requires in_step { IsInStep self.old }
        requires replica { self.old.replica.core.replica ≡ replica }
        requires moment { moment ≤ MOMENT_MAX }
        requires in_time { last_moment self.old.stored ≤ moment }
        ensures ok { OnOk result (HasFollowed self.old self.new (a_piece replica moment (told.Step short.Restart))) }
        ensures err { IfErr result (IsNoneTold self.old (a_piece replica moment (told.Step short.Restart))) }
    {
        self.replica.restart(moment)?;
        self.store(replica, moment, Act::Restart)
    }

    // Puts an entry behind those that are stored.
    fn store(&mut self, replica: u32, moment: u64, act: Act) -> Result<(), StepFault>
        ensures same { self.new.replica ≡ self.old.replica }
        ensures ok { OnOk result (self.new.stored ≡ self.old.stored ++ entry_with replica moment act ∷ []) }
        ensures err { IfErr result (λ fault. fault ≡ StepFault.NoMemory) }
    {
        let entry = Entry {
            replica,
            moment,
            act,
        };
        self.stored.push(entry)?;
        Ok(())
    }
}

// Whether two lists of numbers are the same.
fn are_same(one: &[u64], other: &[u64]) -> bool
    ensures { IsTrue result ↔ (one.now ≡ other.now) }
{
    one == other
}
