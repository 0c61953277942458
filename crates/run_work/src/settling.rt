//! How a run is settled: rounds in which each replica sends to each other, on one thread.
ghost use Rattle.std.specs.Prelude.{◌≡◌, ◌≢◌, ◌<◌, ◌≤◌, ◌+◌, ◌*◌, ◌++◌, Contains, IfErr, IfOk, IfSome, List, None, OnOk, ℕ, [], get_or, length, map};
ghost use Rattle.std.specs.Option.{option_map, option_to_list};
ghost use Rattle.link_faults.specs.declared.plan.TheConstants.{INBOX_MAX};
ghost use Rattle.postbox.specs.Posts.{IsFor};
ghost use Rattle.run_model.specs.Histories.{IsPrefix};
ghost use Rattle.run_model.specs.Runs.{IsRun};
ghost use Rattle.run_model.specs.declared.entry.Entry.{Entry};
ghost use Rattle.run_model.specs.declared.entry.Message.{Message};
ghost use Rattle.run_history.specs.Seats.{NoteView};
ghost use Rattle.work_load.specs.declared.plan.Client.{Client};
ghost use Rattle.run_work.specs.Ends.{AreFaultless, AreUnmarked, AreWhole, IsKeptStop};
ghost use Rattle.run_work.specs.declared.seat.End.{End};
ghost use Rattle.run_work.specs.Rounds.{AreEmpty, AreStill, HasMadeOne, HasReached, HasSeenAt, HasSeenSending, HasSeenTaking, HasSentAll, HasSentTo, HasTaken, HaveArrived, HaveCome, HaveSeen, HaveSentAll, lose_at, made_at, waiting_at};
ghost use Rattle.run_work.specs.Settling.{AreReady, AreSettled, HaveGoneOn, HaveMadeFew, HaveMet, IsSeatedAt};

use crate::leaving::Stop;
use crate::seat::End;
use link_faults::Inbox;
use replica_lock::{Node, Parcel};
use run_history::{Desk, Note};
use std::marker::Model;
use std::sync::Wait;
use tact_base::NoMemory;
use tact_io::{Clock, Gate, Journal};

/// The replicas of a run, by number, when its workers have ended: their nodes, what ends these, and their inboxes.
#[derive(Drop)]
pub(crate) struct Settling<'d, 'g, J: Journal, G: Gate> {
    pub(crate) desk: &'d Desk,
    pub(crate) nodes: Vec<Node<'d, J, &'g G>>,
    pub(crate) ends: Vec<End>,
    pub(crate) inboxes: Vec<Inbox<Parcel>>,
}

impl<'d, 'g, J: Journal, G: Gate> Model for Settling<'d, 'g, J, G> {
    ghost use Rattle.run_work.specs.Settling.{IsSettling, SettlingView};

    ghost Value = { SettlingView };

    ghost view = { λ s. record { desk = s.desk.now; nodes = s.nodes.items; ends = s.ends.items; inboxes = s.inboxes.items } };

    ghost invariant = { λ s. IsSettling (record { desk = s.desk.now; nodes = s.nodes.items; ends = s.ends.items; inboxes = s.inboxes.items }) };
}

impl<'d, 'g, J: Journal, G: Gate> Settling<'d, 'g, J, G> {
    /// Lets each replica hear what a note has seen, empties the inboxes, and then goes through so many rounds, at least
    /// one. It ends at the first refusal, and tells where. The note then sees what the replicas have seen. Want of memory
    /// for a session is its only error.
    pub(crate) fn settle<R: Wait, C: Clock>(
        &mut self,
        rt: &R,
        clock: &C,
        rounds: u64,
        note: &mut Note,
    ) -> Result<Option<Stop>, NoMemory>
        requires whole { (clients : List Client) × (seen : List NoteView) × AreWhole clients seen self.old.nodes self.old.ends }
        requires note { note.old.table ≡ self.old.desk.table }
        requires rounds { 0 < rounds }
        ensures note { (note.new.table ≡ note.old.table) × IsPrefix note.old.seen note.new.seen }
        ensures met { IfOk result (λ stop. stop ≡ None → AreUnmarked self.new.ends → HaveMet self.old note.old.seen note.new.seen) }
        ensures few { OnOk result (AreUnmarked self.new.ends → HaveMadeFew rounds self.old self.new) }
        ensures settled { OnOk result (AreSettled self.old self.new) }
        ensures stop { IfOk result (λ stop. IfSome stop (IsKeptStop J.tells self.old.desk (AreFaultless self.new.ends))) }
    {
        self.seat_rest()?;
        self.hear(rt, note);
        let stop = self.rounds(rt, clock, rounds).err();
        self.tell(note);
        Ok(stop)
    }

    // A session of client 0 for each replica that has none.
    fn seat_rest(&mut self) -> Result<(), NoMemory>
        requires whole { (clients : List Client) × (seen : List NoteView) × AreWhole clients seen self.old.nodes self.old.ends }
        ensures settled { OnOk result (AreSettled self.old self.new) }
        ensures ready { OnOk result (AreReady self.new) }
        ensures still { OnOk result (AreStill self.old self.new) }
        ensures inboxes { length self.old.inboxes ≡ length self.old.nodes }
    {
        for replica in 0..self.nodes.len() {
            self.seat(replica)?;
        }
        Ok(())
    }

    // A session of client 0 for a replica that has none.
    fn seat(&mut self, replica: usize) -> Result<(), NoMemory>
        requires replica { replica < length self.old.nodes }
        requires whole { (none : End) → map (λ session. session.client) (get_or self.old.ends replica none).sessions.items ≡ (get_or self.old.ends replica none).roster.clients }
        ensures seated { OnOk result (IsSeatedAt replica self.old self.new) }
    {
        self.ends[replica].seat(&self.nodes[replica])
    }

    // Each replica hears a note.
    #[tactic(auto, using(crate::proofs::Settled::have_gone_on_same, crate::proofs::Settled::have_gone_on_then, crate::proofs::RoundSteps::are_still_same, crate::proofs::RoundSteps::are_still_then))]
    fn hear<R: Wait>(&mut self, rt: &R, note: &mut Note)
        requires ready { AreReady self.old }
        requires note { note.old.table ≡ self.old.desk.table }
        ensures note { note.new ≡ note.old }
        ensures on { HaveGoneOn self.old self.new }
        ensures ready { AreReady self.new }
        ensures still { AreStill self.old self.new }
        ensures told { HaveSeen self.new note.old.seen }
    {
        for replica in 0..self.nodes.len() {
            let heard = note.twin(self.desk);
            self.hear_at(rt, replica, heard);
        }
    }

    // A replica hears a note.
    fn hear_at<R: Wait>(&mut self, rt: &R, replica: usize, note: Note)
        requires replica { replica < length self.old.nodes }
        requires ready { AreReady self.old }
        requires note { note.table ≡ self.old.desk.table }
        ensures on { HaveGoneOn self.old self.new }
        ensures ready { AreReady self.new }
        ensures still { AreStill self.old self.new }
        ensures told { HasSeenAt self.new replica note.seen }
    {
        self.ends[replica].hear(rt, &self.nodes[replica], note);
    }

    // A note takes in what each replica has seen.
    #[tactic(auto, using(crate::proofs::Settled::have_gone_on_same, crate::proofs::Settled::have_gone_on_then, crate::proofs::RoundSteps::are_still_same, crate::proofs::RoundSteps::are_still_then))]
    fn tell(&mut self, note: &mut Note)
        requires ready { AreReady self.old }
        requires note { note.old.table ≡ self.old.desk.table }
        ensures on { HaveGoneOn self.old self.new }
        ensures still { AreStill self.old self.new }
        ensures note { (note.new.table ≡ note.old.table) × IsPrefix note.old.seen note.new.seen }
        ensures run { 0 < length self.old.nodes → IsRun self.old.desk.setup note.new.seen }
        ensures told { (replica : ℕ) (front : List Entry) → replica < length self.old.nodes → HasSeenAt self.old replica front → IsPrefix front note.new.seen }
    {
        for replica in 0..self.nodes.len() {
            let told = self.note_at(replica);
            note.meet(self.desk, told);
        }
    }

    // A note of what a replica has seen.
    fn note_at(&mut self, replica: usize) -> Note
        requires replica { replica < length self.old.nodes }
        requires ready { AreReady self.old }
        ensures on { HaveGoneOn self.old self.new }
        ensures ready { AreReady self.new }
        ensures still { AreStill self.old self.new }
        ensures table { result.table ≡ self.old.desk.table }
        ensures seen { (front : List Entry) → HasSeenAt self.old replica front → IsPrefix front result.seen }
    {
        self.ends[replica].note(&self.nodes[replica])
    }

    // Empties the inboxes, and goes through so many rounds.
    #[tactic(auto, using(crate::proofs::Settled::have_gone_on_same, crate::proofs::Settled::have_gone_on_then))]
    fn rounds<R: Wait, C: Clock>(&mut self, rt: &R, clock: &C, rounds: u64) -> Result<(), Stop>
        requires ready { AreReady self.old }
        ensures on { HaveGoneOn self.old self.new }
        ensures ready { AreReady self.new }
        ensures made { AreUnmarked self.new.ends → (replica : ℕ) → replica < length self.old.nodes → made_at self.new replica ≤ made_at self.old replica + (1024 + 21 * rounds) }
        ensures arrived { OnOk result (AreUnmarked self.new.ends → (front : List Entry) → 0 < rounds → HaveSeen self.old front → HaveArrived front self.new) }
        ensures stop { IfErr result (IsKeptStop J.tells self.old.desk (AreFaultless self.new.ends)) }
    {
        self.take_all(rt, clock)?;
        for _round in 0..rounds {
            self.round(rt, clock)?;
        }
        Ok(())
    }

    // Each replica sends to each other, and then takes all that waits for it.
    fn round<R: Wait, C: Clock>(&mut self, rt: &R, clock: &C) -> Result<(), Stop>
        requires ready { AreReady self.old }
        requires empty { AreEmpty self.old }
        ensures on { HaveGoneOn self.old self.new }
        ensures ready { AreReady self.new }
        ensures made { AreUnmarked self.new.ends → (replica : ℕ) → replica < length self.old.nodes → made_at self.new replica ≤ made_at self.old replica + 21 }
        ensures empty { OnOk result (AreEmpty self.new) }
        ensures arrived { OnOk result (AreUnmarked self.new.ends → (front : List Entry) → HaveSeen self.old front → HaveArrived front self.new) }
        ensures stop { IfErr result (IsKeptStop J.tells self.old.desk (AreFaultless self.new.ends)) }
    {
        self.send_all(rt, clock)?;
        self.take_all(rt, clock)
    }

    // Each replica sends to each other.
    #[tactic(auto, using(crate::proofs::Settled::have_gone_on_same, crate::proofs::Settled::have_gone_on_then))]
    fn send_all<R: Wait, C: Clock>(&mut self, rt: &R, clock: &C) -> Result<(), Stop>
        requires ready { AreReady self.old }
        requires empty { AreEmpty self.old }
        ensures on { HaveGoneOn self.old self.new }
        ensures ready { AreReady self.new }
        ensures all { HaveSentAll self.old self.new }
        ensures reached { OnOk result (AreUnmarked self.new.ends → (front : List Entry) (from to : ℕ) → HaveSeen self.old front
            → from < length self.old.nodes → to < length self.old.nodes → to ≢ from → HasReached front from to self.new) }
        ensures stop { IfErr result (IsKeptStop J.tells self.old.desk (AreFaultless self.new.ends)) }
    {
        for from in 0..self.nodes.len() {
            self.send_from(rt, clock, from)?;
        }
        Ok(())
    }

    // A replica sends to each other.
    #[tactic(auto, using(crate::proofs::Settled::have_gone_on_same, crate::proofs::Settled::have_gone_on_then))]
    fn send_from<R: Wait, C: Clock>(&mut self, rt: &R, clock: &C, from: usize) -> Result<(), Stop>
        requires from { from < length self.old.nodes }
        requires ready { AreReady self.old }
        requires room { (to : ℕ) → to < length self.old.nodes → length (waiting_at self.old to) < INBOX_MAX }
        ensures on { HaveGoneOn self.old self.new }
        ensures ready { AreReady self.new }
        ensures all { HasSentAll from self.old self.new }
        ensures reached { OnOk result (AreUnmarked self.new.ends → (front : List Entry) (to : ℕ) → HasSeenAt self.old from front
            → to < length self.old.nodes → to ≢ from → HasReached front from to self.new) }
        ensures stop { IfErr result (IsKeptStop J.tells self.old.desk (AreFaultless self.new.ends)) }
    {
        for to in 0..self.nodes.len() {
            if to != from {
                self.send(rt, clock, from, to)?;
            }
        }
        Ok(())
    }

    // Sends from one replica to another.
    #[tactic(auto, using(crate::proofs::Settled::have_gone_on_same, crate::proofs::Settled::have_gone_on_then))]
    fn send<R: Wait, C: Clock>(
        &mut self,
        rt: &R,
        clock: &C,
        from: usize,
        to: usize,
    ) -> Result<(), Stop>
        requires from { from < length self.old.nodes }
        requires to { to < length self.old.nodes }
        requires other { to ≢ from }
        requires ready { AreReady self.old }
        requires room { length (waiting_at self.old to) < INBOX_MAX }
        ensures on { HaveGoneOn self.old self.new }
        ensures ready { AreReady self.new }
        ensures sent { HasSentTo from to self.old self.new }
        ensures reached { OnOk result (AreUnmarked self.new.ends → (front : List Entry) → HasSeenAt self.old from front → HasReached front from to self.new) }
        ensures stop { IfErr result (IsKeptStop J.tells self.old.desk (AreFaultless self.new.ends)) }
    {
        let Some(parcel) = self.parcel(rt, clock, from, to)? else {
            return Ok(());
        };
        let Ok(()) = self.put(to, parcel) else {
            return Err(self.no_memory(from));
        };
        Ok(())
    }

    // What a replica sends to another; nothing where its journal failed.
    fn parcel<R: Wait, C: Clock>(
        &mut self,
        rt: &R,
        clock: &C,
        from: usize,
        to: usize,
    ) -> Result<Option<Parcel>, Stop>
        requires from { from < length self.old.nodes }
        requires to { to < length self.old.nodes }
        requires other { to ≢ from }
        requires ready { AreReady self.old }
        ensures on { HaveGoneOn self.old self.new }
        ensures ready { AreReady self.new }
        ensures made { HasMadeOne from self.old self.new }
        ensures parcel { IfOk result (λ sent. IfSome sent (IsFor self.old.desk.table to)) }
        ensures none { IfOk result (λ sent. sent ≡ None → AreUnmarked self.new.ends → ⊥) }
        ensures sent { IfOk result (λ sent. IfSome sent (λ parcel. (front : List Entry) → HasSeenAt self.old from front
            → HasSeenSending (HasSeenAt self.new from) front from to parcel.message)) }
        ensures stop { IfErr result (IsKeptStop J.tells self.old.desk (AreFaultless self.new.ends)) }
    {
        self.ends[from].send(rt, clock, &self.nodes[from], to as u32)
    }

    // Puts a parcel into the inbox of a replica.
    fn put(&mut self, to: usize, parcel: Parcel) -> Result<(), NoMemory>
        requires to { to < length self.old.nodes }
        requires parcel { IsFor self.old.desk.table to parcel }
        ensures on { HaveGoneOn self.old self.new }
        ensures ready { AreReady self.old → AreReady self.new }
        ensures ends { self.new.ends ≡ self.old.ends }
        ensures come { HaveCome to self.old self.new }
        ensures waits { OnOk result (lose_at self.old to ≡ 0 → length (waiting_at self.old to) < INBOX_MAX
            → Contains (waiting_at self.new to) parcel.message) }
    {
        let Ok(_) = self.inboxes[to].put(self.desk, parcel) else {
            return Err(NoMemory);
        };
        Ok(())
    }

    // That there was no memory for a replica.
    fn no_memory(&mut self, replica: usize) -> Stop
        requires replica { replica < length self.old.nodes }
        requires ready { AreReady self.old }
        ensures on { HaveGoneOn self.old self.new }
        ensures ready { AreReady self.new }
        ensures still { AreStill self.old self.new }
        ensures stop { IsKeptStop J.tells self.old.desk (AreFaultless self.new.ends) result }
    {
        self.ends[replica].no_memory(&self.nodes[replica])
    }

    // Each replica takes all that waits for it.
    #[tactic(auto, using(crate::proofs::Settled::have_gone_on_same, crate::proofs::Settled::have_gone_on_then))]
    fn take_all<R: Wait, C: Clock>(&mut self, rt: &R, clock: &C) -> Result<(), Stop>
        requires ready { AreReady self.old }
        ensures on { HaveGoneOn self.old self.new }
        ensures ready { AreReady self.new }
        ensures made { AreUnmarked self.new.ends → (replica : ℕ) → made_at self.new replica ≤ made_at self.old replica + length (waiting_at self.old replica) }
        ensures few { AreUnmarked self.new.ends → (replica : ℕ) → made_at self.new replica ≤ made_at self.old replica + INBOX_MAX }
        ensures empty { OnOk result (AreEmpty self.new) }
        ensures taken { OnOk result ((replica : ℕ) (message : Message) → replica < length self.old.nodes → Contains (waiting_at self.old replica) message
            → HasSeenTaking (HasSeenAt self.new replica) replica message) }
        ensures stop { IfErr result (IsKeptStop J.tells self.old.desk (AreFaultless self.new.ends)) }
    {
        for replica in 0..self.nodes.len() {
            self.take_waiting(rt, clock, replica)?;
        }
        Ok(())
    }

    // A replica takes all that waits for it.
    #[tactic(auto, using(crate::proofs::Settled::have_gone_on_same, crate::proofs::Settled::have_gone_on_then))]
    fn take_waiting<R: Wait, C: Clock>(
        &mut self,
        rt: &R,
        clock: &C,
        replica: usize,
    ) -> Result<(), Stop>
        requires replica { replica < length self.old.nodes }
        requires ready { AreReady self.old }
        ensures on { HaveGoneOn self.old self.new }
        ensures ready { AreReady self.new }
        ensures made { HasTaken replica self.old self.new }
        ensures few { length (waiting_at self.old replica) ≤ INBOX_MAX }
        ensures empty { OnOk result (waiting_at self.new replica ≡ []) }
        ensures taken { OnOk result ((message : Message) → Contains (waiting_at self.old replica) message
            → HasSeenTaking (HasSeenAt self.new replica) replica message) }
        ensures stop { IfErr result (IsKeptStop J.tells self.old.desk (AreFaultless self.new.ends)) }
    {
        for _taken in 0..self.waiting(replica) {
            let Some(parcel) = self.next(replica) else {
                return Ok(());
            };
            self.take(rt, clock, replica, parcel)?;
        }
        Ok(())
    }

    // How many parcels wait for a replica.
    fn waiting(&self, replica: usize) -> u64
        requires replica { replica < length self.now.nodes }
        ensures count { result ≡ length (waiting_at self.now replica) }
        ensures few { result ≤ INBOX_MAX }
    {
        self.inboxes[replica].counts().waiting
    }

    // The first parcel that waits for a replica, if any does.
    fn next(&mut self, replica: usize) -> Option<Parcel>
        requires replica { replica < length self.old.nodes }
        ensures on { HaveGoneOn self.old self.new }
        ensures ready { AreReady self.old → AreReady self.new }
        ensures ends { self.new.ends ≡ self.old.ends }
        ensures first { waiting_at self.old replica ≡ option_to_list (option_map (λ parcel. parcel.message) result) ++ waiting_at self.new replica }
        ensures none { result ≡ None → waiting_at self.new replica ≡ [] }
        ensures others { (other : ℕ) → other ≢ replica → waiting_at self.new other ≡ waiting_at self.old other }
        ensures parcel { IfSome result (IsFor self.old.desk.table replica) }
    {
        self.inboxes[replica].next()
    }

    // A replica takes a parcel.
    fn take<R: Wait, C: Clock>(
        &mut self,
        rt: &R,
        clock: &C,
        replica: usize,
        parcel: Parcel,
    ) -> Result<(), Stop>
        requires replica { replica < length self.old.nodes }
        requires ready { AreReady self.old }
        requires parcel { IsFor self.old.desk.table replica parcel }
        ensures on { HaveGoneOn self.old self.new }
        ensures ready { AreReady self.new }
        ensures made { HasMadeOne replica self.old self.new }
        ensures taken { OnOk result (HasSeenTaking (HasSeenAt self.new replica) replica parcel.message) }
        ensures stop { IfErr result (IsKeptStop J.tells self.old.desk (AreFaultless self.new.ends)) }
    {
        self.ends[replica].take(rt, clock, &self.nodes[replica], parcel)
    }
}
