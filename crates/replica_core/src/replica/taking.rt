//! A message that a replica takes.
ghost use Rattle.std.specs.Prelude.{◌≡◌, ◌≢◌, ◌==◌, ◌+◌, ◌-◌, ◌*◌, ◌<◌, ◌≤◌, max, true, false, ℕ, List, ◌++◌, All, map};
ghost use Rattle.std.specs.Prelude.{take, drop, length, slice_get, slice_index, slice_index_or, slice_set, IsOk, OnOk, OnErr};
ghost use Rattle.std.specs.Prelude.{IfErr, IfSome, IsTrue, ◌↔◌, if◌then◌else◌};
ghost use Rattle.std.specs.List.{count_by, flat_map, range_with_len};
ghost use Rattle.std.specs.List.Sorted.{IsPartitionedBy, IsStrictlySortedBy};
ghost use Rattle.tact_base.specs.WriteOrder.{write_cmp};
ghost use Rattle.tact_base.specs.Covers.{no_cover, cover_after};
ghost use Rattle.tact_base.specs.Logs.{log_after};
ghost use Rattle.tact_base.specs.Setup.{conits_of};
ghost use Rattle.tact_base.specs.declared.limits.TheConstants.{MOMENT_MAX};
ghost use Rattle.tact_base.specs.declared.write.Cover.{Cover};
ghost use Rattle.run_model.specs.Histories.{greatest};
ghost use Rattle.run_model.specs.Taking.{told_have, told_cover, told_first, told_writes};
ghost use Rattle.run_model.specs.declared.entry.Act.TheVariants as act;
ghost use Rattle.split_budget.specs.Budgets.{IsPeer, lent_to, lent_by, returned_by};
ghost use Rattle.split_budget.specs.Kept.{KeepsBudgets};
ghost use Rattle.write_log.specs.Logs.{log_of, room_of};
ghost use Rattle.replica_core.specs.States.{AreNext, is_full, log_at};
ghost use Rattle.replica_core.specs.Stands.{GoesOn, IsSameReplica, IsFaultOf};
ghost use Rattle.replica_core.specs.Taking.{FitsAt, AreToldBy, added_at, raised_by, log_told, with_known, with_next};

use super::Replica;
use super::admitting::{admit, are_in_order};
use crate::CoreFault;
use crate::told_logs::ToldLogs;
use run_model::{Config, Message};
use split_budget::Budgets;
use std::slice;
use tact_base::{Cover, NoMemory, Numbers, Write};
use version_vector::Vector;

// For how many more told writes of each origin room is made at once, if it can.
const AHEAD: u64 = 64;

impl Replica {
    /// Takes a message that fits (`fits`): of each other origin the writes that it lacks, unless they would leave
    /// a gap, and the cover, where it vouches for no more than the log has; what the sender is known to have,
    /// to have lent and to have given back; and the clock (anti-entropy after Golding; docs/MODEL.md). It makes
    /// its room first, beside that for own writes. Then it gives up, of the committed writes, those before the first
    /// that some replica isn't known to have: they are still counted, and from then on in nothing
    /// that the replica shows or sends; their memory is given back later. The moment of the entry is the greater of
    /// the handed one and that of the last entry.
    ///
    /// `Full` comes exactly where 20,000 entries were made or the clock stands at 2^40. `NoMemory` doesn't come where
    /// there is room for as many told writes (`reserve_told`). Both leave the replica as it was.
    pub fn take(&mut self, moment: u64, message: &Message) -> Result<(), CoreFault>
        requires moment { moment ≤ MOMENT_MAX }
        requires fits { FitsAt self.old.core message.now }
        ensures goes_on { OnOk result (GoesOn self.old.core self.new.core moment (λ part. act.Take message.now)) }
        ensures same { IsSameReplica self.old.core self.new.core }
        ensures spare { self.new.spare ≡ self.old.spare }
        ensures not_full { OnOk result (is_full self.old.core ≡ false) }
        ensures fault { IfErr result (IsFaultOf self.old.core) }
        ensures enough { length message.now.writes ≤ self.old.beside → is_full self.old.core ≡ false → IsOk result }
        ensures err { OnErr result (self.new ≡ self.old) }
    {
        self.may_enter()?;
        self.reserve_told(message.writes.len() as u64)?;
        self.add_told(message);
        learn_haves(&mut self.known, &self.config, message);
        note_told(&mut self.budgets, self.config.conits(), message);
        self.clock = self.clock.max(latest_stamp(message.covers.items()));
        raise_covers(
            &mut self.vector,
            &self.logs,
            &self.config,
            self.replica,
            message,
        );
        self.enter(moment);
        self.trim();
        Ok(())
    }

    /// Makes room for so many told writes of each other origin, beside that for own writes, without memory where there
    /// is so much. It lasts until so many were taken. `NoMemory` leaves everything as it was.
    pub fn reserve_told(&mut self, count: u64) -> Result<(), NoMemory>
        ensures core { self.new.core ≡ self.old.core }
        ensures spare { self.new.spare ≡ self.old.spare }
        ensures room { OnOk result (count ≤ self.new.beside) }
        ensures kept { self.old.beside ≤ self.new.beside }
        ensures enough { count ≤ self.old.beside → IsOk result }
        ensures err { OnErr result (self.new ≡ self.old) }
    {
        if count > self.beside && self.make_room(count.saturating_add(AHEAD)).is_err() {
            self.make_room(count)?;
        }
        Ok(())
    }
}

impl Replica {
    // Makes room for so many told writes of each other origin, beside that for own writes.
    fn make_room(&mut self, count: u64) -> Result<(), NoMemory>
        ensures core { self.new.core ≡ self.old.core }
        ensures spare { self.new.spare ≡ self.old.spare }
        ensures room { OnOk result (self.new.beside ≡ count) }
        ensures err { OnErr result (self.new ≡ self.old) }
    {
        let all = self.spare.checked_add(count).ok_or(NoMemory)?;
        reserve_each(&mut self.logs, self.config.replicas(), count)?;
        self.seen.reserve(all)?;
        self.beside = count;
        Ok(())
    }

    // Of each other origin the told writes that its log lacks.
    fn add_told(&mut self, message: &Message)
        requires sized { length self.old.core.writes.logs ≡ self.old.core.setup.replicas }
        requires fits { FitsAt self.old.core message.now }
        requires room { length message.now.writes ≤ self.old.beside }
        ensures core { self.new.core ≡ record self.old.core {
          writes = record self.old.core.writes {
            logs = self.new.core.writes.logs;
            seen = self.new.core.writes.seen;
          };
        } }
        ensures logs { (origin : ℕ) → origin < self.old.core.setup.replicas → log_at self.new.core origin ≡ log_told self.old.core message.now origin }
        ensures spare { self.new.spare ≡ self.old.spare }
    {
        let mut start = 0;
        for origin in 0..self.config.replicas() {
            let told = told_of(message, start, origin);
            self.add_from(message, origin, told);
            start += told.len();
        }
    }

    // The told writes of one origin, of its own none.
    fn add_from(&mut self, message: &Message, origin: u32, told: &[Write])
        requires sized { length self.old.core.writes.logs ≡ self.old.core.setup.replicas }
        requires origin { origin < self.old.core.setup.replicas }
        requires firsts { length message.now.firsts ≡ self.old.core.setup.replicas }
        requires told { told.now ≡ told_writes message.now origin }
        requires next { AreNext self.old.core.setup.conits origin (told_first message.now origin) told.now }
        requires past { told_first message.now origin ≤ length (log_at self.old.core origin)
            → All (λ write. self.old.core.writes.point < write.stamp) (added_at self.old.core message.now origin) }
        requires room { length told.now ≤ self.old.beside }
        ensures core { self.new.core ≡ record self.old.core {
          writes = record self.old.core.writes {
            logs = self.new.core.writes.logs;
            seen = self.new.core.writes.seen;
          };
        } }
        ensures sized { length self.new.core.writes.logs ≡ length self.old.core.writes.logs }
        ensures log { log_at self.new.core origin ≡ log_told self.old.core message.now origin }
        ensures others { (other : ℕ) → other ≢ origin → log_at self.new.core other ≡ log_at self.old.core other }
        ensures spare { self.new.spare ≡ self.old.spare }
        ensures room { self.old.beside ≤ self.new.beside + length told.now }
    {
        if origin != self.replica {
            self.add_told_of(origin, message.firsts.items()[origin as usize], told);
        }
    }

    // The told writes of one origin, which begin at the index `first`, unless they leave a gap.
    fn add_told_of(&mut self, origin: u32, first: u64, told: &[Write])
        requires sized { length self.old.core.writes.logs ≡ self.old.core.setup.replicas }
        requires origin { origin < self.old.core.setup.replicas }
        requires other { origin ≢ self.old.core.replica }
        requires told { AreNext self.old.core.setup.conits origin first told.now }
        requires past { first ≤ length (log_at self.old.core origin)
            → All (λ write. self.old.core.writes.point < write.stamp) (drop (length (log_at self.old.core origin) - first) told.now) }
        requires room { length told.now ≤ self.old.beside }
        ensures core { self.new.core ≡ record self.old.core {
          writes = record self.old.core.writes {
            logs = slice_set self.old.core.writes.logs origin (log_after (log_at self.old.core origin) first told.now);
            seen = self.new.core.writes.seen;
          };
        } }
        ensures spare { self.new.spare ≡ self.old.spare }
        ensures room { self.old.beside ≤ self.new.beside + length told.now }
    {
        let have = self.logs.count(origin);
        if first <= have {
            self.add_next(origin, lacking(told, first, have));
        }
    }

    // The next writes of another origin, whatever their stamps: together where these rise, else one after another. Where
    // there are none, nothing is done.
    fn add_next(&mut self, origin: u32, writes: &[Write])
        requires sized { length self.old.core.writes.logs ≡ self.old.core.setup.replicas }
        requires origin { origin < self.old.core.setup.replicas }
        requires other { origin ≢ self.old.core.replica }
        requires next { AreNext self.old.core.setup.conits origin (length (log_at self.old.core origin)) writes.now }
        requires past { All (λ write. self.old.core.writes.point < write.stamp) writes.now }
        requires room { length writes.now ≤ self.old.beside }
        ensures core { self.new.core ≡ with_next self.old.core origin writes.now self.new.core.writes.seen }
        ensures spare { self.new.spare ≡ self.old.spare }
        ensures room { self.old.beside ≡ self.new.beside + length writes.now }
    {
        if are_in_order(writes) {
            self.add_rising(origin, writes);
        } else {
            for write in writes {
                self.add_rising(origin, slice::from_ref(write));
            }
        }
    }

    // The next writes of another origin, whose stamps rise.
    fn add_rising(&mut self, origin: u32, writes: &[Write])
        requires origin { origin < self.old.core.setup.replicas }
        requires other { origin ≢ self.old.core.replica }
        requires next { AreNext self.old.core.setup.conits origin (length (log_at self.old.core origin)) writes.now }
        requires rising { IsStrictlySortedBy write_cmp writes.now }
        requires past { All (λ write. self.old.core.writes.point < write.stamp) writes.now }
        requires room { length writes.now ≤ self.old.beside }
        ensures core { self.new.core ≡ with_next self.old.core origin writes.now self.new.core.writes.seen }
        ensures spare { self.new.spare ≡ self.old.spare }
        ensures room { self.old.beside ≡ self.new.beside + length writes.now }
    {
        admit(&mut self.logs, &mut self.seen, origin, writes);
        self.beside -= writes.len() as u64;
    }
}

// Of told writes that begin at the index `first` those that a log of `have` writes lacks.
fn lacking(told: &[Write], first: u64, have: u64) -> &[Write]
    requires { first ≤ have }
    ensures { result.now ≡ drop (have - first) told.now }
{
    let known = ((have - first) as usize).min(told.len());
    &told[known..]
}

// Room for so many more writes of each origin.
fn reserve_each(logs: &mut ToldLogs, replicas: u32, count: u64) -> Result<(), NoMemory>
    requires { length logs.old.logs ≡ replicas }
    ensures logs { logs.new.logs ≡ logs.old.logs }
    ensures bases { logs.new.bases ≡ logs.old.bases }
    ensures kept { (origin : ℕ) → room_of logs.old origin ≤ room_of logs.new origin }
    ensures room { OnOk result ((origin : ℕ) → origin < replicas → count ≤ room_of logs.new origin) }
{
    for origin in 0..replicas {
        logs.reserve(origin, count)?;
    }
    Ok(())
}

// The told writes of an origin, which begin at `start`.
fn told_of(message: &Message, start: usize, origin: u32) -> &[Write]
    requires within { start + length (told_writes message.now origin) ≤ length message.now.writes }
    requires placed { take (length (told_writes message.now origin)) (drop start message.now.writes) ≡ told_writes message.now origin }
    ensures { result.now ≡ told_writes message.now origin }
{
    let rest = &message.writes.items()[start..];
    &rest[..count_of(rest, origin)]
}

// How many of some writes are of an origin, where those stand in front: often all of them are, or none is.
fn count_of(writes: &[Write], origin: u32) -> usize
    requires { IsPartitionedBy (λ write. write.origin == origin) writes.now }
    ensures { result ≡ count_by (λ write. write.origin == origin) writes.now }
{
    let Some(last) = writes.last() else {
        return 0;
    };
    if last.origin == origin {
        return writes.len();
    }
    if writes[0].origin != origin {
        return 0;
    }
    writes.partition_point(|write: &Write| write.origin == origin)
}

// How many writes of each origin the sender has.
fn learn_haves(known: &mut Vec<u64>, config: &Config, message: &Message)
    requires known { length known.old.items ≡ config.now.replicas * config.now.replicas }
    requires from { message.now.from < config.now.replicas }
    requires haves { length message.now.haves ≡ config.now.replicas }
    ensures known { (peer origin : ℕ) → peer < config.now.replicas → origin < config.now.replicas
        → slice_index known.new.items (peer * config.now.replicas + origin)
        ≡ raised_by message.now peer (slice_index known.old.items (peer * config.now.replicas + origin)) (told_have message.now origin) }
    ensures sized { length known.new.items ≡ length known.old.items }
{
    for origin in 0..config.replicas() {
        let place = (message.from * config.replicas() + origin) as usize;
        known[place] = known[place].max(message.haves.items()[origin as usize]);
    }
}

// How many own writes the sender has, and what it lent and gave back.
fn note_told(budgets: &mut Budgets, conits: u32, message: &Message)
    requires from { IsPeer budgets.old message.now.from }
    requires to { message.now.to ≡ budgets.old.replica }
    requires conits { conits ≡ budgets.old.setup.conits }
    requires haves { budgets.old.replica < length message.now.haves }
    requires lent { length message.now.lent ≡ conits }
    requires returned { length message.now.returned ≡ conits }
    requires within { (conit : ℕ) → conit < conits → slice_index message.now.returned conit ≤ lent_to budgets.old message.now.from conit }
    ensures acked { budgets.new ≡ record (with_known budgets.old message.now.from (told_have message.now budgets.old.replica)) {
      lent_known = budgets.new.lent_known;
      returned_known = budgets.new.returned_known;
      room = budgets.new.room;
    } }
    ensures lent { AreToldBy budgets.old.setup message.now message.now.lent budgets.old.lent_known budgets.new.lent_known }
    ensures returned { AreToldBy budgets.old.setup message.now message.now.returned budgets.old.returned_known budgets.new.returned_known }
    ensures kept { KeepsBudgets budgets.new }
    ensures room { budgets.old.room ≤ budgets.new.room }
{
    budgets.acked(message.from, message.haves.items()[message.to as usize]);
    note_loans(budgets, conits, message);
}

// What the sender lent and gave back. Almost always all of it is known already.
fn note_loans(budgets: &mut Budgets, conits: u32, message: &Message)
    requires kept { KeepsBudgets budgets.old }
    requires from { IsPeer budgets.old message.now.from }
    requires conits { conits ≡ budgets.old.setup.conits }
    requires lent { length message.now.lent ≡ conits }
    requires returned { length message.now.returned ≡ conits }
    requires within { (conit : ℕ) → conit < conits → slice_index message.now.returned conit ≤ lent_to budgets.old message.now.from conit }
    ensures same { budgets.new ≡ record budgets.old { lent_known = budgets.new.lent_known; returned_known = budgets.new.returned_known } }
    ensures lent { AreToldBy budgets.old.setup message.now message.now.lent budgets.old.lent_known budgets.new.lent_known }
    ensures returned { AreToldBy budgets.old.setup message.now message.now.returned budgets.old.returned_known budgets.new.returned_known }
    ensures kept { KeepsBudgets budgets.new }
{
    if are_loans_known(budgets, message) {
        return;
    }
    for conit in 0..conits {
        let lent = number_at(&message.lent, conit);
        let returned = number_at(&message.returned, conit);
        budgets.note_lent(message.from, conit, lent);
        budgets.note_returned(message.from, conit, returned);
    }
}

// Whether what the sender lent and gave back is known already as it is told.
fn are_loans_known(budgets: &Budgets, message: &Message) -> bool
    requires { IsPeer budgets.now message.now.from }
    ensures { IsTrue result
        ↔ ((message.now.lent ≡ map (lent_by budgets.now message.now.from) (conits_of budgets.now.setup))
        × (message.now.returned ≡ map (returned_by budgets.now message.now.from) (conits_of budgets.now.setup))) }
{
    message.lent.items() == budgets.all_lent_by(message.from)
        && message.returned.items() == budgets.all_returned_by(message.from)
}

fn number_at(numbers: &Numbers, place: u32) -> u64
    requires { place < length numbers.now }
    ensures { result ≡ slice_index numbers.now place }
{
    numbers.items()[place as usize]
}

// The greatest stamp of covers, 0 where there is none.
fn latest_stamp(covers: &[Cover]) -> u64
    ensures { result ≡ greatest (map (λ (cover : Cover). cover.stamp) covers.now) }
{
    let mut latest = 0;
    for cover in covers {
        latest = latest.max(cover.stamp);
    }
    latest
}

// The told cover of each other origin, where it vouches for no more writes than the log has.
fn raise_covers(
    vector: &mut Vector,
    logs: &ToldLogs,
    config: &Config,
    replica: u32,
    message: &Message,
)
    requires covers { length vector.old ≡ config.now.replicas }
    requires told { length message.now.covers ≡ config.now.replicas }
    requires logs { length logs.now.logs ≡ config.now.replicas }
    ensures sized { length vector.new ≡ length vector.old }
    ensures covers { (origin : ℕ) → origin < config.now.replicas → slice_index_or vector.new origin no_cover
        ≡ (if origin == replica then slice_index_or vector.old origin no_cover
        else cover_after (length (log_of logs.now origin)) (slice_index_or vector.old origin no_cover) (told_cover message.now origin)) }
{
    for origin in 0..config.replicas() {
        let told = message.covers.items()[origin as usize];
        if origin != replica && told.count <= logs.count(origin) {
            vector.raise(origin, told);
        }
    }
}
