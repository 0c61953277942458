ghost use Rattle.std.specs.Prelude.{◌≡◌, ◌≢◌, ◌↔◌, ◌<◌, ◌≤◌, ◌+◌, List, [], ◌∷◌, ◌++◌, OnOk, OnErr, IfOk, IfErr, IsNone, length};
ghost use Rattle.std.specs.Option.{option_to_list};
ghost use Rattle.std.specs.VecDeque.{deque_len, deque_capacity};
ghost use Rattle.link_faults.specs.Twins.{IsAlike};
ghost use Rattle.link_faults.specs.Inboxes.{AddUp, Event, Gains, after_fate, after_next, after_put, carried, counts_of, empty_inbox, fate_due, inbox_after, is_turned, joined, next_number, put, next};
ghost use Rattle.link_faults.specs.declared.plan.LinkPlan.{LinkPlan};
ghost use Rattle.link_faults.specs.declared.plan.Fate.TheVariants.{Doubled, Queued};
ghost use Rattle.link_faults.specs.declared.plan.TheConstants.{INBOX_MAX};

use crate::plan::{Fate, INBOX_MAX, LinkPlan, fate_by, is_named};
use crate::twin::Twin;
use std::alloc::Global;
use std::collections::VecDeque;
use std::marker::Model;
use tact_base::NoMemory;

/// Want of memory for the copy of an item that was put. It hands the item back, and the inbox is as it was.
#[derive(Debug, Drop)]
pub struct PutFault<T> {
    /// An item alike to the one that was put.
    pub item: T,
}

/// The counts of an inbox since it was made. All but `waiting` go on from 0 past the greatest u64.
#[derive(Clone, Copy, Debug, PartialEq, Eq)]
pub struct Counts {
    /// How many items were put.
    pub puts: u64,
    /// How many copies were put in beside them.
    pub copies: u64,
    /// How many items were taken.
    pub taken: u64,
    /// How many items were lost, by the plan or since the inbox was full.
    pub lost: u64,
    /// How many items wait.
    pub waiting: u64,
}

/// The end of a link that loses, doubles and turns what is put into it, by a plan. Contracts see the plan,
/// the items that wait, in the order in which they come out, and the counts.
#[derive(Debug, Drop)]
pub struct Inbox<T> {
    plan: LinkPlan,
    waiting: VecDeque<T>,
    puts: u64,
    copies: u64,
    taken: u64,
    lost: u64,
}

impl<T> Model for Inbox<T> {
    ghost use Rattle.std.specs.Prelude.{length};
    ghost use Rattle.std.specs.VecDeque.{deque_capacity};
    ghost use Rattle.link_faults.specs.Inboxes.{InboxState, IsSound};

    ghost Value = { InboxState T };

    ghost view = { λ s. record {
      plan = s.plan;
      waiting = s.waiting.items;
      puts = s.puts;
      copies = s.copies;
      taken = s.taken;
      lost = s.lost;
    } };

    ghost invariant = { λ s. IsSound (deque_capacity s.waiting) (record {
      puts = s.puts;
      copies = s.copies;
      taken = s.taken;
      lost = s.lost;
      waiting = length s.waiting.items;
    }) };
}

impl<T: Twin> Inbox<T> {
    /// The empty inbox of a plan, with room for 1,024 items in memory of `alloc`.
    pub fn new(alloc: Global, plan: LinkPlan) -> Result<Inbox<T>, NoMemory>
        ensures { IfOk result (λ inbox. inbox ≡ empty_inbox plan) }
    {
        Ok(Inbox {
            plan,
            waiting: VecDeque::with_capacity(alloc, INBOX_MAX)?,
            puts: 0,
            copies: 0,
            taken: 0,
            lost: 0,
        })
    }

    /// Puts an item. Its number, counted from 1, and the plan say what becomes of it: it is lost where the
    /// plan's `lose` divides the number, or else where 1,024 items wait; else it waits, and so does a copy,
    /// made with `with`, where `double` divides the number and at most 1,022 wait. Where `turn` divides the
    /// number, item and copy go before what waits, else behind. Takes memory for the copy alone; where it is
    /// refused, the item is handed back and the inbox is as it was.
    pub fn put(&mut self, with: &T::With, item: T) -> Result<Fate, PutFault<T>>
        requires { T.fits item with.now }

        ensures fate { IfOk result (λ fate. fate ≡ fate_due self.old) }
        ensures items { IfOk result (λ fate.
            Gains (IsAlike T.carries T.fits item) fate (is_turned self.old) self.old.waiting self.new.waiting) }
        ensures alone { IfOk result (λ fate. fate ≢ Doubled → self.new ≡ after_put self.old item) }
        ensures state { OnOk result
            (carried T.carries self.new ≡ after_put (carried T.carries self.old) (T.carries item)) }
        ensures plan { self.new.plan ≡ self.old.plan }
        ensures follows { OnOk result ((plan : LinkPlan) (events : List (Event T.Carried)) →
            carried T.carries self.old ≡ inbox_after plan events →
            carried T.carries self.new ≡ inbox_after plan (events ++ put (T.carries item) ∷ [])) }

        // Only a copy can want memory.
        ensures err { OnErr result (self.new ≡ self.old) }
        ensures handed_back { IfErr result (λ fault. IsAlike T.carries T.fits item fault.item) }
        ensures for_a_copy { OnErr result (fate_due self.old ≡ Doubled) }
    {
        let number = self.puts.wrapping_add(1);
        let fate = fate_by(self.plan, number, self.waiting.len());
        match fate {
            Fate::Lost | Fate::LostFull => self.lose(),
            Fate::Doubled => return self.queue_twins(with, item),
            Fate::Queued => self.queue(item),
        }
        Ok(fate)
    }

    /// Takes the first of the items that wait; `None` where none does. Takes no memory.
    pub fn next(&mut self) -> Option<T>
        ensures first { self.old.waiting ≡ option_to_list result ++ self.new.waiting }
        ensures none { IsNone result ↔ (self.old.waiting ≡ []) }
        ensures items { self.new ≡ after_next self.old }
        ensures state { carried T.carries self.new ≡ after_next (carried T.carries self.old) }
        ensures plan { self.new.plan ≡ self.old.plan }
        ensures follows { (plan : LinkPlan) (events : List (Event T.Carried)) →
            carried T.carries self.old ≡ inbox_after plan events →
            carried T.carries self.new ≡ inbox_after plan (events ++ next ∷ []) }
    {
        let first = self.waiting.pop_front()?;
        self.taken = self.taken.wrapping_add(1);
        Some(first)
    }

    /// The counts. What was put and copied was taken, was lost, or waits, modulo 2^64. Takes no memory.
    pub fn counts(&self) -> Counts
        ensures counts { result ≡ counts_of self.now }
        ensures add_up { AddUp result }
        ensures few { length self.now.waiting ≤ INBOX_MAX }
    {
        Counts {
            puts: self.puts,
            copies: self.copies,
            taken: self.taken,
            lost: self.lost,
            waiting: self.waiting.len() as u64,
        }
    }

    // Counts the next put as lost.
    fn lose(&mut self)
        ensures { self.new ≡ record self.old {
          puts = next_number self.old.puts;
          lost = next_number self.old.lost;
        } }
    {
        self.puts = self.puts.wrapping_add(1);
        self.lost = self.lost.wrapping_add(1);
    }

    // Puts the item of the next put where it is due.
    fn queue(&mut self, item: T)
        requires { length self.old.waiting < INBOX_MAX }
        ensures { self.new ≡ after_fate self.old item Queued }
    {
        self.puts = self.puts.wrapping_add(1);
        let in_front = is_named(self.plan.turn, self.puts);
        join(&mut self.waiting, in_front, item);
    }

    // Puts the item of the next put where it is due, and a copy beside it.
    fn queue_twins(&mut self, with: &T::With, mut item: T) -> Result<Fate, PutFault<T>>
        requires fits { T.fits item with.now }
        requires room { length self.old.waiting + 2 ≤ INBOX_MAX }
        ensures fate { IfOk result (λ fate. fate ≡ Doubled) }
        ensures items { OnOk result
            (Gains (IsAlike T.carries T.fits item) Doubled (is_turned self.old) self.old.waiting self.new.waiting) }
        ensures state { OnOk result
            (carried T.carries self.new ≡ after_fate (carried T.carries self.old) (T.carries item) Doubled) }
        ensures err { OnErr result (self.new ≡ self.old) }
        ensures handed_back { IfErr result (λ fault. IsAlike T.carries T.fits item fault.item) }
    {
        let Ok(copy) = item.twin(with) else {
            return Err(PutFault { item });
        };
        self.puts = self.puts.wrapping_add(1);
        let in_front = is_named(self.plan.turn, self.puts);
        join(&mut self.waiting, in_front, item);
        join(&mut self.waiting, in_front, copy);
        self.copies = self.copies.wrapping_add(1);
        Ok(Fate::Doubled)
    }
}

// Puts an item before those that wait, or else behind. Takes no memory.
fn join<T>(waiting: &mut VecDeque<T>, in_front: bool, item: T)
    requires { deque_len waiting.old < deque_capacity waiting.old }
    ensures items { waiting.new.items ≡ joined in_front (item ∷ []) waiting.old.items }
    ensures len { deque_len waiting.new ≡ deque_len waiting.old + 1 }
    ensures capacity { deque_capacity waiting.new ≡ deque_capacity waiting.old }
{
    if in_front {
        waiting.push_front_reserved(item);
    } else {
        waiting.push_back_reserved(item);
    }
}
