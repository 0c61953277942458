//! The messages that drawn lines have sent.
ghost use Rattle.std.specs.Prelude.{◌≡◌, ◌<◌, ℕ, [], length, OnOk, IfOk};
ghost use Rattle.drawn_scripts.specs.DrawnScripts.{with_message, messages_after};
ghost use Rattle.drawn_scripts.specs.Counting.{AreCounts, AreFourSenders};

use run_model::Line;
use std::alloc::Global;
use std::marker::Model;
use tact_base::{Items, NoMemory};

/// A message that a line sent: from whom, to whom, and under which number of its sender.
#[derive(Clone, Copy, Debug, PartialEq, Eq)]
pub struct SentOne {
    pub from: u32,
    pub to: u32,
    pub number: u64,
}

/// All messages sent so far, in order, and how many each replica sent.
#[derive(Drop)]
pub(crate) struct SentAll {
    messages: Items<SentOne>,
    counts: [u64; 4],
}

impl Model for SentAll {
    ghost use Rattle.std.specs.Prelude.{List};
    ghost use Rattle.drawn_scripts.specs.declared.sent.SentOne.{SentOne};
    ghost use Rattle.drawn_scripts.specs.Counting.{AreCounts};

    ghost Value = { List SentOne };

    ghost view = { λ s. s.messages };

    ghost invariant = { λ s. AreCounts s.messages s.counts };
}

impl SentAll {
    /// No message.
    pub(crate) fn new(alloc: Global) -> SentAll
        ensures { result ≡ [] }
    {
        SentAll {
            messages: Items::new(alloc),
            counts: [0; 4],
        }
    }

    /// Adds the next message of a replica. `NoMemory` leaves the messages as they were.
    pub(crate) fn add(&mut self, from: u32, to: u32) -> Result<(), NoMemory>
        requires from { from < 4 }
        requires few { length self.old < 10000 }
        ensures { OnOk result (self.new ≡ with_message self.old from to) }
    {
        let number = self.counts[from as usize];
        self.messages.push(SentOne { from, to, number })?;
        self.counts[from as usize] = number + 1;
        Ok(())
    }

    /// Adds the messages that a line sends, with its senders among the four.
    pub(crate) fn note(&mut self, line: &Line) -> Result<(), NoMemory>
        requires senders { AreFourSenders line.now }
        requires few { length self.old < 9999 }
        ensures { OnOk result (self.new ≡ messages_after self.old line.now) }
    {
        match line {
            Line::Send {
                from,
                to,
                firsts: _,
            } => self.add(*from, *to),
            Line::Sync { first, second } => {
                self.add(*first, *second)?;
                self.add(*second, *first)
            }
            _ => Ok(()),
        }
    }

    /// The messages, in order.
    pub(crate) fn messages(&self) -> &[SentOne]
        ensures { result.now ≡ self.now }
    {
        self.messages.items()
    }
}
