//! Which messages the lines of a script have sent.
ghost use Rattle.std.specs.Prelude.{◌≡◌, ◌<◌, [], length, replicate, IfOk, OnOk};
ghost use Rattle.run_model.specs.declared.script_line.Line.{Line};
ghost use Rattle.script_text.specs.Sending.{with_sent, sent_after, is_sent};
ghost use Rattle.script_text.specs.LineRanges.{IsLineInRange, bare};

use run_model::Line;
use std::alloc::Global;
use tact_base::{Items, NoMemory};

/// The receivers of the messages that each replica has sent, in order of their numbers.
#[derive(Drop)]
pub(crate) struct Sent {
    receivers: Vec<Items<u32>>,
}

impl Sent {
    /// No message of so many replicas.
    pub(crate) fn new(alloc: Global, replicas: u32) -> Result<Self, NoMemory>
        ensures { IfOk result (λ sent. sent.receivers.items ≡ replicate replicas []) }
    {
        let mut receivers = Vec::new(alloc);
        for _ in 0..replicas {
            receivers.push(Items::new(alloc))?;
        }
        Ok(Sent { receivers })
    }

    /// Adds the next message of a replica.
    pub(crate) fn add(&mut self, from: u32, to: u32) -> Result<(), NoMemory>
        requires { from < length self.old.receivers.items }
        ensures { IfOk result (λ _. self.new.receivers.items ≡ with_sent self.old.receivers.items from to) }
    {
        let receivers = &mut self.receivers[from as usize];
        receivers.push(to)
    }

    /// Whether the message with this number of the one was sent to the other.
    pub(crate) fn is_sent(&self, from: u32, number: u64, to: u32) -> bool
        requires { from < length self.now.receivers.items }
        ensures { result ≡ is_sent self.now.receivers.items from number to }
    {
        let receivers = self.receivers[from as usize].items();
        if number >= receivers.len() as u64 {
            return false;
        }
        receivers[number as usize] == to
    }
}
