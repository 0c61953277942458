//! The messages that the replicas of a record sent.
ghost use Rattle.std.specs.Prelude.{◌≡◌, ◌<◌, [], ◌∷◌, ◌++◌, IfOk, OnOk, OnErr, length, replicate, slice_get, slice_index_or, slice_set};

use crate::kept::{Kept, kept_of, made_whole, push_last};
use run_model::Message;
use std::alloc::Global;
use std::marker::Model;
use tact_base::{Items, NoMemory, Write};

/// Of each replica the messages that it sent, in order of their numbers. The same write may be in many of them, and is
/// kept once.
#[derive(Drop)]
pub(crate) struct Outboxes {
    // Each write, by origin.
    written: Vec<Items<Write>>,
    // Of each replica its messages.
    kept: Vec<Items<Kept>>,
}

impl Model for Outboxes {
    ghost use Rattle.std.specs.Prelude.{List, All, map};
    ghost use Rattle.run_model.specs.declared.entry.Message.{Message};

    ghost Value = { List (List Message) };

    ghost use Rattle.run_check.specs.Keeping.{whole_of, IsPlaced};

    ghost view = { λ a. map (map (whole_of a.written.items)) a.kept.items };

    ghost invariant = { λ a. All (All (IsPlaced a.written.items)) a.kept.items };
}

impl Outboxes {
    /// Before the first message.
    pub fn new(alloc: Global, replicas: u32) -> Result<Self, NoMemory>
        ensures { IfOk result (λ made. made ≡ replicate replicas []) }
    {
        let mut written = Vec::new(alloc);
        let mut kept = Vec::new(alloc);
        for _replica in 0..replicas {
            written.push(Items::new(alloc))?;
            kept.push(Items::new(alloc))?;
        }
        Ok(Outboxes { written, kept })
    }

    /// How many messages a replica sent. Takes no memory.
    pub fn count(&self, replica: u32) -> u64
        requires { replica < length self.now }
        ensures { result ≡ length (slice_index_or self.now replica []) }
    {
        self.kept[replica as usize].len() as u64
    }

    /// Keeps a message behind those that the replica sent. `NoMemory` leaves the messages as they were.
    pub fn keep(&mut self, replica: u32, message: Message) -> Result<(), NoMemory>
        requires { replica < length self.old }
        ensures ok { OnOk result (self.new ≡ slice_set self.old replica (slice_index_or self.old replica [] ++ message ∷ [])) }
        ensures err { OnErr result (self.new ≡ self.old) }
    {
        let alloc = *self.written.allocator();
        let kept = match kept_of(alloc, &mut self.written, message) {
            Ok(kept) => kept,
            Err(fault) => return Err(fault),
        };
        push_last(&mut self.kept, replica as usize, kept)?;
        Ok(())
    }

    /// The message of a number of a replica, if it sent so many.
    pub fn message(&self, replica: u32, number: u64) -> Result<Option<Message>, NoMemory>
        requires { replica < length self.now }
        ensures { IfOk result (λ found. found ≡ slice_get (slice_index_or self.now replica []) number) }
    {
        let Some(kept) = self.kept[replica as usize].items().get(number as usize) else {
            return Ok(None);
        };
        match made_whole(*self.written.allocator(), &self.written, kept) {
            Ok(message) => Ok(Some(message)),
            Err(fault) => Err(fault),
        }
    }
}
