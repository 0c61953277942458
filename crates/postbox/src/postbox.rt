//! What is sent to one replica, in an inbox that threads share.
ghost use Rattle.std.specs.Prelude.{◌≡◌, IfOk, IfSome, OnErr};
ghost use Rattle.link_faults.specs.declared.plan.Fate.TheVariants.{Doubled};
ghost use Rattle.postbox.specs.Posts.{AreFor, IsFateBy, IsFor};

use crate::post::{Address, Post};
use link_faults::{Fate, Inbox, LinkPlan};
use replica_lock::Parcel;
use run_history::{Desk, Note};
use std::alloc::Global;
use std::marker::Model;
use std::sync::Wait;
use tact_base::NoMemory;
use weight_ledger::{Cell, Tally};

/// An inbox for one replica of a desk, under a lock. Every parcel in it is of that desk and addressed to that replica.
/// Contracts see its cell, the table of its desk, its replica and the plan of its link, none of which changes.
#[derive(Drop)]
pub struct Postbox {
    to: u32,
    cell: Cell<Post>,
}

impl Model for Postbox {
    ghost use Rattle.std.specs.Prelude.{◌≡◌};
    ghost use Rattle.postbox.specs.Posts.{PostboxView};

    ghost Value = { PostboxView };

    ghost view = { λ p. record {
      cell = p.cell.id;
      desk = p.cell.label.note.table;
      to = p.to;
      plan = p.cell.label.plan;
    } };

    ghost invariant = { λ p. p.cell.label.to ≡ p.to };
}

/// The right to end a postbox. It stands apart, since threads share the postbox and can't share a tally.
#[derive(Drop)]
pub struct Key {
    tally: Tally<Address>,
}

impl Model for Key {
    ghost use Rattle.atomic_table.specs.Seated.{TableId};

    ghost Value = { TableId };

    ghost view = { λ k. k.tally.id };
}

impl Postbox {
    /// An empty one for a replica of the desk of a note, and the key that ends it. `NoMemory` is its only error, and
    /// the note is then lost.
    pub fn new(
        alloc: Global,
        plan: LinkPlan,
        note: Note,
        to: u32,
    ) -> Result<(Postbox, Key), NoMemory>
        ensures desk { IfOk result (λ made. made.0.desk ≡ note.table) }
        ensures to { IfOk result (λ made. made.0.to ≡ to) }
        ensures plan { IfOk result (λ made. made.0.plan ≡ plan) }
        ensures key { IfOk result (λ made. made.1 ≡ made.0.cell) }
    {
        let post = Post::new(alloc, plan, note, to)?;
        let Ok((cell, tally)) = Cell::new(alloc, post, 0, 0) else {
            return Err(NoMemory);
        };
        Ok((Postbox { to, cell }, Key { tally }))
    }

    /// Puts a parcel, and tells what became of it: the plan may lose it, double it or turn it before what waits, and it
    /// is lost where 1,024 parcels wait. `NoMemory`, for the copy, is its only error: the inbox is as it was, and the
    /// parcel is lost. Waits for the inbox.
    pub fn put<R: Wait>(&self, rt: &R, desk: &Desk, parcel: Parcel) -> Result<Fate, NoMemory>
        requires desk { desk.now.table ≡ self.now.desk }
        requires parcel { IsFor self.now.desk self.now.to parcel }
        ensures fate { IfOk result (IsFateBy self.now.plan) }
        ensures for_a_copy { OnErr result (IsFateBy self.now.plan Doubled) }
    {
        let (held, mut post) = self.cell.lock(rt);
        let fate = post.put(desk, parcel);
        held.end(post);
        fate
    }

    /// Takes the first parcel that waits, if any does. Takes no memory, and waits for the inbox alone.
    pub fn next<R: Wait>(&self, rt: &R) -> Option<Parcel>
        ensures { IfSome result (IsFor self.now.desk self.now.to) }
    {
        let (held, mut post) = self.cell.lock(rt);
        let parcel = post.next();
        held.end(post);
        parcel
    }

    /// The replica that it is for.
    pub fn to(&self) -> u32
        ensures { result ≡ self.now.to }
    {
        self.to
    }

    /// Ends it with its key, and gives the inbox. Waits for it.
    pub fn end<R: Wait>(self, rt: &R, key: Key) -> Inbox<Parcel>
        requires { key ≡ self.cell }
        ensures plan { result.plan ≡ self.plan }
        ensures parcels { AreFor self.desk self.to result.waiting }
    {
        let Postbox { to: _, cell } = self;
        let Key { tally } = key;
        cell.end(rt, tally).into_inbox()
    }
}
