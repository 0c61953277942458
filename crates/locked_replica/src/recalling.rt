//! What stands of a client's last call.
ghost use Rattle.std.specs.Prelude.{◌≡◌, ◌≢◌, ◌<◌, ℕ, true, false, get_or, length};
ghost use Rattle.run_model.specs.Histories.{calls_in, is_call_of};
ghost use Rattle.run_model.specs.declared.entry.Entry.{Entry};
ghost use Rattle.locked_replica.specs.Locks.{part_in};
ghost use Rattle.locked_replica.specs.Restarting.{IsCallWith, IsLastCall};

use crate::locked::{Locked, copied};
use run_model::{Act, Entry, Reply, Request};

impl Locked {
    /// The request and the reply of a client's last call, which has made one. It takes no memory.
    pub fn last_call(&self, client: u32) -> (Request, Reply)
        requires some { calls_in (part_in self.now) client ≢ 0 }
        ensures { IsLastCall (part_in self.now) client result.0 result.1 }
    {
        let place = self.last_place(client);
        call_of(&self.stored.items()[place].1, client)
    }

    // The place of a client's last call among the stored entries.
    fn last_place(&self, client: u32) -> usize
        requires some { calls_in (part_in self.now) client ≢ 0 }
        ensures within { result < length self.now.stored }
        ensures call { (none : Entry) → is_call_of client (get_or (part_in self.now) result none).act ≡ true }
        ensures last { (none : Entry) (k : ℕ) → result < k → k < length self.now.stored → is_call_of client (get_or (part_in self.now) k none).act ≡ false }
    {
        let stored = self.stored.items();
        for place in (0..stored.len()).rev() {
            if is_by(&stored[place].1, client) {
                return place;
            }
        }
        unreachable!()
    }
}

// Whether an entry is a call of a client.
fn is_by(entry: &Entry, client: u32) -> bool
    ensures { result ≡ is_call_of client entry.now.act }
{
    match &entry.act {
        Act::Call { client: who, .. } => *who == client,
        Act::Send { .. } | Act::Take { .. } | Act::Lend { .. } | Act::Back { .. } | Act::Restart =>
            false,
    }
}

// The request and the reply of a call of a client.
fn call_of(entry: &Entry, client: u32) -> (Request, Reply)
    requires { is_call_of client entry.now.act ≡ true }
    ensures { IsCallWith client result.0 result.1 entry.now.act }
{
    match &entry.act {
        Act::Call { request, reply, .. } => (request_again(request), copied(reply)),
        _ => unreachable!(),
    }
}

// The same request, which takes no memory.
fn request_again(request: &Request) -> Request
    ensures { result ≡ request.now }
{
    match request.clone() {
        Ok(copy) => copy,
        Err(_) => unreachable!(),
    }
}
