//! Calls of clients.
ghost use Rattle.std.specs.Prelude.{◌≡◌, true, ℕ, ◌≤◌, ◌<◌, List, [], ◌∷◌, ◌++◌, Some, IfOk, OnOk, IsTrue};
ghost use Rattle.tact_base.specs.Setup.{Setup};
ghost use Rattle.tact_base.specs.declared.limits.TheConstants.{CLIENTS, MOMENT_MAX};
ghost use Rattle.tact_base.specs.declared.write.Write.{Write};
ghost use Rattle.run_model.specs.OwnWrites.{asked_write, done_as, accepted_as, accepted_by};
ghost use Rattle.run_model.specs.declared.entry.Act.TheVariants as act;
ghost use Rattle.run_model.specs.declared.entry.Entry.{Entry};
ghost use Rattle.reference_book.specs.Books.{IsBookOf, IsNextIn};
ghost use Rattle.script_run.specs.Stages.{Asked, asked_by, IsAsking, IsAnsweredBy, needs_in, needs_met};

use super::Stage;
use crate::page::Page;
use crate::witness::Witness;
use reference_book::Book;
use replica_set::ReplicaSet;
use run_model::{Act, Entry, Line, Reply, Request};
use tact_base::{Need, NoMemory, Op, Weight, Weights, Write};

impl Stage {
    ghost use Rattle.script_run.specs.Stages.{Keeps, Steps, IsReadyFor, setup_in};

    // A client calls a replica, as a line says.
    pub(super) fn call<W: Witness>(
        &mut self,
        replica: u32,
        client: u32,
        line: &Line,
        witness: &mut W,
        out: &mut Page,
    ) -> Result<(), NoMemory>
        requires keeps { Keeps self.old }
        requires ready { IsReadyFor (setup_in self.old) self.old.history.items line.now }
        requires asks { (request : Request) × (asked_by line.now ≡ Some (record { replica = replica; client = client; request = request })) }
        requires saw { W.saw witness.old self.old.history.items }
        ensures steps { OnOk result (Steps self.old self.new line.now out.old out.new) }
        ensures setup { setup_in self.new ≡ setup_in self.old }
        ensures saw { OnOk result (W.saw witness.new self.new.history.items) }
    {
        let moment = self.moment_of(replica);
        let number = self.set.at(replica).calls(client);
        self.calling.replica = replica;
        self.calling.moment = moment;
        ask(&mut self.calling.act, client, number, line);
        answer(&mut self.set, &mut self.calling, self.handed)?;
        note(self.prints, &mut self.book, &self.calling)?;
        self.history = self.tell(&self.calling, witness, out)?;
        Ok(())
    }
}

// Has the replica of an entry answer the call that it is of, and puts the reply in the place of that of the entry. No
// replica of a script is full.
fn answer(set: &mut ReplicaSet, entry: &mut Entry, handed: u64) -> Result<(), NoMemory>
    requires replica { entry.old.replica < set.old.setup.replicas }
    requires asks { IsAsking set.old.setup entry.old.act }
    requires handed { handed ≤ MOMENT_MAX }
    ensures answered { OnOk result ((client number : ℕ) (request : Request) (before : Reply)
        → entry.old.act ≡ act.Call client number request before
        → IsAnsweredBy set.old set.new entry.old entry.new handed client number request) }
    ensures setup { set.new.setup ≡ set.old.setup }
{
    let replica = entry.replica;
    match &mut entry.act {
        Act::Call {
            client,
            request,
            reply,
            ..
        } => match set.call(replica, handed, *client, request) {
            Ok(given) => {
                *reply = given;
                Ok(())
            }
            Err(_) => Err(NoMemory),
        },
        Act::Send { .. } | Act::Take { .. } | Act::Lend { .. } | Act::Back { .. } | Act::Restart =>
            unreachable!(),
    }
}

// Makes an act the call of a client, as a line asks for it, whose reply comes later. Where it was a call, it stays in its
// place.
fn ask(doing: &mut Act, client: u32, number: u64, line: &Line)
    requires { (asked : Asked) × (asked_by line.now ≡ Some asked) }
    ensures { (asked : Asked) → asked_by line.now ≡ Some asked → (reply : Reply) × (doing.new ≡ act.Call client number asked.request reply) }
{
    match doing {
        Act::Call {
            client: asking,
            number: counted,
            request,
            ..
        } => {
            *asking = client;
            *counted = number;
            put_request(request, line);
        }
        other => make_call(other, client, number, line),
    }
}

// Makes any act such a call.
fn make_call(doing: &mut Act, client: u32, number: u64, line: &Line)
    requires { (asked : Asked) × (asked_by line.now ≡ Some asked) }
    ensures { (asked : Asked) → asked_by line.now ≡ Some asked → (reply : Reply) × (doing.new ≡ act.Call client number asked.request reply) }
{
    *doing = Act::Call {
        client,
        number,
        request: request_of(line),
        reply: Reply::Granted,
    };
}

// Puts the request of a line in the place of another.
fn put_request(request: &mut Request, line: &Line)
    requires { (asked : Asked) × (asked_by line.now ≡ Some asked) }
    ensures { (asked : Asked) → asked_by line.now ≡ Some asked → request.new ≡ asked.request }
{
    if !put_write(request, line) {
        make_request(request, line);
    }
}

// Where a line and a request are writes, puts the parts of the one in the places of those of the other. The answer is
// whether they are.
fn put_write(request: &mut Request, line: &Line) -> bool
    ensures { IsTrue result → (asked : Asked) → asked_by line.now ≡ Some asked → request.new ≡ asked.request }
{
    match (request, line) {
        (
            Request::Write {
                weights: held,
                op: done,
            },
            Line::Write { op, weights, .. },
        ) => {
            *held = *weights;
            *done = *op;
            true
        }
        _ => false,
    }
}

// Makes any request that of a line.
fn make_request(request: &mut Request, line: &Line)
    requires { (asked : Asked) × (asked_by line.now ≡ Some asked) }
    ensures { (asked : Asked) → asked_by line.now ≡ Some asked → request.new ≡ asked.request }
{
    *request = request_of(line);
}

// The request of a line.
fn request_of(line: &Line) -> Request
    requires { (asked : Asked) × (asked_by line.now ≡ Some asked) }
    ensures { (asked : Asked) → asked_by line.now ≡ Some asked → result ≡ asked.request }
{
    match line {
        Line::Write { op, weights, .. } => Request::Write {
            weights: *weights,
            op: *op,
        },
        Line::Held { op, weight, .. } => Request::Held {
            weight: *weight,
            op: *op,
        },
        Line::Reserve { conit, amount, .. } => Request::Reserve {
            conit: *conit,
            amount: *amount,
        },
        Line::Release { conit, amount, .. } => Request::Release {
            conit: *conit,
            amount: *amount,
        },
        Line::Read { key, needs, .. } => Request::Read {
            key: *key,
            needs: *needs,
        },
        Line::Start { .. }
        | Line::Bound { .. }
        | Line::At { .. }
        | Line::Send { .. }
        | Line::Take { .. }
        | Line::Sync { .. }
        | Line::Lend { .. }
        | Line::Back { .. }
        | Line::Restart { .. }
        | Line::Show { .. }
        | Line::Ref { .. } => unreachable!(),
    }
}

// Takes the write that the call of an entry accepted, if it did, into the book, where the stage prints.
fn note(prints: bool, book: &mut Book, entry: &Entry) -> Result<(), NoMemory>
    requires calls { (client number : ℕ) × (request : Request) × (reply : Reply) × (entry.now.act ≡ act.Call client number request reply) }
    requires next { prints ≡ true → (write : Write) → accepted_by entry.now.replica entry.now.moment entry.now.act ≡ Some write → IsNextIn book.old write }
    ensures { OnOk result (prints ≡ true → (setup : Setup) (history : List Entry) → IsBookOf setup history book.old
        → IsBookOf setup (history ++ entry.now ∷ []) book.new) }
{
    match &entry.act {
        Act::Call { request, reply, .. } => note_call(
            prints,
            book,
            entry.replica,
            entry.moment,
            request,
            reply,
        ),
        Act::Send { .. } | Act::Take { .. } | Act::Lend { .. } | Act::Back { .. } | Act::Restart =>
            unreachable!(),
    }
}

// Takes the write that a call at a replica and a moment accepted, if it did, into the book, where the stage prints.
fn note_call(
    prints: bool,
    book: &mut Book,
    replica: u32,
    moment: u64,
    request: &Request,
    reply: &Reply,
) -> Result<(), NoMemory>
    requires next { prints ≡ true → (write : Write) → accepted_as replica moment (asked_write request.now) (done_as reply.now) ≡ Some write → IsNextIn book.old write }
    ensures { OnOk result (prints ≡ true → (setup : Setup) (history : List Entry) (client number : ℕ) → IsBookOf setup history book.old
        → IsBookOf setup (history ++ record { replica = replica; moment = moment; act = act.Call client number request.now reply.now } ∷ []) book.new) }
{
    if !prints {
        return Ok(());
    }
    let Some((index, stamp)) = done_as(reply) else {
        return Ok(());
    };
    match request {
        Request::Write { weights, op } => book.accept(&Write {
            origin: replica,
            index,
            stamp,
            moment,
            weights: *weights,
            op: *op,
        }),
        Request::Held { weight, op } => book.accept(&Write {
            origin: replica,
            index,
            stamp,
            moment,
            weights: only(*weight)?,
            op: *op,
        }),
        Request::Reserve { .. } => Ok(()),
        Request::Release { .. } => Ok(()),
        Request::Read { .. } => Ok(()),
    }
}

// The index and the stamp of an accepted write.
fn done_as(reply: &Reply) -> Option<(u64, u64)>
    ensures { result ≡ done_as reply.now }
{
    match reply {
        Reply::Done { index, stamp } => Some((*index, *stamp)),
        Reply::Granted
        | Reply::Released
        | Reply::Value { .. }
        | Reply::TooHeavy { .. }
        | Reply::WaitHeld { .. }
        | Reply::WaitShare { .. }
        | Reply::WaitLent { .. }
        | Reply::WaitOrder { .. }
        | Reply::WaitStale { .. }
        | Reply::NotHeld { .. } => None,
    }
}

// The list of one weight, which is within its limits where it was accepted.
fn only(weight: Weight) -> Result<Weights, NoMemory>
    ensures { IfOk result (λ weights. weights ≡ weight ∷ []) }
{
    Weights::new(&[weight]).map_err(|_| NoMemory)
}

// The needs of a read that was answered with a value.
pub(super) fn needs_in(act: &Act) -> &[Need]
    ensures { result.now ≡ needs_in act.now }
{
    match act {
        Act::Call { request, reply, .. } => needs_met(request, reply),
        Act::Send { .. } | Act::Take { .. } | Act::Lend { .. } | Act::Back { .. } | Act::Restart =>
            &[],
    }
}

fn needs_met<'a>(request: &'a Request, reply: &Reply) -> &'a [Need]
    ensures { result.now ≡ needs_met request.now reply.now }
{
    match request {
        Request::Read { needs, .. } => match reply {
            Reply::Value { .. } => needs.items(),
            Reply::Done { .. }
            | Reply::Granted
            | Reply::Released
            | Reply::TooHeavy { .. }
            | Reply::WaitHeld { .. }
            | Reply::WaitShare { .. }
            | Reply::WaitLent { .. }
            | Reply::WaitOrder { .. }
            | Reply::WaitStale { .. }
            | Reply::NotHeld { .. } => &[],
        },
        Request::Write { .. }
        | Request::Held { .. }
        | Request::Reserve { .. }
        | Request::Release { .. } => &[],
    }
}
