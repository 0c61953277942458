//! What a script plays on: the replicas, what they have done, and the messages that they sent.
ghost use Rattle.std.specs.Prelude.{◌≡◌, ◌≢◌, ◌<◌, ◌≤◌, true, [], ◌∷◌, ◌++◌, length, slice_get, slice_set, slice_index_or, Some, IfOk, OnErr, OnOk};
ghost use Rattle.tact_base.specs.declared.limits.TheConstants.{CLIENTS, SCRIPT_LINES};
ghost use Rattle.run_model.specs.Histories.{part_of, moment_at, sent_in};
ghost use Rattle.run_model.specs.Ranges.{IsRequestInRange};
ghost use Rattle.run_model.specs.ScriptRuns.{not_played, played_by, lines_text, line_comment, calls, sends, takes, passes, enters, entries_text, act_comments, show_text};
ghost use Rattle.run_model.specs.Text.{entry_text};
ghost use Rattle.run_model.specs.declared.entry.Act.TheVariants as act;
ghost use Rattle.run_model.specs.declared.script_line.Line.TheVariants as line;
ghost use Rattle.script_text.specs.Scripts.{IsScript};
ghost use Rattle.script_text.specs.Setups.{setup_of};
ghost use Rattle.script_run.specs.Stages.{Keeps, GoesOnTo, setup_in, played_in};

mod calling;
mod lending;
mod sending;

use crate::comments::{needs, reference, show};
use crate::outbox::Outbox;
use crate::page::Page;
use crate::witness::Witness;
use calling::needs_in;
use given_up::GivenUp;
use reference_book::Book;
use replica_set::ReplicaSet;
use run_model::{Act, Config, Entry, Line, line_with};
use std::alloc::Global;
use tact_base::{Bytes, NoMemory, Numbers};

/// The replicas of a setup, and what they have done.
#[derive(Drop)]
pub(crate) struct Stage {
    set: ReplicaSet,
    /// All accepted writes, where the stage prints.
    book: Book,
    /// What happened, in order. Contracts alone see it; a witness keeps of it what he wants.
    history: GivenUp<Entry>,
    /// By replica, the messages that it sent.
    sent: Vec<Outbox>,
    /// The moment that is handed to what follows.
    handed: u64,
    /// A zero for each replica: the firsts where none are given.
    zeros: Numbers,
    /// Whether the entries that are made are printed, with the comments on them.
    prints: bool,
    /// The entry that a call is put into: so none is made anew for each call.
    calling: Entry,
}

impl Stage {
    ghost use Rattle.script_run.specs.Stages.{IsMade, Entered, Enters, Steps, IsReadyFor};

    /// A stage of a setup, on which nothing has happened.
    pub(crate) fn new(alloc: Global, config: &Config, prints: bool) -> Result<Stage, NoMemory>
        ensures keeps { IfOk result Keeps }
        ensures setup { IfOk result (λ stage. setup_in stage ≡ config.now) }
        ensures played { IfOk result (λ stage. played_in stage ≡ not_played) }
        ensures prints { IfOk result (λ stage. stage.prints ≡ prints) }
    {
        let mut sent = Vec::new(alloc);
        for _replica in 0..config.replicas() {
            sent.push(Outbox::new(alloc))?;
        }
        Ok(Stage {
            set: ReplicaSet::new(alloc, config)?,
            book: Book::new(alloc, config)?,
            history: GivenUp::new(),
            sent,
            handed: 0,
            zeros: Numbers::filled(alloc, 0, config.replicas())?,
            prints,
            calling: Entry {
                replica: 0,
                moment: 0,
                act: Act::Restart,
            },
        })
    }

    /// Does what a line says, and appends what it prints, where the stage prints.
    pub(crate) fn step<W: Witness>(
        &mut self,
        line: &Line,
        witness: &mut W,
        out: &mut Page,
    ) -> Result<(), NoMemory>
        requires keeps { Keeps self.old }
        requires ready { IsReadyFor (setup_in self.old) self.old.history.items line.now }
        requires saw { W.saw witness.old self.old.history.items }
        ensures steps { OnOk result (Steps self.old self.new line.now out.old out.new) }
        ensures setup { setup_in self.new ≡ setup_in self.old }
        ensures saw { OnOk result (W.saw witness.new self.new.history.items) }
    {
        match line {
            Line::Start { .. } | Line::Bound { .. } => Ok(()),
            Line::At { moment } => {
                self.handed = *moment;
                Ok(())
            }
            Line::Write {
                replica,
                client,
                ..
            } => self.call(*replica, *client, line, witness, out),
            Line::Held {
                replica,
                client,
                ..
            } => self.call(*replica, *client, line, witness, out),
            Line::Reserve {
                replica,
                client,
                ..
            } => self.call(*replica, *client, line, witness, out),
            Line::Release {
                replica,
                client,
                ..
            } => self.call(*replica, *client, line, witness, out),
            Line::Read {
                replica,
                client,
                ..
            } => self.call(*replica, *client, line, witness, out),
            Line::Send { from, to, firsts } => self.send(*from, *to, firsts, witness, out),
            Line::Take {
                replica,
                from,
                number,
            } => self.take(*replica, *from, *number, witness, out),
            Line::Sync { first, second } => {
                self.pass(*first, *second, witness, out)?;
                self.pass(*second, *first, witness, out)
            }
            Line::Lend {
                owner,
                holder,
                conit,
                amount,
            } => self.lend(*owner, *holder, *conit, *amount, witness, out),
            Line::Back {
                holder,
                owner,
                conit,
                amount,
            } => self.give_back(*holder, *owner, *conit, *amount, witness, out),
            Line::Restart { replica } => self.restart(*replica, witness, out),
            Line::Show { replica } => self.show(*replica, &mut out.text),
            Line::Ref { conit } => self.tell_reference(*conit, &mut out.text),
        }
    }

    /// Appends the comment that shows a replica.
    pub(crate) fn show(&self, replica: u32, out: &mut Bytes) -> Result<(), NoMemory>
        requires keeps { Keeps self.now }
        requires replica { replica < (setup_in self.now).replicas }
        ensures ok { OnOk result (out.new ≡ out.old ++ show_text (setup_in self.now) self.now.history.items replica) }
        ensures err { OnErr result (out.new ≡ out.old) }
    {
        let view = self.set.at(replica);
        show(self.set.config(), replica, view, out)
    }

    // Appends the comment on a conit's true value, where the stage prints.
    fn tell_reference(&self, conit: u32, out: &mut Bytes) -> Result<(), NoMemory>
        requires keeps { Keeps self.now }
        requires conit { conit < (setup_in self.now).conits }
        ensures { OnOk result (self.now.prints ≡ true
            → out.new ≡ out.old ++ line_comment (setup_in self.now) self.now.history.items (line.Ref conit)) }
    {
        if !self.prints {
            return Ok(());
        }
        reference(conit, self.book.value(conit), out)
    }

    // The moment of the next entry of a replica.
    fn moment_of(&self, replica: u32) -> u64
        requires keeps { Keeps self.now }
        requires replica { replica < (setup_in self.now).replicas }
        ensures { result ≡ moment_at (part_of self.now.history.items replica) self.now.handed }
    {
        self.handed.max(self.set.at(replica).last())
    }

    // Enters an entry that was made: tells a witness of it, and appends its line and the comments on it, where the stage
    // prints.
    fn enter<W: Witness>(
        &mut self,
        entry: &Entry,
        witness: &mut W,
        out: &mut Page,
    ) -> Result<(), NoMemory>
        requires made { IsMade self.old entry.now }
        requires saw { W.saw witness.old self.old.history.items }
        ensures entered { OnOk result (Entered self.old self.new entry.now out.old out.new) }
        ensures set { self.new.set ≡ self.old.set }
        ensures saw { OnOk result (W.saw witness.new self.new.history.items) }
    {
        self.history = self.tell(entry, witness, out)?;
        Ok(())
    }

    // Tells a witness of an entry that was made, which may lie within the stage, and appends its line and the comments on
    // it, where the stage prints. What happened is then this.
    fn tell<W: Witness>(
        &self,
        entry: &Entry,
        witness: &mut W,
        out: &mut Page,
    ) -> Result<GivenUp<Entry>, NoMemory>
        requires made { IsMade self.now entry.now }
        requires saw { W.saw witness.old self.now.history.items }
        ensures entered { IfOk result (λ history. Entered self.now (record self.now { history = history }) entry.now out.old out.new) }
        ensures saw { IfOk result (λ history. W.saw witness.new history.items) }
    {
        if self.prints {
            line_with(&mut out.room, entry, &mut out.text)?;
            self.comment_on(entry, &mut out.text)?;
        }
        witness.sees(entry)?;
        Ok(self.history.and(entry))
    }

    // Appends the comments on an entry that was made: how well each need of an answered read was met.
    fn comment_on(&self, entry: &Entry, out: &mut Bytes) -> Result<(), NoMemory>
        requires made { IsMade self.now entry.now }
        requires prints { self.now.prints ≡ true }
        ensures { OnOk result (out.new ≡ out.old
            ++ act_comments (setup_in self.now) (self.now.history.items ++ entry.now ∷ []) entry.now.replica entry.now.moment entry.now.act) }
    {
        let view = self.set.at(entry.replica);
        needs(&self.book, view, entry.moment, needs_in(&entry.act), out)
    }

    // A replica begins anew.
    fn restart<W: Witness>(
        &mut self,
        replica: u32,
        witness: &mut W,
        out: &mut Page,
    ) -> Result<(), NoMemory>
        requires keeps { Keeps self.old }
        requires replica { replica < (setup_in self.old).replicas }
        requires saw { W.saw witness.old self.old.history.items }
        ensures enters { OnOk result (Enters self.old self.new (enters (played_in self.old) replica (λ part moment. act.Restart)) out.old out.new) }
        ensures setup { setup_in self.new ≡ setup_in self.old }
        ensures saw { OnOk result (W.saw witness.new self.new.history.items) }
    {
        let moment = self.moment_of(replica);
        // No replica of a script is full.
        let Ok(()) = self.set.restart(replica, self.handed) else {
            return Err(NoMemory);
        };
        let entry = Entry {
            replica,
            moment,
            act: Act::Restart,
        };
        self.enter(&entry, witness, out)
    }
}

/// Does what the lines of a script say, on a stage on which nothing has happened, and appends what they print, where the
/// stage prints.
pub(crate) fn step_all<W: Witness>(
    stage: &mut Stage,
    lines: &[Line],
    witness: &mut W,
    page: &mut Page,
) -> Result<(), NoMemory>
    requires script { IsScript lines.now }
    requires few { length lines.now ≤ SCRIPT_LINES }
    requires keeps { Keeps stage.old }
    requires setup { setup_in stage.old ≡ setup_of lines.now }
    requires played { played_in stage.old ≡ not_played }
    requires saw { W.saw witness.old stage.old.history.items }
    ensures goes { OnOk result (GoesOnTo stage.old stage.new (played_by (setup_of lines.now) lines.now)) }
    ensures saw { OnOk result (W.saw witness.new stage.new.history.items) }
    ensures text { OnOk result (stage.old.prints ≡ true → page.new ≡ page.old ++ lines_text (setup_of lines.now) not_played lines.now) }
{
    for line in lines {
        stage.step(line, witness, page)?;
    }
    Ok(())
}
