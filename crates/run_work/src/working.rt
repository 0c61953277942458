//! How a worker does its items.
ghost use Rattle.std.specs.Prelude.{◌≡◌, ℕ, ◌+◌, ◌*◌, ◌<◌, None, IfErr, OnOk, false};
ghost use Rattle.replica_lock.specs.Sessions.{own_calls};
ghost use Rattle.steady_node.specs.Going.{GoesOn};
ghost use Rattle.work_load.specs.Ranges.{IsItemOf};
ghost use Rattle.run_work.specs.Serving.{IsHeededAfter, IsObeyed};
ghost use Rattle.run_work.specs.Trying.{HasBegun, HasDone};
ghost use Rattle.run_work.specs.Sites.{SitesView};
ghost use Rattle.run_work.specs.Working.{HasWorked, IsBusyFor, IsEnding, IsFresh, IsReady};

use crate::trying::Tried;
use crate::worker::Worker;
use std::sync::Wait;
use steady_node::Ending;
use tact_io::{Clock, Gate, Journal};
use work_load::Item;

impl<'s, 'd, 'g, J: Journal, G: Gate> Worker<'s, 'd, 'g, J, G> {
    /// Does the items in order, until one ends it.
    pub(crate) fn work<R: Wait, C: Clock>(&mut self, rt: &R, clock: &C, tries: u64)
        requires tries { 0 < tries }
        requires ready { IsReady self.old }
        requires fresh { (sites : SitesView) × IsFresh sites self.old }
        ensures client { self.new.client ≡ self.old.client }
        ensures worked { (sites : SitesView) → IsFresh sites self.old → HasWorked J.tells sites tries self.new }
    {
        let client = self.client;
        for item in client.items.items() {
            if let Err(ending) = self.do_item(rt, clock, tries, item) {
                self.end = Some(ending);
                return;
            }
        }
    }

    // Tries an item until its reply is final, at most so many times. After each try it takes and sends.
    fn do_item<R: Wait, C: Clock>(
        &mut self,
        rt: &R,
        clock: &C,
        tries: u64,
        item: &Item,
    ) -> Result<(), Ending>
        requires tries { 0 < tries }
        requires item { IsItemOf self.old.node.desk.setup.replicas self.old.node.desk.setup.conits self.old.node.replica item.now }
        requires ready { IsReady self.old }
        ensures same { self.new ≡ record self.old { session = self.new.session; allowances = self.new.allowances } }
        ensures later { GoesOn (24 * tries) self.old.session self.new.session }
        ensures ready { OnOk result (IsReady self.new) }
        ensures done { OnOk result (HasDone tries item.now (own_calls self.old.session) (own_calls self.new.session)) }
        ensures heeded { OnOk result (IsHeededAfter self.old.session self.new.session) }
        ensures obeyed { OnOk result (IsObeyed self.old.node.desk.setup item.now self.old.session self.new.session) }
        ensures begun { IfErr result (λ ending. ending.lost ≡ false → HasBegun tries item.now (own_calls self.old.session) (own_calls self.new.session)) }
        ensures busy { (count : ℕ) → IsBusyFor count self.old.session → IsBusyFor (count + 1) self.new.session }
        ensures ending { IfErr result (IsEnding J.tells self.new.session) }
    {
        for _tried in 0..tries {
            let tried = match self.attempt(rt, clock, item) {
                Ok(tried) => tried,
                Err(ending) => return Err(ending),
            };
            match tried {
                Tried::Final => return self.tend(rt, clock, None),
                Tried::Waiting(wish) => self.tend(rt, clock, wish)?,
            }
        }
        Ok(())
    }
}
