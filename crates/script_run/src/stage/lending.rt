//! What is lent and given back.
ghost use Rattle.std.specs.Prelude.{◌≡◌, ◌≢◌, ◌<◌, ◌≤◌, OnOk};
ghost use Rattle.tact_base.specs.declared.limits.TheConstants.{AMOUNT_MAX};
ghost use Rattle.run_model.specs.declared.script_line.Line.TheVariants as line;

use super::Stage;
use crate::comments::{back_refused, lend_refused};
use crate::page::Page;
use crate::witness::Witness;
use replica_core::LoanFault;
use run_model::{Act, Entry};
use tact_base::NoMemory;

impl Stage {
    ghost use Rattle.script_run.specs.Stages.{Keeps, Steps, setup_in};

    // An owner lends to a holder, if so much is at home.
    pub(super) fn lend<W: Witness>(
        &mut self,
        owner: u32,
        holder: u32,
        conit: u32,
        amount: u64,
        witness: &mut W,
        out: &mut Page,
    ) -> Result<(), NoMemory>
        requires keeps { Keeps self.old }
        requires owner { owner < (setup_in self.old).replicas }
        requires holder { holder < (setup_in self.old).replicas }
        requires other { holder ≢ owner }
        requires conit { conit < (setup_in self.old).conits }
        requires amount { amount ≤ AMOUNT_MAX }
        requires saw { W.saw witness.old self.old.history.items }
        ensures steps { OnOk result (Steps self.old self.new (line.Lend owner holder conit amount) out.old out.new) }
        ensures setup { setup_in self.new ≡ setup_in self.old }
        ensures saw { OnOk result (W.saw witness.new self.new.history.items) }
    {
        let moment = self.moment_of(owner);
        match self.set.lend(owner, self.handed, holder, conit, amount) {
            Ok(()) => self.enter(
                &Entry {
                    replica: owner,
                    moment,
                    act: Act::Lend {
                        to: holder,
                        conit,
                        amount,
                    },
                },
                witness,
                out,
            ),
            Err(LoanFault::Home { conit: _, home }) => {
                lend_refused(owner, holder, conit, amount, home, out)
            }
            Err(_) => Err(NoMemory),
        }
    }

    // A holder gives back to an owner, if so much is free.
    pub(super) fn give_back<W: Witness>(
        &mut self,
        holder: u32,
        owner: u32,
        conit: u32,
        amount: u64,
        witness: &mut W,
        out: &mut Page,
    ) -> Result<(), NoMemory>
        requires keeps { Keeps self.old }
        requires holder { holder < (setup_in self.old).replicas }
        requires owner { owner < (setup_in self.old).replicas }
        requires other { owner ≢ holder }
        requires conit { conit < (setup_in self.old).conits }
        requires amount { amount ≤ AMOUNT_MAX }
        requires saw { W.saw witness.old self.old.history.items }
        ensures steps { OnOk result (Steps self.old self.new (line.Back holder owner conit amount) out.old out.new) }
        ensures setup { setup_in self.new ≡ setup_in self.old }
        ensures saw { OnOk result (W.saw witness.new self.new.history.items) }
    {
        let moment = self.moment_of(holder);
        match self
            .set
            .give_back(holder, self.handed, owner, conit, amount)
        {
            Ok(()) => self.enter(
                &Entry {
                    replica: holder,
                    moment,
                    act: Act::Back {
                        owner,
                        conit,
                        amount,
                    },
                },
                witness,
                out,
            ),
            Err(LoanFault::Free { conit: _, free }) => {
                back_refused(holder, owner, conit, amount, free, out)
            }
            Err(_) => Err(NoMemory),
        }
    }
}
