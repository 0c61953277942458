use link_faults::Twin;
use run_history::{Desk, Note};
use run_model::Message;
use std::marker::Model;
use tact_base::NoMemory;

/// A message on its way, with a note whose history has its sending. It may go to another thread. It is made by sending,
/// or as the twin of another.
#[derive(Drop)]
pub struct Parcel {
    pub(crate) message: Message,
    pub(crate) note: Note,
}

impl Model for Parcel {
    ghost use Rattle.locked_replica.specs.Parcels.{HasSending, ParcelView};

    ghost Value = { ParcelView };

    ghost view = { λ p. record { message = p.message; desk = p.note.table; seen = p.note.seen } };

    ghost invariant = { λ p. HasSending p.note.seen p.message };
}

impl Parcel {
    ghost use Rattle.std.specs.Prelude.{◌≡◌, IfOk};
    ghost use Rattle.locked_replica.specs.Parcels.{HasSending};

    /// The message that it carries, which was sent. Takes no memory.
    pub fn message(&self) -> &Message
        ensures message { result.now ≡ self.now.message }
        ensures sent { HasSending self.now.seen self.now.message }
    {
        &self.message
    }

    /// Another parcel of the same message, whose note has seen the same; this one stays as it is. The desk is the
    /// parcel's. `NoMemory` is its only error.
    pub fn twin(&mut self, desk: &Desk) -> Result<Parcel, NoMemory>
        requires { self.old.desk ≡ desk.now.table }
        ensures kept { self.new ≡ self.old }
        ensures twin { IfOk result (λ twin. twin ≡ self.old) }
    {
        let message = self.message.clone()?;
        Ok(Parcel {
            message,
            note: self.note.twin(desk),
        })
    }
}

impl Twin for Parcel {
    type With = Desk;

    ghost use Rattle.std.specs.Prelude.{◌≡◌};
    ghost use Rattle.run_model.specs.declared.entry.Message.{Message};

    ghost Carried = { Message };

    ghost carries = { λ parcel. parcel.message };

    ghost fits = { λ parcel desk. parcel.desk ≡ desk.table };

    fn twin(&mut self, with: &Desk) -> Result<Parcel, NoMemory> {
        Parcel::twin(self, with)
    }
}
