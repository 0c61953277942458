ghost use Rattle.std.specs.Prelude.{◌≡◌};
ghost use Rattle.tact_msg.specs.declared.fault.MsgFault.TheVariants as fault;
ghost use Rattle.tact_msg.specs.Faults.{of_field};

use run_model::FieldFault;
use tact_base::NoMemory as NoMoreMemory;

/// Why bytes aren't read as a message.
#[derive(Clone, Copy, Debug, PartialEq, Eq)]
pub enum MsgFault {
    /// The bytes end before the message does. All whole fields are good.
    Short,
    /// The field whose first byte is at this place is whole, and breaks its rule. All fields before it are good.
    BadField(usize),
    /// Want of memory.
    NoMemory,
}

impl From<FieldFault> for MsgFault {
    ghost from_gives = { λ field made. made ≡ of_field field };

    fn from(fault: FieldFault) -> Self {
        match fault {
            FieldFault::Short => MsgFault::Short,
            FieldFault::BadField(place) => MsgFault::BadField(place),
        }
    }
}

impl From<NoMoreMemory> for MsgFault {
    ghost from_gives = { λ _ made. made ≡ fault.NoMemory };

    fn from(_: NoMoreMemory) -> Self {
        MsgFault::NoMemory
    }
}
