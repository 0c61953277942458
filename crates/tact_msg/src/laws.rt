//! What holds of the spellings of messages.

ghost use Rattle.std.specs.Prelude.{◌≡◌};
ghost use Rattle.run_model.specs.declared.entry.Message.{Message};
ghost use Rattle.run_model.specs.Bytes.{StandsAt};
ghost use Rattle.tact_msg.specs.MessageBytes.{IsMessage, message_bytes};

/// No two messages stand at the front of the same bytes. So no message's spelling begins another's, and
/// messages that stand one behind the other in a stream are told apart without a length before each. Does
/// nothing, and takes no memory.
pub fn one_message_at_front(bytes: &[u8])
    ensures { (a b : Message) → IsMessage a → IsMessage b
        → StandsAt (message_bytes a) bytes.now 0 → StandsAt (message_bytes b) bytes.now 0 → a ≡ b }
{
    let _bytes = bytes;
}
