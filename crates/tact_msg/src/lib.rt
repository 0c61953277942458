//! Messages in bytes, so that any transport can carry them between replicas.
#![tactic(auto)]

mod decoding;
mod encoding;
mod fault;
mod get_parts;
mod get_writes;
mod laws;
mod parts;

pub use decoding::decode;
pub use encoding::encode;
pub use fault::MsgFault;
pub use laws::one_message_at_front;
