//! What a run of the project is made of: the requests of clients and the replies to them, messages,
//! entries, the setup that all of it is made for, the text of each, and what is true of every run.
#![tactic(auto)]

mod backward;
mod call;
mod cause;
mod config;
mod entry;
mod fields;
mod get_bytes;
mod get_call_bytes;
mod header;
mod laws;
mod put_bytes;
mod put_call_bytes;
mod ranges;
mod script_line;
mod short_bytes;
mod status;
mod text;
mod tokens;
mod worked;

pub use call::{Reply, Request, Sums};
pub use cause::Cause;
pub use config::{Config, is_passed_by};
pub use entry::{Act, Entry, Message};
pub use fields::{
    FieldFault, any_number_at, any_signed_at, append_byte, append_number, append_numbers, byte_at,
    number_at, numbers_at, other_at, signed_at,
};
pub use get_bytes::{get_op, get_weights, op_at, weights_at};
pub use get_call_bytes::{get_reply, get_request, reply_at, request_at};
pub use header::{end_of, head_of};
pub use laws::runs_agree;
pub use put_bytes::{put_op, put_weights};
pub use put_call_bytes::{fill_reply, fill_request, put_reply, put_request};
pub use ranges::is_message_in_range;
pub use script_line::Line;
pub use short_bytes::ShortBytes;
pub use status::{ByteKind, InputKind, LineKind, LoadKind, Status, UsageKind};
pub use tact_base::ConfigFault;
pub use text::{LineRoom, line_of, line_with};
pub use tokens::{all_or_nothing, put_number, put_row, put_token};
pub use worked::worked_scripts;
