//! Records of runs, as bytes and as text; and lines, tokens and fields, the ground of each reader of lines, of
//! scripts as of records.
#![tactic(auto)]

mod act_tokens;
mod body_lines;
mod call_tokens;
mod entry_words;
mod fault;
mod fields;
mod fronts;
mod get_acts;
mod get_record;
mod get_setup;
mod held;
mod laws;
mod line_fault;
mod lines;
mod lists;
mod parts;
mod printing;
mod put_bytes;
mod record_lines;
mod reply_tokens;
mod same_replies;
mod setup_lines;
mod short;
mod splitting;

pub use fault::{PartFault, RecordFault};
pub use fields::{
    client_at, count_at, end_at, number_at, op_at, other_replica_at, replica_at, signed_at,
    small_at, token_at,
};
pub use fronts::past_word;
pub use get_acts::short_at;
pub use get_record::parse_bytes;
pub use held::Record;
pub use laws::{one_record_at_front, printed_is_read};
pub use line_fault::LineFault;
pub use lines::{fault_of_bytes, is_skipped};
pub use lists::{ListEnd, firsts_at, needs_at, numbers_at, weight_at, weights_at};
pub use parts::Counts;
pub use printing::{print, text_of};
pub use put_bytes::{
    append_call, append_front, append_loan, append_send, bytes_of, fill_call, fill_front,
};
pub use record_lines::parse_text;
pub use run_model::{end_of, head_of, line_of};
pub use same_replies::are_same_replies;
pub use short::{Short, ShortAct, Shorts};
pub use splitting::{next_token, split_line};
