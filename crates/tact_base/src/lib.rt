//! The ground that every crate of the project stands on: small lists, numbers in text, and the plain
//! types that writes, needs and covers are made of.
#![tactic(auto)]

mod conit_list;
mod counts;
mod few;
mod fit;
mod items;
mod laws;
mod limits;
mod numbers;
mod pieces;
mod roomy_list;
mod roomy_queue;
mod setup;
mod shared_list;
mod short_items;
mod short_text;
mod slowest;
mod sums;
mod tokens;
mod write;

pub use conit_list::{ConitList, ListFault, Need, Needs, OnConit, Weight, Weights};
pub use counts::first_index;
pub use few::{Blank, Few, Row};
pub use fit::Fit;
pub use items::{Bytes, Items, NoMemory};
pub use laws::{
    committed_is_a_front, in_order_forgets_arrival, in_order_sorts, order_is_total,
    order_keeps_sums,
};
pub use limits::{
    ALPHA_MAX, AMOUNT_MAX, CLIENTS, CONITS_MAX, HISTORY_MAX, INPUT_MAX, KEY_MAX, LENT_MAX,
    LINE_MAX, LIST_MAX, MESSAGE_WRITES, MOMENT_MAX, REPLICAS_MAX, REPLICAS_MIN, SCRIPT_LINES,
    STAMP_MAX, SUMMED_WRITES, VALUE_MAX, WEIGHT_MAX,
};
pub use numbers::{NumberFault, print_number, print_signed, read_number};
pub use roomy_list::{RoomyList, drop_front};
pub use roomy_queue::RoomyQueue;
pub use setup::ConfigFault;
pub use shared_list::SharedList;
pub use short_items::{Numbers, ShortItems};
pub use short_text::ShortText;
pub use slowest::{Slowest, slowest_of};
pub use sums::sum_on;
pub use tokens::{TokenFault, whole_number, whole_signed};
pub use write::{Cover, Covers, Late, Op, Place, SharedWrites, Write, WriteList};
