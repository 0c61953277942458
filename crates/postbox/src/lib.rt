//! Inboxes for one replica, which threads share.
#![tactic(auto)]

mod post;
mod postbox;

pub use postbox::{Key, Postbox};
