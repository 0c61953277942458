//! An image: what keys hold after a list of operations, of which a front is committed.
#![tactic(auto)]

mod current;
mod image;
mod keys;
mod lagging;
mod layers;
mod values;

pub use image::Image;
pub use lagging::LAG;
pub use values::value_after;
