//! A block of the front end for a call that holds the locks of both layers of small blocks, as a reallocation that moves a block.
#![tactic(auto)]

mod active;
mod front;
pub mod laws;

pub use front::{Front, hold_front};
