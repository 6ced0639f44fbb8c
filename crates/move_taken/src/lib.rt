//! A reallocation whose block is one of the front end and has been taken: it goes to a new place in another layer, or is given back.
//!
//! The caller holds the locks of the layers where the new block goes. That one is had in hand beside the old one, the words are moved,
//! the new block is given, and the old one goes by a step of its own.
#![tactic(auto)]

mod back;
pub mod laws;
mod moves;

pub use back::give_taken_back;
pub use moves::{end_taken, move_taken_far, move_taken_low};
