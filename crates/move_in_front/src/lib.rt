//! A block of the front end that was taken moves to another one of it, under the locks of the variable-size layer and of the back end,
//! or to one of the variable-size layer where the front end has none.
//!
//! The new block is held beside the old one; then the words are copied, the new block is given, and the old one's bit is cleared.
#![tactic(auto)]

pub mod laws;
mod moves;

pub use moves::{InFront, move_taken_to_front};
