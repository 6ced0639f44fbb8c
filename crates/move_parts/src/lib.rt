//! The second half of a reallocation: a block that has to move goes to a new place.
//!
//! The caller holds the locks that its old block needs, and those of the layers where the new one goes, until the end. A new block is
//! had in hand first; then the words are copied, the old block is taken and the new one given at once, and the old one is dropped.
#![tactic(auto)]

mod ends;
mod far;
mod holds;
mod moves;
mod words;

pub use ends::{end_back, end_large, end_span, end_vs};
pub use far::{move_back_far, move_large, move_large_low, move_vs_far};
pub use holds::{hold_back, hold_large, hold_vs};
pub use moves::{hold_low, move_back, move_vs};
pub use words::move_words;
