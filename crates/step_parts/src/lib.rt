//! What the laws of steps share: the words of a block, what is in hand, and what a caller has seen in its stay.
#![tactic(auto)]

pub mod laws;
mod target;

pub use target::{Guards, Seating, Table, Target};
