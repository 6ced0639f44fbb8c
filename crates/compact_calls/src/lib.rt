//! Compaction, by the owner of the heap lock.
//!
//! The owner works from outside the gate: all others are turned back, so no other caller holds a lock, and what the owner knows of
//! the heap stays. It gives back each subsegment of the front end without a block, and then decommits each page that no span has.
#![tactic(auto)]

mod call;
mod empties;
mod locks;
mod pages;
mod sound;

pub use call::compact;
pub use locks::{own_back, own_large, own_vs};
pub use sound::hear_sound;
