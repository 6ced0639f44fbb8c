//! Parts of calls that the low-fragmentation front end serves: finding the size of a block, giving a block back.
//!
//! Each begins with its caller inside its call and ends with the caller inside, with no lock. Neither takes a lock, and none waits.
#![tactic(auto)]

mod blocks;

pub use blocks::{drop_front, measure_front};
