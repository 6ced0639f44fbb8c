//! Allocations that the front end cannot serve, and with them all allocations of at most 131,072 bytes.
//!
//! Such a one holds the locks of the variable-size layer and of the back end, in the order in which it came to them. The block goes
//! into a gap, or into a subsegment that is made for it; else no range fits. Both locks are given back, the last one first.
#![tactic(auto)]

mod behind;
mod both;
mod small;

pub use behind::{place_behind, refuse_behind};
pub use both::{give_two, hand_over_two};
pub use small::place_small;
