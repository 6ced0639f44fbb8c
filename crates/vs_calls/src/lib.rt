//! Parts of calls that the variable-size layer serves.
//!
//! Each works under the lock of the layer: a block that is there is measured, or taken and dropped; a new one goes into a gap. The
//! lock of the back end is taken too where a subsegment is made for a block or goes with its last one.
#![tactic(auto)]

mod allocating;
mod blocks;
mod dropping;
mod placing;
mod requests;
mod spans;

pub use allocating::place_in_vs;
pub use blocks::{lies_within, measure_vs, take_out};
pub use dropping::drop_vs;
pub use placing::{hold_in_gap, refuse};
pub use requests::{hold_new, refuse_new};
pub use spans::{give_both, hold_in_new_span};
