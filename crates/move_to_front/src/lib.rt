//! A block that has to move goes to a new one of the front end, under the locks of its layer, of the variable-size layer and of the
//! back end, which its caller holds until the end.
//!
//! A new block is held first; then the words are copied. One step gives the new block and takes the old one, whose place goes then.
//! Where the front end has no block for the size, the variable-size layer serves it.
#![tactic(auto)]

mod behind;
mod ends;
mod finish;
mod hold;
mod late;
mod moves;

pub use behind::hold_behind;
pub use moves::{ToFront, move_back_to_front, move_large_to_front, move_vs_to_front};
