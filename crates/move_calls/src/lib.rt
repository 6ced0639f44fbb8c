//! The second half of a reallocation: a block that cannot stay moves, under the locks that it needs.
//!
//! The caller holds the lock of the old block's layer, or has a block of the front end in hand. The locks that are lacking are taken
//! then, each tried once, before anything has changed. Behind the move, or where there is no range for it, all are given back.
#![tactic(auto)]

mod back;
mod brings;
mod busy;
mod carries;
mod ends;
mod found;
mod front;
mod gives;
mod held;
mod large;
mod takes;
mod tries;
mod vs;

pub use busy::end_busy;
pub use ends::end_move;
pub use found::{move_found, realloc_inside};
pub use gives::give_all;
pub use held::Held;
pub use takes::{also_back, also_large, also_vs, listen};
