//! Parts of calls that find a block by its address alone, whichever layer has it.
//!
//! Each begins with its caller inside its call and ends with the caller inside, with no lock. Whose the block would be the address
//! tells, the tag of its page, and then the layers under their locks, each of which is tried once. None waits.
#![tactic(auto)]

mod blocks;
mod denials;
mod drops;
pub mod laws;
mod look;
mod slots;

pub use blocks::measure;
pub use drops::drop_block;
pub use look::{Found, look_up};
