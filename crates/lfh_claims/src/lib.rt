//! The words of the low-fragmentation front end, each read or changed by one exchange of a caller: bits claimed and cleared,
//! sizes stored, taken and read, tags and active words. No call takes a lock, and none waits.
//!
//! Whether an entry is legal next is decided by what the caller alone knows: its own list, its locks, and the subsegments that
//! it has read since it entered. These stay while it is inside.
#![tactic(auto)]

mod blocks;
pub mod laws;
mod looks;
mod search;
mod steps;
mod tag;
#[cfg(test)]
mod tests;

pub use blocks::{clear, live_size, publish, take_live};
pub use looks::{active_of, owner_bits, owner_size, set_active, tag_of};
pub use search::{claim, see};
pub use tag::Tag;
