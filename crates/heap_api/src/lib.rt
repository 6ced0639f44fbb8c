//! The calls that wait. Each tries the call of `heap_now` until no other caller is in the way, and yields between two tries, so that
//! the one in the way gets on. A call may try for ever: what is said of it holds if it returns.
//!
//! `unlock` and `heap_now::walk_next` meet nobody, so they have no other form here.
#![tactic(auto)]

mod blocks;
mod locks;
mod reallocs;
#[cfg(test)]
mod tests;
mod words;

pub use blocks::{alloc, free, size};
pub use heap_now::{Caller, Heap, Root, open_heap, unlock_now as unlock};
pub use locks::{compact, lock};
pub use reallocs::realloc;
pub use words::{get, put};

/// No range fits the block.
#[derive(Clone, Copy, Debug, PartialEq, Eq)]
pub struct NoFit;

/// No live block has the address.
#[derive(Clone, Copy, Debug, PartialEq, Eq)]
pub struct NotLive;

/// The caller has taken the heap lock 65,535 times.
#[derive(Clone, Copy, Debug, PartialEq, Eq)]
pub struct Depth;

/// Why a block does not get another size. It is as it was then. No room in place is said only where the block may not move.
#[derive(Clone, Copy, Debug, PartialEq, Eq)]
pub enum ReRefused {
    NotLive,
    NoFit,
    NoRoomInPlace,
}

/// Why a word of a block is not read or written. `Past` tells how many words of 8 bytes the block has.
#[derive(Clone, Copy, Debug, PartialEq, Eq)]
pub enum WordRefused {
    NotLive,
    Past { words: u64 },
}
