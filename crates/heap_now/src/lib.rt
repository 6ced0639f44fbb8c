//! The heap over the table that callers share: it is opened here, and each call of a caller is made here, from its Begin to its
//! answer.
//!
//! A call enters, does its part under the locks that this asks, and leaves. None waits: where another caller is in the way, the
//! call ends, and answers `Busy`.
#![tactic(auto)]

mod address;
mod alloc;
mod frame;
mod locks;
mod open;
mod reallocs;
#[cfg(test)]
mod tests;
mod words;

pub use address::{free_now, get_now, put_now, size_now};
pub use alloc::alloc_now;
pub use call_parts::State;
pub use compact_calls::compact as compact_now;
pub use locks::{lock_now, unlock_now};
pub use open::open_heap;
pub use reallocs::realloc_now;
pub use walk_calls::walk_next;

/// A heap that threads share.
pub type Heap = heap_gate::Heap<State>;

/// What makes its callers, and takes them in again.
pub type Root = heap_gate::Root<State>;

/// One of its callers.
pub type Caller = heap_gate::Caller<State>;
