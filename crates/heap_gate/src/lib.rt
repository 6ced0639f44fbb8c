//! The gate of the heap: callers, the gate word that counts them, the heap lock and the locks of the layers, over the one
//! table that all threads share.
//!
//! Each call is one step, or a few, on one word. What a contract says of the history is said in each setting of the
//! callers made so far, since more may be made meanwhile.
#![tactic(auto)]

mod caller;
mod closed;
mod entries;
mod heap;
mod heap_lock;
mod locks;
mod noted;
mod root;
mod seats;
mod steps;

pub use caller::{Caller, enter_now, leave, leave_denying};
pub use closed::Closed;
pub use entries::{begin, prepare, rest, settle};
pub use heap::Heap;
pub use heap_lock::{lock_gate, unlock_gate};
pub use locks::{give_lock, give_lock_denying, take_lock};
pub use noted::{Noted, Told};
pub use root::{Root, close_table, join, make_caller, meet, open};
pub use steps::{Prepared, Slip};

#[cfg(test)]
mod lock_tests;
#[cfg(test)]
mod tests;
