//! A walk by the owner of the heap lock: the live block of the least address at or after another.
//!
//! The owner works from outside the gate, as a compaction does: all others are turned back, so what the words of the table and the states
//! of the layers show stays. It takes the locks of the layers, finds the block by descriptors, headers, bitmaps, size words and the table of
//! large blocks, and gives the locks back. It goes on from the run of the address, so a walk over all blocks looks at each run, chunk and
//! bit a few times at most.
#![tactic(auto)]

mod call;
pub mod laws;
mod places;
mod runs;
mod shown;
mod subsegments;

pub use call::walk_next;
pub use shown::hear_words;
