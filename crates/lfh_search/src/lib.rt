//! The search of the low-fragmentation front end over the table that callers share.
//!
//! A search goes by one draw. It reads the words of the subsegment that the hint names, without a lock, and claims the block that
//! the draw picks; claims may be lost to other callers, at most eight in a call. What it does not find there it looks for under the
//! back end's lock, in all subsegments of the bucket and of the caller's slot.
#![tactic(auto)]

mod both;
mod course;
mod hint;
pub mod laws;
mod pass;
mod reading;
mod under;

pub use both::search_under_both;
pub use course::Course;
pub use hint::{First, Found, search_hint, search_hint_under_back};
pub use pass::{Pass, read_all};
pub use under::{Under, search_again, search_under_back};
