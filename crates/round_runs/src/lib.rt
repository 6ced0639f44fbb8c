//! The rounds of a script on one heap: the threads of a round run at the same time, each with a caller of its own, and behind it all
//! callers meet.
//!
//! Thread `t` always has the caller number `t`, with the slot `t % slots` and the stream `t`. Behind a round each thread learns what the
//! others assigned, and what each was answered is put down. At the end all callers join, and the heap is closed.
#![tactic(auto)]

mod crew;
mod ends;
mod rounds;
#[cfg(test)]
mod tests;
mod turns;

pub use rounds::{Rounds, run_rounds};
