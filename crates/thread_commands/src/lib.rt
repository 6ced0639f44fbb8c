//! One thread of a script in a round: its commands, each by the calls of its caller.
#![tactic(auto)]

mod running;
mod serving;
mod workers;

pub use running::run_thread;
pub use workers::Worker;
