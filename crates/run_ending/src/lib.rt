//! How a run of the program ends, in each mode: the script that a source has, what is due to be written, and the status.
#![tactic(auto)]

mod ending;
mod given;

pub use ending::{Due, Ran, deliver};
pub use given::{Given, read_given};
