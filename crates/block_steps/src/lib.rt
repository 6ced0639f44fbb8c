//! Steps on the blocks of the low-fragmentation front end and in its searches, each with the law that it keeps the rule.
#![tactic(auto)]

pub mod laws;
mod plays;
pub mod steps;

pub use plays::{AsksSize, ClaimsBlock, Clears, Hints, Publishes, Sees, TakesBlock};
