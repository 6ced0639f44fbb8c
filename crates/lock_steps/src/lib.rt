//! Steps on the locks of layers and on data words, each with the law that it keeps the rule.
#![tactic(auto)]

pub mod laws;
mod plays;
pub mod steps;

pub use plays::{Gives, LoadsData, StoresData, Takes};
