//! Steps on subsegments, under the back end's lock, and on tags, hints and active words, each with the law that it keeps the rule.
#![tactic(auto)]

pub mod laws;
mod plays;
pub mod steps;

pub use plays::{Activates, ClearsTag, InstallsSpan, PutsHint, PutsTag, RetiresSpan};
