//! Steps that read a word and add no entry, and steps that say that no live block has an address, each with the law that it
//! keeps the rule.
#![tactic(auto)]

pub mod laws;
mod plays;
pub mod steps;

pub use plays::{
    AsksActive, Denies, DeniesGiving, DeniesLeaving, LooksBits, LooksHint, LooksSize, LooksTag,
};
