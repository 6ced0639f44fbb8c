//! The one rule over the words, the slots and the seats of the heap's table: there is one legal history of all callers,
//! the words and the slots at home show the state behind it, and each seat has seen a beginning of it.
//!
//! Nothing here runs. A crate above makes a table with `HeapRule`, and each of its steps is one of the kinds of `laws`.
#![tactic(auto)]

pub mod laws;
mod places;
mod plays;
mod views;

pub use places::{ACTIVE, GATE, HINTS, LOCKS, MADE, TAGS};
pub use plays::{Agrees, Carried, Enters, Hears, Leaves, Locks, Looks, Numbers, Unlocks};
pub use views::{
    Assigned, Assignment, Deals, HeapRule, Lead, Owed, Relays, Role, TakesIn, Tells, View,
};
