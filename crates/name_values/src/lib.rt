//! What the names of a script stand for while its threads run.
//!
//! A thread has a table of its own: the values of all names by their numbers. A command's reply may assign a name. Behind a round each
//! table learns what the threads of the round assigned: of a name that several threads assigned, the highest thread's last assignment
//! stays.
#![tactic(auto)]

mod calls;
mod table;
#[cfg(test)]
mod tests;

pub use table::Names;

/// An assignment of a name, by its number.
#[derive(Clone, Copy, Debug, PartialEq, Eq)]
pub struct Assigned {
    pub name: u32,
    pub value: u64,
}
