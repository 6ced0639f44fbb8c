//! What a thread of a script asks of the heap, by a caller of its own and the calls that wait.
#![tactic(auto)]

mod lock_calls;
mod serving;
#[cfg(test)]
mod tests;
mod walking;

pub use serving::serve;
pub use walking::walk;
