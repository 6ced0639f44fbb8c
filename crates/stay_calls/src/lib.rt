//! The first half of a reallocation: a block gets another size where it is, or it is found that it has to move.
//!
//! Each part begins with its caller inside its call. Where the block stays, or is refused, the caller ends inside, with no lock;
//! where it has to move the caller keeps what guards it.
#![tactic(auto)]

mod back;
mod denials;
mod front;
mod hearing;
mod large;
mod stay;
mod tried;
mod vs;
mod words;

pub use hearing::hear;
pub use stay::try_stay;
pub use tried::Tried;
