//! Parts of calls that work in the back end and in the large area: placing a block, finding its size, giving its place back.
//!
//! Each begins with its caller inside its call and ends with the caller inside, with no lock. Entering, the look-up of the part that
//! an address belongs to, and leaving are the business of whole calls.
#![tactic(auto)]

mod backs;
mod huge;
mod looks;
mod paged;

pub use huge::{drop_huge, measure_huge, place_huge};
pub use looks::{drop_back, measure_back};
pub use paged::place_paged;
