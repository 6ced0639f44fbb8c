//! Allocations of at most 131,072 bytes, which the two layers of small blocks serve.
//!
//! Each begins with its caller inside its call and ends with the caller inside. None waits.
#![tactic(auto)]

mod back_search;
mod by_vs;
mod front;
mod no_room;
mod serving;
mod spent;
mod under_back;
mod under_vs;
mod ways;
mod with_both;

pub use back_search::{UnderBack, serve_under_back};
pub use by_vs::{SmallTry, place_by_vs, try_inactive};
pub use front::{ByHint, hand_over_front, serve_by_hint};
pub use no_room::{BehindNoSpan, go_on, search_with_vs};
pub use serving::{SmallCall, serve_inactive, serve_spent};
pub use spent::{BehindSpent, go_under_back, try_under_back};
pub use under_back::{hand_over_back_first, hand_over_under_back, hand_over_vs_first};
pub use under_vs::{UnderVs, WithVs, try_under_vs};
pub use ways::{FirstTry, is_front, try_front};
pub use with_both::{WithBack, go_on_with_vs, search_with_both, try_with_vs};
