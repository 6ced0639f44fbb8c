//! What all calls over the table share: the states of the layers with their locks, and how one call is put together.
#![tactic(auto)]

mod entries;
mod state;

pub use entries::{hand_over, prepare_all};
pub use state::{
    State, give_back, give_back_denying, give_large, give_large_denying, give_vs, give_vs_denying,
    take_back, take_large, take_vs,
};
