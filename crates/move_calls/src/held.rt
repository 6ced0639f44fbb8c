//! The locks that a move has taken, with their states.

use backend_fit::Back;
use large_blocks::Large;
use vs_layer::Vs;

/// The states of the locks that a caller holds. Each variant names them in the order in which they were taken.
#[derive(Drop)]
pub enum Held {
    Vs(Vs),
    Low(Vs, Back),
    LowThenLarge(Vs, Back, Large),
    Large(Large),
    LargeThenVs(Large, Vs),
    LargeThenLow(Large, Vs, Back),
}
