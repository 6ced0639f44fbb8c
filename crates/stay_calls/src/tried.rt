//! What becomes of a block that is to have another size where it is.

use address_calls::Found;

/// The block has its new size at its address, or can have it only elsewhere.
#[derive(Drop)]
pub enum Tried {
    /// It stays, and the call is done but for leaving.
    Stays,
    /// It has to move. Until then its old size stands, and nobody else changes it: its layer's lock is held, with the state in
    /// `found`; or it is one of the front end, in hand.
    Moves { found: Found, size: u64 },
}
