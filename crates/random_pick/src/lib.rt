//! What makes the low-fragmentation front end hard to predict: one draw for each search, and the block of a bitmap word
//! that a draw picks.
//!
//! A search starts at a drawn bit of a drawn bitmap word, and goes on cyclically, as the published description of the
//! front end has it. The generator is the caller's own, so a caller's draws are determined by its seed and its stream.
#![tactic(auto)]

pub mod laws;
#[cfg(test)]
mod tests;

ghost use Rattle.std.specs.Prelude.{◌≡◌, ◌<◌};
ghost use Rattle.rand_core.specs.Stream.{next_u32};
ghost use Rattle.heap_model.specs.Bits.{pick};

use rand_core::Rng;
use std::marker::Model;

/// One drawn number. A search uses its low six bits as a bit number, and the rest to choose the word.
#[derive(Clone, Copy, Debug, PartialEq, Eq)]
pub struct Draw {
    pub value: u32,
}

/// The draws of one caller. A contract sees the generator, as it stands before the next draw.
#[derive(Debug, Drop)]
pub struct Draws<R> {
    rng: R,
}

impl<R> Model for Draws<R> {
    ghost Value = { R };

    ghost view = { λ draws. draws.rng };

    ghost inverse = { λ rng. record { rng = rng } };
}

impl<R: Rng> Draws<R> {
    /// The draws that begin with the generator's next word.
    pub fn new(rng: R) -> Draws<R>
        ensures { result ≡ rng }
    {
        Draws { rng }
    }

    /// The next word of the generator: one `next_u32`, and no other call of it.
    pub fn draw(&mut self) -> Draw
        ensures { (result.value, R.stream self.new) ≡ next_u32 (R.stream self.old) }
    {
        Draw {
            value: self.rng.next_u32(),
        }
    }
}

/// The first bit at or after `start`, cyclically, that is set in `valid` and clear in `word`; None where no valid bit
/// is clear. Bit 0 is the lowest.
pub fn pick(word: u64, valid: u64, start: u32) -> Option<u8>
    requires { start < 64 }
    ensures { result ≡ pick word valid start }
{
    let free_from_start = (valid & !word).rotate_right(start);
    if free_from_start == 0 {
        None
    } else {
        Some(((start + free_from_start.trailing_zeros()) % 64) as u8)
    }
}
