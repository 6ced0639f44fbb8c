//! Laws of the draws, each the contract of a function that does nothing.

ghost use Rattle.random_pick.specs.CallerDraws.{FirstDraw, NextDraw};

/// A new generator of the seed and of a caller's stream stands before the caller's draw 0.
pub fn first_draw()
    ensures { FirstDraw }
{}

/// Where the generator stands before the caller's draw `k`, its next word is that draw, and it stands before draw
/// `k + 1` then.
pub fn next_draw()
    ensures { NextDraw }
{}
