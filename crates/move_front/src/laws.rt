//! What a call that moves a block has to place, and what it keeps, each law the contract of a function that does nothing.
ghost use Rattle.move_front.specs.Laws.{MoverPlaces, KeepsBehindBlock, KeepsWithoutBlock, QuietKeeps, StillMoves};

/// A call that moves a block, live under its lock or in hand, may call [`crate::hold_front`].
pub fn mover_places()
    ensures { MoverPlaces }
{}

/// Behind a block that is held the old one is still where it was.
pub fn keeps_behind_block()
    ensures { KeepsBehindBlock }
{}

/// .. and where the front end has none.
pub fn keeps_without_block()
    ensures { KeepsWithoutBlock }
{}

/// Between the acts of a search the caller keeps what it holds, whatever others do.
pub fn quiet_keeps()
    ensures { QuietKeeps }
{}

/// .. so that a block that has to move is still there, and still has to.
pub fn still_moves()
    ensures { StillMoves }
{}
