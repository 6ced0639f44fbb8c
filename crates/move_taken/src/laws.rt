//! What a caller that has taken a block still has, each law the contract of a function that does nothing.
ghost use Rattle.move_taken.specs.Laws.{TakenHolds, LockKeeps, GiftKeeps, MissKeeps, LookKeeps, SaidKeeps};

/// A call that has taken its block to move it may call [`crate::move_taken_low`] or [`crate::move_taken_far`] once it has the locks.
pub fn taken_holds()
    ensures { TakenHolds }
{}

/// Where a lock was taken the block is still in hand, and still has to move.
pub fn lock_keeps()
    ensures { LockKeeps }
{}

/// .. where one was given back
pub fn gift_keeps()
    ensures { GiftKeeps }
{}

/// .. where another caller had it
pub fn miss_keeps()
    ensures { MissKeeps }
{}

/// .. where a word was read
pub fn look_keeps()
    ensures { LookKeeps }
{}

/// Where it is prepared that no range fits, the block can be given back.
pub fn said_keeps()
    ensures { SaidKeeps }
{}
