//! What a caller that has taken a block and searched nothing still has, each law the contract of a function that does nothing.
ghost use Rattle.move_in_front.specs.Laws.{TakenHas, LockKeeps, GiftKeeps, MissKeeps, LookKeeps};

/// A call that has taken its block to move it may call [`crate::move_taken_to_front`] once it has the locks.
pub fn taken_has()
    ensures { TakenHas }
{}

/// Where a lock was taken it still may.
pub fn lock_keeps()
    ensures { LockKeeps }
{}

/// .. where one was given back
pub fn gift_keeps()
    ensures { GiftKeeps }
{}

/// .. where another caller had it
pub fn miss_keeps()
    ensures { MissKeeps }
{}

/// .. where a word was read
pub fn look_keeps()
    ensures { LookKeeps }
{}
