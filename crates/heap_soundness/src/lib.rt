// What each legal history keeps, each law the contract of a function that does nothing.
#![tactic(auto)]

ghost use Rattle.heap_soundness.specs.Legal.{StaysSound, AddressesAreSound, BlocksAreSound, OthersLeave};

/// Whatever callers made it, a legal history keeps the heap sound behind each entry, and each entry that may come next
/// leaves what the other callers rely on.
pub fn stays_sound()
    ensures { StaysSound }
{}

/// No two places have one address, so looking a block up does not depend on who looks.
pub fn addresses_are_sound()
    ensures { AddressesAreSound }
{}

/// Live blocks are disjoint and aligned, and have the room that was asked.
pub fn blocks_are_sound()
    ensures { BlocksAreSound }
{}

/// A caller finds what it alone decides as it left it, however many entries others added; and while it is inside the
/// gate, each span of the low-fragmentation heap that it has seen is still there.
pub fn others_leave()
    ensures { OthersLeave }
{}
