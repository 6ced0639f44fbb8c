// What the table shows while the heap lock has an owner, each law the contract of a function that does nothing.
ghost use Rattle.walk_calls.specs.Laws.{OwnedHeapIsShown};

/// While the heap lock is owned, and its owner holds no lock of a layer, the words of the table and the states in its slots are an image
/// that shows the heap, and this decodes to exactly the live blocks. So it is where the owner is in no call.
pub fn owned_heap_is_shown()
    ensures { OwnedHeapIsShown }
{}
