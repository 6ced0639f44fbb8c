// What the metadata of a heap tells, whatever callers made it, each law the contract of a function that does nothing.
#![tactic(auto)]

ghost use Rattle.decode_laws.specs.Told.{BlocksAreTold, ShownIsShowable, ShownCanBeRead};

/// Whatever callers made the heap: where an image shows it, and no place of the variable-size layer is in hand, its
/// descriptors, header words, bitmaps, size words and table of large blocks alone decode to exactly the live blocks, by address,
/// each with the size that was asked. Callers may be anywhere else in their calls: a block of the low-fragmentation front end
/// that is in hand is taken, but has no size yet.
pub fn blocks_are_told()
    ensures { BlocksAreTold }
{}

/// An image shows a heap only between the changes of its back end and of its large area: when each span has its place, and each
/// place its live block. A descriptor has no room to tell of a whole span that is not used.
pub fn shown_is_showable()
    ensures { ShownIsShowable }
{}

/// An image that shows a heap in which no place of the variable-size layer is in hand can be read: the chunks of this layer tile
/// its runs, and each header word tells its chunk; each run of the low-fragmentation front end is a subsegment of its bucket in
/// the segments of the heap, and no size word tells more bytes than its block has.
pub fn shown_can_be_read()
    ensures { ShownCanBeRead }
{}
