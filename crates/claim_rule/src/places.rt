// Where the words of the table lie. The tags, the bitmaps, the sizes and the data lie behind, and where depends on the limits.

/// How many callers were made.
pub const MADE: usize = 0;

/// The gate: in bits 0 to 15 how many callers have entered, or are turning back, and have not left; in bits 16 to 31 the
/// owner of the heap lock plus 1, or 0.
pub const GATE: usize = 1;

/// Four words, of the locks of the low-fragmentation front end, the variable-size layer, the back end and the large
/// blocks: the holder plus 1, or 0.
pub const LOCKS: usize = 2;

/// Whether each of the 128 buckets is active.
pub const ACTIVE: usize = 6;

/// For each bucket and each of its 16 slots the first page of a subsegment, or 0.
pub const HINTS: usize = 134;

/// For each page the subsegment that it is of, or 0.
pub const TAGS: usize = 2182;
