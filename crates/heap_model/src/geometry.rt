//! The sizes of pages, granules and segments, and the largest size of each route.

/// The pages of a segment.
pub const SEGMENT_PAGES: u32 = 256;

/// The pages at the front of a segment that are its header, and are never given.
pub const HEADER_PAGES: u32 = 2;

/// The bytes of a page.
pub const PAGE_BYTES: u64 = 4096;

/// The bytes of a granule.
pub const GRANULE_BYTES: u64 = 16;

/// The granules of a page.
pub const PAGE_GRANULES: u32 = 256;

/// The granules of a segment.
pub const SEGMENT_GRANULES: u32 = 65_536;

/// The granules at the front of a span of the variable-size layer that hold no chunk: 48 bytes.
pub const FRONT_GRANULES: u32 = 3;

/// The bits of a word.
pub const WORD_BITS: u32 = 64;

/// The most bytes of a small block, which has a bucket.
pub const MOST_SMALL: u64 = 16_368;

/// The most bytes of a block of the variable-size layer.
pub const MOST_VARIABLE: u64 = 131_072;

/// The most bytes of a block of the back end.
pub const MOST_PAGED: u64 = 520_192;
