// The words of the heap: its limits, its blocks, its calls, the entries of its history, and what a call is answered.
// The definitions over them stand in specs/, and what a caller can rely on, with its theorems, in proofs/.
#![tactic(auto)]

ghost use Rattle.std.specs.Prelude.{◌↔◌, ◌≡◌, IsTrue};
ghost use Rattle.heap_model.specs.Limits.{AreValid};
ghost use Rattle.heap_model.specs.Marks.{lfh_mark, back_mark};

mod geometry;
mod stands;
#[cfg(test)]
mod tests;
mod words;

pub use geometry::{
    FRONT_GRANULES, GRANULE_BYTES, HEADER_PAGES, MOST_PAGED, MOST_SMALL, MOST_VARIABLE, PAGE_BYTES,
    PAGE_GRANULES, SEGMENT_GRANULES, SEGMENT_PAGES, WORD_BITS,
};
pub use stands::Stands;
use std::alloc::AllocError;
pub use words::{Words, filled};

/// The layer that keeps a block: the low-fragmentation front end, the variable-size layer, the back end of page spans,
/// or the area of large blocks, as the published description of the segment heap names them.
#[derive(Clone, Copy, Debug, PartialEq, Eq)]
pub enum Layer {
    Lfh,
    Vs,
    Back,
    Large,
}

/// What the pages of a run are used for. A page that is no part of a span or a free run is a header page.
#[derive(Clone, Copy, Debug, PartialEq, Eq)]
pub enum Kind {
    Header,
    Free,
    Vs,
    Lfh,
    Back,
}

/// What a caller takes, or found in the hands of another: the gate of the heap, or the lock of a layer.
#[derive(Clone, Copy, Debug, PartialEq, Eq)]
pub enum What {
    Gate,
    Lfh,
    Vs,
    Back,
    Large,
}

/// How large the heap may grow. A segment has 256 pages of 4,096 bytes.
#[derive(Clone, Copy, Debug, PartialEq, Eq)]
pub struct Limits {
    /// Segments of the back end, 1 to 16.
    pub segments: u32,
    /// Pages of the area of large blocks, at most 4,096.
    pub large_pages: u32,
    /// Affinity slots of the low-fragmentation front end, 1 to 16.
    pub slots: u32,
    /// Callers that may ever be made, 1 to 64.
    pub callers: u32,
}

impl Limits {
    /// Whether a heap can be opened with these limits.
    pub fn valid(&self) -> bool
        ensures { IsTrue result ↔ AreValid self.now }
    {
        1 <= self.segments
            && self.segments <= 16
            && self.large_pages <= 4096
            && 1 <= self.slots
            && self.slots <= 16
            && 1 <= self.callers
            && self.callers <= 64
    }
}

/// What a heap is opened with: its limits, and the seed of its draws and of the key of its header words.
#[derive(Clone, Copy, Debug, PartialEq, Eq)]
pub struct Opening {
    pub limits: Limits,
    pub seed: u64,
}

/// How an allocation or a reallocation is asked for, as by `HEAP_ZERO_MEMORY` and `HEAP_REALLOC_IN_PLACE_ONLY`.
#[derive(Clone, Copy, Debug, PartialEq, Eq)]
pub struct Flags {
    pub zero: bool,
    pub in_place: bool,
}

/// A live block. The address is that of its first byte, as callers get it, and the size is the one that was asked.
#[derive(Clone, Copy, Debug, PartialEq, Eq)]
pub struct Block {
    pub addr: u64,
    pub size: u64,
    pub layer: Layer,
}

/// What the pages of a run are marked as. The bucket and the slot are those of a subsegment of the low-fragmentation
/// front end, the unused bytes those at the end of a back-end block, and each is 0 for other kinds.
#[derive(Clone, Copy, Debug, PartialEq, Eq)]
pub struct Mark {
    pub kind: Kind,
    pub bucket: u8,
    pub slot: u8,
    pub unused: u16,
}

impl Mark {
    /// A header page, or one of a segment that is not reserved.
    pub const HEADER: Mark = Mark {
        kind: Kind::Header,
        bucket: 0,
        slot: 0,
        unused: 0,
    };

    /// A free run.
    pub const FREE: Mark = Mark {
        kind: Kind::Free,
        bucket: 0,
        slot: 0,
        unused: 0,
    };

    /// A span of the variable-size layer.
    pub const VS: Mark = Mark {
        kind: Kind::Vs,
        bucket: 0,
        slot: 0,
        unused: 0,
    };

    /// A subsegment of the low-fragmentation front end.
    pub fn lfh(bucket: u8, slot: u8) -> Mark
        ensures { result ≡ lfh_mark bucket slot }
    {
        Mark {
            kind: Kind::Lfh,
            bucket,
            slot,
            unused: 0,
        }
    }

    /// A block of the back end that leaves so many bytes of its pages unused.
    pub fn back(unused: u16) -> Mark
        ensures { result ≡ back_mark unused }
    {
        Mark {
            kind: Kind::Back,
            bucket: 0,
            slot: 0,
            unused,
        }
    }
}

/// A span or a free run: its first page, counted through all segments, and how many pages it has.
#[derive(Clone, Copy, Debug, PartialEq, Eq)]
pub struct Run {
    pub first: u32,
    pub pages: u32,
    pub mark: Mark,
}

/// There was no memory for the heap's own tables or for a text.
#[derive(Clone, Copy, Debug, PartialEq, Eq)]
pub struct OutOfMemory;

impl From<AllocError> for OutOfMemory {
    fn from(_error: AllocError) -> OutOfMemory {
        OutOfMemory
    }
}

/// What another caller holds, and the word that told so: its number plus 1, or for the gate the whole gate word.
#[derive(Clone, Copy, Debug, PartialEq, Eq)]
pub struct Busy {
    pub what: What,
    pub word: u64,
}

/// Why an allocation is refused.
#[derive(Clone, Copy, Debug, PartialEq, Eq)]
pub enum AllocNo {
    NoFit,
    Busy(Busy),
}

/// Why a free, or a question for a size, is refused.
#[derive(Clone, Copy, Debug, PartialEq, Eq)]
pub enum FreeNo {
    NotLive,
    Busy(Busy),
}

/// Why a reallocation is refused. The block is then as it was.
#[derive(Clone, Copy, Debug, PartialEq, Eq)]
pub enum ReNo {
    NotLive,
    NoFit,
    NoRoomInPlace,
    Busy(Busy),
}

/// Why a word of a block is not read or written. `Past` tells how many words of 8 bytes the block has.
#[derive(Clone, Copy, Debug, PartialEq, Eq)]
pub enum WordNo {
    NotLive,
    Past { words: u64 },
    Busy(Busy),
}

/// Why the heap lock is not taken. `Depth`: its owner has taken it 65,535 times.
#[derive(Clone, Copy, Debug, PartialEq, Eq)]
pub enum LockNo {
    Depth,
    Busy(Busy),
}

/// The caller does not own the heap lock, so it has nothing to give back.
#[derive(Clone, Copy, Debug, PartialEq, Eq)]
pub struct NotOwner;

/// The caller does not own the heap lock, under which alone the blocks can be walked.
#[derive(Clone, Copy, Debug, PartialEq, Eq)]
pub struct NotLocked;

/// A call of the Heap API with its arguments. `Stay` is a caller that passes the gate and asks for nothing.
#[derive(Clone, Copy, Debug, PartialEq, Eq)]
pub enum Call {
    Alloc { n: u64, flags: Flags },
    Free { addr: u64 },
    Realloc { addr: u64, n: u64, flags: Flags },
    Size { addr: u64 },
    Get { addr: u64, index: u64 },
    Put { addr: u64, index: u64, value: u64 },
    Lock,
    Unlock,
    WalkNext { from: u64 },
    Compact,
    Stay,
}

/// What one step of a caller did. Blocks are named by the addresses that callers get; `start` is the first byte of a
/// place, which is the address or, in the variable-size layer, 16 less. A granule has 16 bytes.
#[derive(Clone, Copy, Debug, PartialEq, Eq)]
pub enum Act {
    Begin {
        call: Call,
    },
    Enter,
    Leave,
    Lock,
    Unlock,
    Blocked {
        what: What,
        word: u64,
    },
    TakeLock {
        what: What,
    },
    GiveLock {
        what: What,
    },
    Reserve {
        segment: u32,
    },
    Span {
        first: u32,
        pages: u32,
        kind: Kind,
        bucket: u8,
        slot: u8,
    },
    Unspan {
        first: u32,
    },
    Place {
        start: u64,
        granules: u64,
        layer: Layer,
    },
    Saw {
        head: u32,
        word: u32,
        bits: u64,
    },
    Lost {
        head: u32,
        index: u16,
    },
    NoHint {
        bucket: u8,
        slot: u8,
    },
    Give {
        addr: u64,
        size: u64,
    },
    Take {
        addr: u64,
        size: u64,
    },
    Drop {
        addr: u64,
    },
    Resize {
        addr: u64,
        granules: u64,
        size: u64,
    },
    Active {
        bucket: u8,
    },
    NoSpan {
        bucket: u8,
    },
    NoFit {
        size: u64,
    },
    NotLive {
        addr: u64,
    },
    Sized {
        addr: u64,
        size: u64,
    },
    Load {
        word: u64,
        value: u64,
    },
    Store {
        word: u64,
        value: u64,
    },
    Decommit {
        page: u32,
    },
}

/// One entry of the history: a step, and the number of the caller whose step it was.
#[derive(Clone, Copy, Debug, PartialEq, Eq)]
pub struct Entry {
    pub caller: u32,
    pub act: Act,
}

/// What a call is answered. `Number` is a size or a word; `Walked` ends a walk with the number of its blocks;
/// `Compacted` is a number of pages.
#[derive(Clone, Copy, Debug, PartialEq, Eq)]
pub enum Reply {
    Address(u64),
    Done,
    Number(u64),
    NoFit,
    NotLive,
    NoRoom,
    Past(u64),
    Depth,
    NotOwner,
    NotLocked,
    Seen(Block),
    Walked(u64),
    Compacted(u64),
}
