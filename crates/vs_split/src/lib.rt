//! The chunks of the variable-size layer: their headers, and how a chunk is cut and joined with its neighbours.
//!
//! A subsegment of this layer is a span of pages. Behind its first 48 bytes chunks tile it, places and gaps, each of
//! 2 granules of 16 bytes or more. A chunk is named by the address of its header, which has the first granule. The
//! header tells how long the chunk and the chunk before it are, so each neighbour is found in one step, as in the
//! published description of the segment heap.
#![tactic(auto)]

pub mod laws;
mod table;
#[cfg(test)]
mod tests;

ghost use Rattle.std.specs.Prelude.{◌≡◌, ◌+◌, ◌-◌, ◌*◌, ◌/◌, ◌%◌, ◌<◌, Some, None, IfOk, replicate};
ghost use Rattle.heap_model.specs.Limits.{AreValid};
ghost use Rattle.vs_headers.specs.declared.Head.{Head};
ghost use Rattle.vs_split.specs.Chunks.{head_at, chunk_at, word_at, with_head, gap, split_chunk, joined_chunk};
ghost use Rattle.vs_split.specs.Tiles.{AreSpanPages, front_of, IsClear, IsTiled, IsWhole, CanSplit, HasNext, HasPrev};

use heap_model::{FRONT_GRANULES, Limits, OutOfMemory, PAGE_GRANULES, SEGMENT_GRANULES};
use std::alloc::Global;
use std::marker::Model;
use table::HeadTable;
use vs_headers::Head;

/// The headers of all chunks. A contract sees, for each granule of the segments, the head of the chunk that starts
/// there, if one does.
#[derive(Drop)]
pub struct Heads {
    table: HeadTable,
}

impl Model for Heads {
    ghost use Rattle.vs_split.specs.Chunks.{Chunks};
    ghost use Rattle.vs_split.specs.Tiles.{IsTiled};

    ghost Value = { Chunks };

    ghost view = { λ heads. heads.table };

    ghost invariant = { λ heads. IsTiled heads.table };
}

impl Heads {
    /// No chunk, in a heap with these limits and this key.
    pub fn new(alloc: Global, limits: &Limits, key: u64) -> Result<Heads, OutOfMemory>
        requires { AreValid limits.now }
        ensures { IfOk result (λ heads. heads ≡ record { key = key; heads = replicate (65536 * limits.now.segments) None }) }
    {
        let table = HeadTable::new(alloc, SEGMENT_GRANULES * limits.segments, key)?;
        Ok(Heads { table })
    }

    /// Makes the granules of a span behind its first 48 bytes one free chunk.
    pub fn open_span(&mut self, first: u32, pages: u32)
        requires pages { AreSpanPages self.old first pages }
        requires clear { IsClear self.old (256 * first) (256 * (first + pages)) }
        ensures { self.new ≡ with_head self.old (front_of first) (Some (gap (256 * pages - 3) 0)) }
    {
        let units = (PAGE_GRANULES * pages - FRONT_GRANULES) as u16;
        self.table.put(
            PAGE_GRANULES * first + FRONT_GRANULES,
            Head {
                units,
                prev: 0,
                unused: 0,
                busy: false,
            },
        );
    }

    /// Closes a span that one free chunk fills.
    pub fn close_span(&mut self, first: u32)
        requires { (h : Head) × IsWhole self.old first h }
        ensures { self.new ≡ with_head self.old (front_of first) None }
    {
        self.table.clear(PAGE_GRANULES * first + FRONT_GRANULES);
    }

    /// The head of the chunk that starts at an address, None where none does.
    pub fn chunk_at(&self, addr: u64) -> Option<Head>
        ensures head { result ≡ chunk_at self.now addr }
        // The chunks of each span lie one behind the other.
        ensures tiled { IsTiled self.now }
    {
        let table = &self.table;
        if addr % 16 == 0 && addr / 16 <= u64::from(u32::MAX) {
            table.get((addr / 16) as u32)
        } else {
            None
        }
    }

    /// The encoded header word of a granule, 0 where no chunk starts.
    pub fn word(&self, granule: u32) -> u64
        ensures { result ≡ word_at self.now granule }
    {
        self.table.word(granule)
    }

    /// Says of a chunk whether it is a place, and how many bytes of it are unused.
    pub fn set(&mut self, addr: u64, unused: u8, busy: bool)
        requires { (h : Head) × (chunk_at self.old addr ≡ Some h) }
        ensures { (h : Head) → chunk_at self.old addr ≡ Some h → self.new ≡ with_head self.old (addr / 16) (Some (record h { unused = unused; busy = busy })) }
    {
        let (at, head) = self.table.chunk(addr);
        self.table.put(
            at,
            Head {
                unused,
                busy,
                ..head
            },
        );
    }

    /// Cuts a chunk behind its first `units`. The front stays what the chunk was, the rest is free.
    pub fn split(&mut self, addr: u64, units: u16)
        requires { CanSplit self.old addr units }
        ensures { (h : Head) → chunk_at self.old addr ≡ Some h → self.new ≡ split_chunk self.old (addr / 16) h units }
    {
        let (at, head) = self.table.chunk(addr);
        let rest = head.units - units;
        self.table.put(at, Head { units, ..head });
        self.table.put(
            at + u32::from(units),
            Head {
                units: rest,
                prev: units,
                unused: 0,
                busy: false,
            },
        );
        self.table.set_prev(at + u32::from(head.units), rest);
    }

    /// Makes a chunk and the one behind it one chunk, which stays what the front one was.
    pub fn join_next(&mut self, addr: u64)
        requires { HasNext self.old addr }
        ensures { (h n : Head) → chunk_at self.old addr ≡ Some h → head_at self.old (addr / 16 + h.units) ≡ Some n → self.new ≡ joined_chunk self.old (addr / 16) h n.units }
    {
        let (at, head) = self.table.chunk(addr);
        let next = self.table.get(at + u32::from(head.units)).unwrap();
        let units = head.units + next.units;
        self.table.put(at, Head { units, ..head });
        self.table.clear(at + u32::from(head.units));
        self.table.set_prev(at + u32::from(units), units);
    }

    /// Makes a chunk and the one before it one chunk, which stays what the front one was, and answers its address.
    pub fn join_prev(&mut self, addr: u64) -> u64
        requires { HasPrev self.old addr }
        ensures start { (h : Head) → chunk_at self.old addr ≡ Some h → result + 16 * h.prev ≡ addr }
        ensures chunks { (p h : Head) → chunk_at self.old addr ≡ Some h → chunk_at self.old result ≡ Some p → self.new ≡ joined_chunk self.old (result / 16) p h.units }
    {
        let (_, head) = self.table.chunk(addr);
        let start = addr - 16 * u64::from(head.prev);
        self.join_next(start);
        start
    }
}
