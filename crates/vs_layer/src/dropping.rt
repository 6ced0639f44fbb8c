// How a block is found, and how it is dropped.
ghost use Rattle.std.specs.Prelude.{◌≡◌, ◌+◌, ◌-◌, ◌*◌, ◌/◌, ◌<◌, ◌≤◌, Some, option_and_then};
ghost use Rattle.heap_model.specs.State.{Place, live_size};
ghost use Rattle.vs_headers.specs.declared.Head.{Head};
ghost use Rattle.vs_split.specs.Chunks.{chunk_at, head_at};
ghost use Rattle.vs_split.specs.Tiles.{IsTiled};
ghost use Rattle.vs_layer.specs.Kept.{block_at};
ghost use Rattle.vs_layer.specs.Effects.{TellsLast, HasDropped};
ghost use Rattle.vs_layer.specs.Standing.{Becomes, without_block, without_closed};
ghost use Rattle.vs_layer.specs.Steps.{is_free_before, is_free_after, TakesInBehind, IsTakenBefore};

use crate::{Body, Tiling};
use heap_model::{GRANULE_BYTES, PAGE_GRANULES};
use vs_headers::Head;

impl Body {
    /// The size of the block that begins at an address, None where no block does.
    pub(crate) fn find(&self, addr: u64) -> Option<u64>
        ensures { result ≡ option_and_then (λ p. live_size p.status) (block_at self.now addr) }
    {
        if addr < GRANULE_BYTES {
            return None;
        }
        let head = self.tiling.heads.chunk_at(addr - GRANULE_BYTES)?;
        if head.busy {
            Some(size_in(&head))
        } else {
            None
        }
    }

    /// Whether the block at an address is the last one of its span, so that to drop it closes the span.
    pub(crate) fn empties(&self, addr: u64) -> bool
        requires { (p : Place) × (block_at self.now addr ≡ Some p) }
        ensures { TellsLast self.now addr result }
    {
        let start = addr - GRANULE_BYTES;
        let head = self.tiling.heads.chunk_at(start).unwrap();
        self.tiling.is_free_up_to(start, &head) && self.tiling.is_free_behind(start, &head)
    }

    /// Drops the block at an address. The gaps on both sides become one with its place. Where no block is left in the span,
    /// it is closed, and its first page and its pages are answered: the caller gives it back to the back end.
    pub(crate) fn drop_block(&mut self, addr: u64) -> Option<(u32, u32)>
        requires { (p : Place) × (block_at self.old addr ≡ Some p) }
        ensures dropped { HasDropped self.old self.new addr result }
        ensures limits { self.new.limits ≡ self.old.limits }
        ensures stands { Becomes self.old self.new (λ v. without_block v addr) (without_closed result) }
    {
        let start = addr - GRANULE_BYTES;
        let head = self.tiling.heads.chunk_at(start).unwrap();
        self.counts.dropped(size_in(&head));
        self.tiling.heads.set(start, 0, false);
        self.tiling.join_gap_behind(start);
        let start = self.tiling.join_gap_before(start);
        let at = (start / GRANULE_BYTES) as u32;
        let gap = self.tiling.heads.chunk_at(start).unwrap();
        if gap.prev == 0 && self.tiling.next_of(start, &gap).is_none() {
            let first = at / PAGE_GRANULES;
            let pages = u32::from(self.pages[first as usize]);
            self.tiling.heads.close_span(first);
            self.pages[first as usize] = 0;
            return Some((first, pages));
        }
        self.tiling.index.add(gap.units, at);
        None
    }
}

impl Tiling {
    /// The head of the chunk right behind a chunk, None where its span ends.
    pub(crate) fn next_of(&self, start: u64, head: &Head) -> Option<Head>
        requires tiled { IsTiled self.now.heads }
        requires there { chunk_at self.now.heads start ≡ Some head.now }
        ensures { result ≡ head_at self.now.heads (start / 16 + head.now.units) }
    {
        self.heads
            .chunk_at(start + GRANULE_BYTES * u64::from(head.units))
    }

    /// Whether all of the span in front of a chunk is one gap, or nothing.
    fn is_free_up_to(&self, start: u64, head: &Head) -> bool
        requires tiled { IsTiled self.now.heads }
        requires there { chunk_at self.now.heads start ≡ Some head.now }
        ensures { result ≡ is_free_before self.now.heads (start / 16) head.now }
    {
        if head.prev == 0 {
            return true;
        }
        let before = self
            .heads
            .chunk_at(start - GRANULE_BYTES * u64::from(head.prev))
            .unwrap();
        !before.busy && before.prev == 0
    }

    /// Whether all of the span behind a chunk is one gap, or nothing.
    fn is_free_behind(&self, start: u64, head: &Head) -> bool
        requires tiled { IsTiled self.now.heads }
        requires there { chunk_at self.now.heads start ≡ Some head.now }
        ensures { result ≡ is_free_after self.now.heads (start / 16) head.now }
    {
        match self.next_of(start, head) {
            Some(next) => {
                let behind = start + GRANULE_BYTES * u64::from(head.units);
                !next.busy && self.next_of(behind, &next).is_none()
            }
            None => true,
        }
    }

    /// Makes the gap right behind a chunk part of it, if there is one.
    pub(crate) fn join_gap_behind(&mut self, start: u64)
        requires { (h : Head) × (chunk_at self.old.heads start ≡ Some h) }
        ensures { (h : Head) → chunk_at self.old.heads start ≡ Some h → TakesInBehind self.old.heads self.new.heads self.old.index self.new.index (start / 16) h }
    {
        let head = self.heads.chunk_at(start).unwrap();
        if let Some(next) = self.next_of(start, &head) {
            if !next.busy {
                let at = (start / GRANULE_BYTES) as u32 + u32::from(head.units);
                self.index.remove(next.units, at);
                self.heads.join_next(start);
            }
        }
    }

    /// Makes a free chunk part of the gap right before it, if there is one, and answers where it starts then.
    fn join_gap_before(&mut self, start: u64) -> u64
        requires { (h : Head) × (chunk_at self.old.heads start ≡ Some h) }
        ensures { (h : Head) → chunk_at self.old.heads start ≡ Some h → IsTakenBefore self.old.heads self.new.heads self.old.index self.new.index (start / 16) h result }
    {
        let head = self.heads.chunk_at(start).unwrap();
        if head.prev == 0 {
            return start;
        }
        let front = start - GRANULE_BYTES * u64::from(head.prev);
        let before = self.heads.chunk_at(front).unwrap();
        if before.busy {
            return start;
        }
        self.index
            .remove(before.units, (front / GRANULE_BYTES) as u32);
        self.heads.join_prev(start)
    }
}

/// The size of the block of a place.
pub(crate) fn size_in(head: &Head) -> u64
    requires some { 1 ≤ head.now.units }
    requires within { head.now.unused ≤ 16 * (head.now.units - 1) }
    ensures { result ≡ 16 * (head.now.units - 1) - head.now.unused }
{
    GRANULE_BYTES * (u64::from(head.units) - 1) - u64::from(head.unused)
}
