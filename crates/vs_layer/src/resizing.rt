// How a block gets another size where it is.
ghost use Rattle.std.specs.Prelude.{◌≡◌, ◌+◌, ◌/◌, Some};
ghost use Rattle.heap_model.specs.State.{Place};
ghost use Rattle.vs_split.specs.Chunks.{chunk_at};
ghost use Rattle.vs_split.specs.Tiles.{IsTiled};
ghost use Rattle.std.specs.Bool.{OnTrue};
ghost use Rattle.heap_model.specs.Geometry.{units_of};
ghost use Rattle.heap_model.specs.Ranges.{taken_of};
ghost use Rattle.vs_layer.specs.Kept.{block_at, lets_stay, reach_of};
ghost use Rattle.vs_layer.specs.Standing.{Becomes, with_length};
ghost use Rattle.vs_layer.specs.Effects.{ResizesOrKeeps};
ghost use Rattle.vs_layer.specs.Steps.{gap_behind, units_of_gap};

use crate::dropping::size_in;
use crate::placing::unused_in;
use crate::{Body, Tiling, units_for};
use heap_model::{GRANULE_BYTES, MOST_VARIABLE};
use vs_headers::Head;

impl Body {
    /// Whether the block at an address can get `n` bytes where it is: in its place and the gap right behind it.
    pub(crate) fn room_in_place(&self, addr: u64, n: u64) -> bool
        requires { (p : Place) × (block_at self.now addr ≡ Some p) }
        ensures { (p : Place) → block_at self.now addr ≡ Some p → result ≡ lets_stay self.now p n }
    {
        let start = addr - GRANULE_BYTES;
        let head = self.tiling.heads.chunk_at(start).unwrap();
        n <= MOST_VARIABLE && units_for(n) <= self.tiling.reach(start, &head)
    }

    /// Gives the block at an address `n` bytes where it is, and answers whether it could. Where at least 2 granules are left,
    /// they are a gap.
    pub(crate) fn resize_in_place(&mut self, addr: u64, n: u64) -> bool
        requires { (p : Place) × (block_at self.old addr ≡ Some p) }
        ensures resizes { ResizesOrKeeps self.old self.new addr n result }
        ensures limits { self.new.limits ≡ self.old.limits }
        ensures stands { OnTrue result ((p : Place) → block_at self.old addr ≡ Some p → Becomes self.old self.new (λ v. with_length v addr (taken_of (units_of n) (reach_of self.old p)) n) (λ xs. xs)) }
    {
        if !self.room_in_place(addr, n) {
            return false;
        }
        let start = addr - GRANULE_BYTES;
        let head = self.tiling.heads.chunk_at(start).unwrap();
        let all = self.tiling.reach(start, &head);
        self.tiling.join_gap_behind(start);
        let taken = self.tiling.cut(start, all, units_for(n));
        self.tiling.heads.set(start, unused_in(taken, n), true);
        self.counts.resized(size_in(&head), n);
        true
    }
}

impl Tiling {
    /// The granules of a chunk and of the gap right behind it.
    fn reach(&self, start: u64, head: &Head) -> u16
        requires tiled { IsTiled self.now.heads }
        requires there { chunk_at self.now.heads start ≡ Some head.now }
        ensures { result ≡ head.now.units + units_of_gap (gap_behind self.now.heads (start / 16) head.now) }
    {
        match self.next_of(start, head) {
            Some(next) if !next.busy => head.units + next.units,
            _ => head.units,
        }
    }
}
