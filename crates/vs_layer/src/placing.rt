// How a block is placed, and how a span is added.
ghost use Rattle.std.specs.Prelude.{◌≡◌, ◌⊎◌, ◌+◌, ◌-◌, ◌*◌, ◌/◌, ◌<◌, ◌≤◌, is_some, true, false, Some};
ghost use Rattle.std.specs.FinSet as set;
ghost use Rattle.heap_model.specs.Geometry.{units_of};
ghost use Rattle.std.specs.List.{AllByRecursion};
ghost use Rattle.heap_model.specs.State.{insert_span};
ghost use Rattle.heap_model.specs.Ranges.{taken_of};
ghost use Rattle.vs_headers.specs.declared.Head.{Head};
ghost use Rattle.vs_split.specs.Chunks.{chunk_at, split_chunk};
ghost use Rattle.vs_split.specs.Tiles.{AreSpanPages, IsTiled};
ghost use Rattle.vs_layer.specs.Kept.{vs_span, places_of, place_for};
ghost use Rattle.heap_model.specs.Runs.{Run};
ghost use Rattle.vs_layer.specs.Effects.{IsOfOneHeap, LieApart, HasPlaced};
ghost use Rattle.vs_layer.specs.Standing.{Becomes, with_block};

use crate::{Body, Tiling, units_for};
use heap_model::{FRONT_GRANULES, GRANULE_BYTES, PAGE_GRANULES};

impl Body {
    /// Whether a gap holds a block of `n` bytes.
    pub(crate) fn fit(&self, n: u64) -> bool
        requires { n ≤ 131072 }
        ensures { result ≡ is_some (place_for self.now n) }
    {
        self.tiling.index.best(units_for(n)).is_some()
    }

    /// Makes a span of pages that the back end gave one gap, behind its first 48 bytes.
    pub(crate) fn add_span(&mut self, first: u32, pages: u32)
        requires pages { AreSpanPages self.old.chunks first pages }
        requires apart { AllByRecursion (LieApart first pages) self.old.spans }
        ensures spans { self.new.spans ≡ insert_span (vs_span first pages) self.old.spans }
        ensures places { places_of self.new ≡ places_of self.old }
        ensures served { self.new.served ≡ self.old.served }
        ensures active { self.new.active ≡ self.old.active }
        ensures heap { IsOfOneHeap self.old self.new }
        ensures limits { self.new.limits ≡ self.old.limits }
        ensures stands { Becomes self.old self.new (λ v. v) (insert_span (vs_span first pages)) }
    {
        self.tiling.heads.open_span(first, pages);
        self.tiling.index.add(
            (PAGE_GRANULES * pages - FRONT_GRANULES) as u16,
            PAGE_GRANULES * first + FRONT_GRANULES,
        );
        self.pages[first as usize] = pages as u8;
    }

    /// Places a block of `n` bytes at the front of the smallest gap that holds it, and answers its address.
    pub(crate) fn place(&mut self, n: u64) -> u64
        requires size { n ≤ 131072 }
        requires fits { is_some (place_for self.old n) ≡ true }
        ensures placed { HasPlaced self.old self.new n result }
        ensures limits { self.new.limits ≡ self.old.limits }
        ensures stands { (run : Run) → place_for self.old n ≡ Some run → Becomes self.old self.new (λ v. with_block v run n) (λ xs. xs) }
    {
        let units = units_for(n);
        let (all, at) = self.tiling.index.best(units).unwrap();
        let start = GRANULE_BYTES * u64::from(at);
        self.tiling.index.remove(all, at);
        let taken = self.tiling.cut(start, all, units);
        self.tiling.heads.set(start, unused_in(taken, n), true);
        self.counts.placed(n);
        start + GRANULE_BYTES
    }
}

impl Tiling {
    /// Cuts a chunk of `all` granules behind its first `units`, where at least 2 would remain, and answers how many it has
    /// then. What was cut off is a gap.
    pub(crate) fn cut(&mut self, start: u64, all: u16, units: u16) -> u16
        requires tiled { IsTiled self.old.heads }
        requires there { (h : Head) × (chunk_at self.old.heads start ≡ Some h) × (h.units ≡ all) }
        requires units { (2 ≤ units) × (units ≤ all) }
        requires room { set.len self.old.index.gaps < self.old.index.capacity }
        requires absent { units + 2 ≤ all → set.contains self.old.index.gaps (all - units, start / 16 + units) ≡ false }
        ensures taken { result ≡ taken_of units all }
        ensures whole { all < units + 2 → self.new ≡ self.old }
        ensures chunks { units + 2 ≤ all → (h : Head) → chunk_at self.old.heads start ≡ Some h → self.new.heads ≡ split_chunk self.old.heads (start / 16) h units }
        ensures index { units + 2 ≤ all → self.new.index ≡ record self.old.index { gaps = set.insert self.old.index.gaps (all - units, start / 16 + units) } }
    {
        let rest = all - units;
        if rest < 2 {
            return all;
        }
        self.heads.split(start, units);
        self.index
            .add(rest, (start / GRANULE_BYTES) as u32 + u32::from(units));
        units
    }
}

/// The bytes of a place of so many granules that a block of `n` bytes does not use.
pub(crate) fn unused_in(units: u16, n: u64) -> u8
    requires size { n ≤ 131072 }
    // it needs them all, or all but one
    requires units { (units ≡ units_of n) ⊎ (units ≡ units_of n + 1) }
    ensures { n + result ≡ 16 * (units - 1) }
{
    (GRANULE_BYTES * (u64::from(units) - 1) - n) as u8
}
