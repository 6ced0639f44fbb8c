//! The variable-size layer: blocks of up to 131,072 bytes, each placed in the smallest gap that holds it.
//!
//! A subsegment of this layer is a span of 16 to 33 pages that the back end gave. Behind its first 48 bytes chunks tile it,
//! places and gaps; no two gaps are neighbours. A request of n bytes needs one granule of 16 bytes for its header and those
//! of its bytes. It takes the front of the smallest gap that has them, the lowest among equals, and all of the gap where
//! fewer than 2 granules would remain. A block begins 16 bytes behind the start of its place. This is the variable-size
//! allocation of the published description of the segment heap; the limits and the order of ties are this project's own.
//!
//! No call after `new` takes memory. Each looks at the block that it names, the chunks right beside it and the index of the
//! gaps, and walks no span.
#![tactic(auto)]

mod boxed;
mod counting;
mod dropping;
mod index;
pub mod laws;
mod placing;
mod resizing;
#[cfg(test)]
mod tests;

ghost use Rattle.std.specs.Prelude.{◌≡◌, ◌*◌, ◌≤◌, IfOk, true, length};
ghost use Rattle.heap_model.specs.Geometry.{span_pages_of, units_of};
ghost use Rattle.heap_model.specs.Limits.{AreValid};
ghost use Rattle.heap_model.specs.Stay.{is_due};
ghost use Rattle.heap_model.specs.State.{updated, opening};
ghost use Rattle.heap_soundness.specs.Sound.{AreInOrder, AreAt, IsInVs};
ghost use Rattle.vs_layer.specs.Kept.{active_of, part_of, places_of};
ghost use Rattle.heap_model.specs.declared.Opening.{Opening};
ghost use Rattle.heap_model.specs.Layers.{StandsForVs, header_key};
ghost use Rattle.vs_layer.specs.Effects.{nothing_kept, ShowsChunks};
ghost use Rattle.vs_layer.specs.Standing.{layer_of, Becomes, with_active};

pub use boxed::Vs;
use counting::Counts;
use heap_model::{
    FRONT_GRANULES, GRANULE_BYTES, Limits, OutOfMemory, PAGE_BYTES, SEGMENT_PAGES, Stands, filled,
};
use index::GapSet;
use std::alloc::Global;
use std::marker::Model;
use vs_split::Heads;

/// The most gaps that a segment can have: between two of them lies a place, and each has 2 granules or more.
const SEGMENT_GAPS: u32 = 16384;

/// The buckets of the low-fragmentation front end, and bucket 0, which is none.
const BUCKETS: usize = 129;

/// The fewest pages of a span.
const LEAST_PAGES: u32 = 16;

/// A bucket is due with so many live blocks here, or after so many placements.
const DUE_LIVE: u32 = 17;

const DUE_SERVED: u16 = 2040;

/// What the layer keeps.
#[derive(Drop)]
pub(crate) struct Body {
    limits: Limits,
    tiling: Tiling,
    /// How many pages the span has that starts at a page, 0 where none does.
    pages: Vec<u8>,
    counts: Counts,
    active: Vec<bool>,
}

/// The chunks, and the index of those that are gaps. In the middle of a call the two need not agree.
#[derive(Drop)]
pub(crate) struct Tiling {
    heads: Heads,
    index: GapSet,
}

impl Model for Body {
    ghost use Rattle.std.specs.Prelude.{◌≡◌, ◌*◌, length};
    ghost use Rattle.std.specs.Vec.{vec_capacity};
    ghost use Rattle.vs_layer.specs.Kept.{VsKept};
    ghost use Rattle.vs_layer.specs.Sound.{spans_from, IsSound};

    ghost Value = { VsKept };

    ghost view = { λ v. record { limits = v.limits; spans = spans_from 0 v.pages.items; chunks = v.tiling.heads; served = v.counts.served.items; active = v.active.items } };

    ghost invariant = { λ v. IsSound (record { limits = v.limits; spans = spans_from 0 v.pages.items; chunks = v.tiling.heads; served = v.counts.served.items; active = v.active.items }) v.pages.items v.tiling.index v.counts.live.items × (vec_capacity v.pages ≡ length v.pages.items) × (vec_capacity v.active ≡ length v.active.items) × (vec_capacity v.counts.live ≡ length v.counts.live.items) × (vec_capacity v.counts.served ≡ length v.counts.served.items) × (length v.pages.items ≡ 256 * v.limits.segments) };
}

impl Body {
    /// No span, in a heap with these limits and this key. It takes all the memory that it will ever use.
    pub(crate) fn new(alloc: Global, limits: &Limits, key: u64) -> Result<Body, OutOfMemory>
        requires { AreValid limits.now }
        ensures nothing { IfOk result (λ v. v ≡ nothing_kept limits.now key) }
        ensures stands { IfOk result (λ v. (o : Opening) → o.limits ≡ limits.now → header_key o.seed ≡ key → StandsForVs o opening (layer_of v)) }
    {
        let pages = (SEGMENT_PAGES * limits.segments) as usize;
        Ok(Body {
            limits: *limits,
            tiling: Tiling {
                heads: Heads::new(alloc, limits, key)?,
                index: GapSet::new(alloc, SEGMENT_GAPS * limits.segments)?,
            },
            pages: filled(alloc, 0u8, pages)?,
            counts: Counts::new(alloc)?,
            active: filled(alloc, false, BUCKETS)?,
        })
    }

    /// Whether a bucket is to become active: at least 17 of its blocks live here, or at least 2,040 were placed here.
    pub(crate) fn due(&self, bucket: u8) -> bool
        requires { (1 ≤ bucket) × (bucket ≤ 128) }
        ensures { result ≡ is_due (part_of self.now) bucket }
    {
        let b = usize::from(bucket);
        self.counts.live[b] >= DUE_LIVE || self.counts.served[b] >= DUE_SERVED
    }

    /// Whether a bucket is active, so that the low-fragmentation front end serves it.
    pub(crate) fn is_active(&self, bucket: u8) -> bool
        requires { (1 ≤ bucket) × (bucket ≤ 128) }
        ensures { result ≡ active_of self.now bucket }
    {
        self.active[usize::from(bucket)]
    }

    /// Makes a bucket active. It stays so.
    pub(crate) fn set_active(&mut self, bucket: u8)
        requires { (1 ≤ bucket) × (bucket ≤ 128) }
        ensures active { active_of self.new ≡ updated (active_of self.old) bucket true }
        ensures chunks { self.new.chunks ≡ self.old.chunks }
        ensures spans { self.new.spans ≡ self.old.spans }
        ensures served { self.new.served ≡ self.old.served }
        ensures limits { self.new.limits ≡ self.old.limits }
        ensures stands { Becomes self.old self.new (λ v. with_active v bucket) (λ xs. xs) }
    {
        self.active[usize::from(bucket)] = true;
    }

    /// The headers of all chunks.
    pub(crate) fn heads(&self) -> &Heads
        ensures chunks { result.now ≡ self.now.chunks }
        // they are the places and the gaps, and tile the spans
        ensures shown { ShowsChunks self.now }
        ensures in_order { AreInOrder 0 self.now.spans }
        ensures inside { AreAt (IsInVs self.now.spans) (places_of self.now) }
        // one for each granule of the segments
        ensures granules { length self.now.chunks.heads ≡ 65536 * self.now.limits.segments }
    {
        &self.tiling.heads
    }

    /// The headers of all chunks, unchanged.
    pub(crate) fn into_heads(self) -> Heads
        ensures chunks { result ≡ self.chunks }
        ensures shown { ShowsChunks self }
    {
        let Body { tiling, .. } = self;
        let Tiling { heads, .. } = tiling;
        heads
    }
}

/// The granules of a place of `n` bytes, its header included.
fn units_for(n: u64) -> u16
    requires { n ≤ 131072 }
    ensures { result ≡ units_of n }
{
    1 + n.max(1).div_ceil(GRANULE_BYTES) as u16
}
