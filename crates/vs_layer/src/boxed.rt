// The layer as its callers have it: in a box, so that to move it is to move one word.
ghost use Rattle.std.specs.Prelude.{◌≡◌, ◌*◌, ◌≤◌, IfOk, true, length, ◌+◌, ◌-◌, ◌/◌, ◌<◌, is_some, Some, option_and_then};
ghost use Rattle.heap_model.specs.Geometry.{span_pages_of, units_of};
ghost use Rattle.heap_model.specs.Limits.{AreValid};
ghost use Rattle.heap_model.specs.Stay.{is_due};
ghost use Rattle.heap_model.specs.State.{updated, opening, insert_span, Place, live_size};
ghost use Rattle.heap_soundness.specs.Sound.{AreInOrder, AreAt, IsInVs};
ghost use Rattle.vs_layer.specs.Kept.{active_of, part_of, places_of, vs_span, place_for, block_at, lets_stay, reach_of};
ghost use Rattle.heap_model.specs.declared.Opening.{Opening};
ghost use Rattle.heap_model.specs.Layers.{StandsForVs, header_key};
ghost use Rattle.vs_layer.specs.Effects.{nothing_kept, ShowsChunks, IsOfOneHeap, LieApart, HasPlaced, TellsLast, HasDropped, ResizesOrKeeps};
ghost use Rattle.vs_layer.specs.Standing.{layer_of, Becomes, with_active, with_block, without_block, without_closed, with_length};
ghost use Rattle.std.specs.FinSet as set;
ghost use Rattle.std.specs.List.{AllByRecursion};
ghost use Rattle.heap_model.specs.Ranges.{taken_of};
ghost use Rattle.vs_split.specs.Tiles.{AreSpanPages};
ghost use Rattle.heap_model.specs.Runs.{Run};
ghost use Rattle.std.specs.Bool.{OnTrue};

use crate::{Body, LEAST_PAGES, units_for};
use heap_model::{FRONT_GRANULES, GRANULE_BYTES, Limits, OutOfMemory, PAGE_BYTES, Stands};
use std::alloc::{AllocError, Global};
use std::marker::Model;
use vs_split::Heads;

/// The variable-size layer of a heap, made for some limits. Contracts see its spans, its chunks, which buckets it has served,
/// and which are active. The live blocks, by address, are `places_of` it, and `layer_of` is the part of a heap that its lock
/// guards.
#[derive(Drop)]
pub struct Vs {
    body: Box<Body>,
}

impl Model for Vs {
    ghost use Rattle.vs_layer.specs.Kept.{VsKept};

    ghost Value = { VsKept };

    ghost view = { λ v. v.body.value };
}

impl Stands for Vs {
    ghost use Rattle.vs_layer.specs.Standing.{layer_of};

    ghost stands = { λ v. layer_of v };
}

impl Vs {
    /// No span, in a heap with these limits and this key. It takes all the memory that it will ever use.
    pub fn new(alloc: Global, limits: &Limits, key: u64) -> Result<Vs, OutOfMemory>
        requires { AreValid limits.now }
        ensures nothing { IfOk result (λ v. v ≡ nothing_kept limits.now key) }
        ensures stands { IfOk result (λ v. (o : Opening) → o.limits ≡ limits.now → header_key o.seed ≡ key → StandsForVs o opening (layer_of v)) }
    {
        let body = Body::new(alloc, limits, key)?;
        match Box::new(alloc, body) {
            Ok(body) => Ok(Vs { body }),
            Err(failed) => Err(AllocError::from(failed).into()),
        }
    }

    /// The pages of the subsegment that is made for a block of `n` bytes.
    pub fn span_pages(n: u64) -> u32
        requires { n ≤ 131072 }
        ensures { result ≡ span_pages_of n }
    {
        let units = FRONT_GRANULES + u32::from(units_for(n));
        ((GRANULE_BYTES * u64::from(units)).div_ceil(PAGE_BYTES) as u32).max(LEAST_PAGES)
    }

    /// Whether a bucket is to become active: at least 17 of its blocks live here, or at least 2,040 were placed here.
    pub fn due(&self, bucket: u8) -> bool
        requires { (1 ≤ bucket) × (bucket ≤ 128) }
        ensures { result ≡ is_due (part_of self.now) bucket }
    {
        self.body.due(bucket)
    }

    /// Whether a bucket is active, so that the low-fragmentation front end serves it.
    pub fn is_active(&self, bucket: u8) -> bool
        requires { (1 ≤ bucket) × (bucket ≤ 128) }
        ensures { result ≡ active_of self.now bucket }
    {
        self.body.is_active(bucket)
    }

    /// Makes a bucket active. It stays so.
    pub fn set_active(&mut self, bucket: u8)
        requires { (1 ≤ bucket) × (bucket ≤ 128) }
        ensures active { active_of self.new ≡ updated (active_of self.old) bucket true }
        ensures chunks { self.new.chunks ≡ self.old.chunks }
        ensures spans { self.new.spans ≡ self.old.spans }
        ensures served { self.new.served ≡ self.old.served }
        ensures limits { self.new.limits ≡ self.old.limits }
        ensures stands { Becomes self.old self.new (λ v. with_active v bucket) (λ xs. xs) }
    {
        self.body.set_active(bucket);
    }

    /// The headers of all chunks.
    pub fn heads(&self) -> &Heads
        ensures chunks { result.now ≡ self.now.chunks }
        // they are the places and the gaps, and tile the spans
        ensures shown { ShowsChunks self.now }
        ensures in_order { AreInOrder 0 self.now.spans }
        ensures inside { AreAt (IsInVs self.now.spans) (places_of self.now) }
        // one for each granule of the segments
        ensures granules { length self.now.chunks.heads ≡ 65536 * self.now.limits.segments }
    {
        self.body.heads()
    }

    /// The headers of all chunks, unchanged.
    pub fn into_heads(self) -> Heads
        ensures chunks { result ≡ self.chunks }
        ensures shown { ShowsChunks self }
    {
        Box::into_inner(self.body).into_heads()
    }

    /// Whether a gap holds a block of `n` bytes.
    pub fn fit(&self, n: u64) -> bool
        requires { n ≤ 131072 }
        ensures { result ≡ is_some (place_for self.now n) }
    {
        self.body.fit(n)
    }

    /// Makes a span of pages that the back end gave one gap, behind its first 48 bytes.
    pub fn add_span(&mut self, first: u32, pages: u32)
        requires pages { AreSpanPages self.old.chunks first pages }
        requires apart { AllByRecursion (LieApart first pages) self.old.spans }
        ensures spans { self.new.spans ≡ insert_span (vs_span first pages) self.old.spans }
        ensures places { places_of self.new ≡ places_of self.old }
        ensures served { self.new.served ≡ self.old.served }
        ensures active { self.new.active ≡ self.old.active }
        ensures heap { IsOfOneHeap self.old self.new }
        ensures limits { self.new.limits ≡ self.old.limits }
        ensures stands { Becomes self.old self.new (λ v. v) (insert_span (vs_span first pages)) }
    {
        self.body.add_span(first, pages);
    }

    /// Places a block of `n` bytes at the front of the smallest gap that holds it, and answers its address.
    pub fn place(&mut self, n: u64) -> u64
        requires size { n ≤ 131072 }
        requires fits { is_some (place_for self.old n) ≡ true }
        ensures placed { HasPlaced self.old self.new n result }
        ensures limits { self.new.limits ≡ self.old.limits }
        ensures stands { (run : Run) → place_for self.old n ≡ Some run → Becomes self.old self.new (λ v. with_block v run n) (λ xs. xs) }
    {
        self.body.place(n)
    }

    /// The size of the block that begins at an address, None where no block does.
    pub fn find(&self, addr: u64) -> Option<u64>
        ensures { result ≡ option_and_then (λ p. live_size p.status) (block_at self.now addr) }
    {
        self.body.find(addr)
    }

    /// Whether the block at an address is the last one of its span, so that to drop it closes the span.
    pub fn empties(&self, addr: u64) -> bool
        requires { (p : Place) × (block_at self.now addr ≡ Some p) }
        ensures { TellsLast self.now addr result }
    {
        self.body.empties(addr)
    }

    /// Drops the block at an address. The gaps on both sides become one with its place. Where no block is left in the span,
    /// it is closed, and its first page and its pages are answered: the caller gives it back to the back end.
    pub fn drop_block(&mut self, addr: u64) -> Option<(u32, u32)>
        requires { (p : Place) × (block_at self.old addr ≡ Some p) }
        ensures dropped { HasDropped self.old self.new addr result }
        ensures limits { self.new.limits ≡ self.old.limits }
        ensures stands { Becomes self.old self.new (λ v. without_block v addr) (without_closed result) }
    {
        self.body.drop_block(addr)
    }

    /// Whether the block at an address can get `n` bytes where it is: in its place and the gap right behind it.
    pub fn room_in_place(&self, addr: u64, n: u64) -> bool
        requires { (p : Place) × (block_at self.now addr ≡ Some p) }
        ensures { (p : Place) → block_at self.now addr ≡ Some p → result ≡ lets_stay self.now p n }
    {
        self.body.room_in_place(addr, n)
    }

    /// Gives the block at an address `n` bytes where it is, and answers whether it could. Where at least 2 granules are left,
    /// they are a gap.
    pub fn resize_in_place(&mut self, addr: u64, n: u64) -> bool
        requires { (p : Place) × (block_at self.old addr ≡ Some p) }
        ensures resizes { ResizesOrKeeps self.old self.new addr n result }
        ensures limits { self.new.limits ≡ self.old.limits }
        ensures stands { OnTrue result ((p : Place) → block_at self.old addr ≡ Some p → Becomes self.old self.new (λ v. with_length v addr (taken_of (units_of n) (reach_of self.old p)) n) (λ xs. xs)) }
    {
        self.body.resize_in_place(addr, n)
    }
}
