//! Blocks in hand, live blocks, and their size words.
ghost use Rattle.std.specs.Prelude.{◌≡◌, ◌*◌, ◌<◌, ◌≤◌, ℕ, true, IfSome, IfNone};
ghost use Rattle.lfh_buckets.specs.Blocks.{IsBucket, IsBlockAt};
ghost use Rattle.block_steps.specs.Blocks.{MayPublish, MayAsk};
ghost use Rattle.heap_gate.specs.Token.{Always, now};
ghost use Rattle.lfh_claims.specs.Blocks.{HasPublished, HasTakenLive, HasFoundNone, HasSize, MayGiveUp, HasCleared};

use crate::steps::{clear_by, publish_by, size_by, take_by};
use crate::tag::Tag;
use heap_gate::{Caller, Heap, Told};
use heap_model::{GRANULE_BYTES, Stands, WORD_BITS};
use lfh_buckets::{block_at, block_size};
use std::marker::Brand;
use table_words::{bitmap_at, size_at};

/// Makes a block in hand live, by one store of its size plus 1.
pub fn publish<T: Stands>(heap: &Heap<T>, c: &mut Caller<T>, addr: u64, size: u64)
    requires table { (c.old.table ≡ heap.now.table) × (c.old.opening ≡ heap.now.opening) }
    requires whole { c.old.whole ≡ true }
    requires inside { c.old.inside ≡ true }
    requires there { addr < 1048576 * c.old.opening.limits.segments }
    requires size { size ≤ 16368 }
    requires may { Always c.old (λ s. MayPublish s (now s c.old) c.old.number addr size) }
    ensures { HasPublished c.old c.new addr size }
{
    let at = size_at(&heap.limits(), (addr / GRANULE_BYTES) as u32) as usize;
    publish_by::<T, Brand, Brand>(
        &heap.table.shared,
        &mut c.place,
        &c.prepared,
        addr,
        size,
        at,
        size + 1,
    );
    c.prepared.clear();
    c.pending = false;
}

/// Takes a live block in hand, by one swap of its size word for 0, and answers its size. It is None exactly where the word was 0:
/// no live block has the address. The tag is that of a subsegment that has the page of the address, which the caller has read
/// since it entered.
pub fn take_live<T: Stands>(heap: &Heap<T>, c: &mut Caller<T>, tag: Tag, addr: u64) -> Option<u64>
    requires table { (c.old.table ≡ heap.now.table) × (c.old.opening ≡ heap.now.opening) }
    requires whole { c.old.whole ≡ true }
    requires inside { c.old.inside ≡ true }
    requires there { addr < 1048576 * c.old.opening.limits.segments }
    requires may { Always c.old (λ s. MayAsk (now s c.old) c.old.number tag.head tag.bucket tag.slot addr) }
    ensures taken { IfSome result (λ size. HasTakenLive c.old c.new tag addr size) }
    ensures none { IfNone result (HasFoundNone c.old c.new addr) }
{
    let at = size_at(&heap.limits(), (addr / GRANULE_BYTES) as u32) as usize;
    let word = take_by::<T, Brand, Brand>(
        &heap.table.shared,
        &mut c.place,
        &c.prepared,
        tag,
        addr,
        at,
    );
    c.prepared.clear();
    c.pending = false;
    if word == 0 {
        return None;
    }
    c.free = Told::of(&false);
    Some(word - 1)
}

/// Reads the size of a live block. It is None exactly where the size word is 0: no live block has the address. The tag is as for
/// `take_live`.
pub fn live_size<T: Stands>(heap: &Heap<T>, c: &mut Caller<T>, tag: Tag, addr: u64) -> Option<u64>
    requires table { (c.old.table ≡ heap.now.table) × (c.old.opening ≡ heap.now.opening) }
    requires whole { c.old.whole ≡ true }
    requires inside { c.old.inside ≡ true }
    requires there { addr < 1048576 * c.old.opening.limits.segments }
    requires may { Always c.old (λ s. MayAsk (now s c.old) c.old.number tag.head tag.bucket tag.slot addr) }
    ensures size { IfSome result (λ size. HasSize c.old c.new addr size) }
    ensures none { IfNone result (HasFoundNone c.old c.new addr) }
{
    let at = size_at(&heap.limits(), (addr / GRANULE_BYTES) as u32) as usize;
    let word = size_by::<T, Brand, Brand>(
        &heap.table.shared,
        &mut c.place,
        &c.prepared,
        tag,
        addr,
        at,
    );
    c.prepared.clear();
    c.pending = false;
    if word == 0 {
        return None;
    }
    Some(word - 1)
}

// The number of the block that begins at an address, of a subsegment that has one there: one division of 32 bits.
#[inline(always)]
fn number_at(tag: Tag, addr: u64) -> u16
    requires bucket { IsBucket tag.bucket }
    requires head { tag.head < 4096 }
    requires block { (i : ℕ) × IsBlockAt tag.bucket tag.head addr i }
    ensures { (i : ℕ) → IsBlockAt tag.bucket tag.head addr i → i ≡ result }
{
    let offset = (addr - block_at(tag.bucket, tag.head, 0)) as u32;
    (offset / block_size(tag.bucket)) as u16
}

/// Gives a block in hand back, by one fetch_and that clears its bit. The tag is that of its subsegment: the words of its pages
/// need not be read again, and may still be owed by the caller that made it.
#[inline(always)]
pub fn clear<T: Stands>(heap: &Heap<T>, c: &mut Caller<T>, tag: Tag, addr: u64)
    requires table { (c.old.table ≡ heap.now.table) × (c.old.opening ≡ heap.now.opening) }
    requires whole { c.old.whole ≡ true }
    requires inside { c.old.inside ≡ true }
    requires there { tag.head < 256 * c.old.opening.limits.segments }
    requires bucket { IsBucket tag.bucket }
    requires may { MayGiveUp c.old tag addr }
    ensures { HasCleared c.old c.new addr }
{
    let limits = heap.limits();
    let index = number_at(tag, addr);
    let number = u32::from(index);
    let at = bitmap_at(&limits, tag.head, number / WORD_BITS) as usize;
    let _bits = clear_by::<T, Brand, Brand>(
        &heap.table.shared,
        &mut c.place,
        &c.prepared,
        tag,
        index,
        at,
        !(1u64 << (number % WORD_BITS)),
    );
    c.prepared.clear();
    c.pending = false;
}
