// The blocks of a subsegment of the front end, each by its bit and its size word.
ghost use Rattle.std.specs.Prelude.{ℕ, ◌≡◌, ◌%◌, ◌<◌, ◌≤◌, option_to_list};
ghost use Rattle.std.specs.List.{find};
ghost use Rattle.heap_model.specs.declared.Kind.TheVariants as kinds;
ghost use Rattle.heap_model.specs.Bits.{has_bit};
ghost use Rattle.heap_model.specs.Buckets.{block_count, block_address};
ghost use Rattle.lfh_buckets.specs.Blocks.{IsBucket};
ghost use Rattle.heap_gate.specs.Token.{now};
ghost use Rattle.layout_decode.specs.Decode.{blocks_of, block_at_bit, is_taken_in, is_at_or_after, IsOfBucket};
ghost use Rattle.walk_calls.specs.Seen.{IsOwner, Looks, TellsFront};

use call_parts::State;
use heap_gate::{Caller, Heap};
use heap_model::{Block, Layer, Run, WORD_BITS};
use lfh_buckets::{block_at, block_size, count};
use lfh_claims::{owner_bits, owner_size};

/// The first block of a subsegment at an address or after it.
///
/// It begins at the block of that address.
pub fn next_in_subsegment(
    heap: &Heap<State>,
    c: &mut Caller<State>,
    run: &Run,
    from: u64,
) -> Option<Block>
    requires table { (c.old.table ≡ heap.now.table) × (c.old.opening ≡ heap.now.opening) }
    requires owner { IsOwner c.old }
    requires subsegment { IsOfBucket c.old.opening.limits run.now }
    requires inside { run.now.first < 4096 }
    ensures looks { Looks c.old c.new }
    ensures found { TellsFront c.old c.new (λ image. result ≡ find (is_at_or_after from) (blocks_of image run.now kinds.Lfh)) }
{
    let bucket = run.mark.bucket;
    let first = first_from(bucket, run.first, from);
    for index in first..count(bucket) as u16 {
        if let Some(block) = block_of(heap, c, run, index) {
            return Some(block);
        }
    }
    None
}

/// The number of the first block of a subsegment at an address or after it, or how many it has where there is none.
fn first_from(bucket: u8, head: u32, from: u64) -> u16
    requires bucket { IsBucket bucket }
    requires head { head < 4096 }
    ensures most { result ≤ block_count bucket }
    ensures before { (i : ℕ) → i < result → block_address bucket head i < from }
    ensures reached { result < block_count bucket → from ≤ block_address bucket head result }
{
    let offset = from.saturating_sub(block_at(bucket, head, 0));
    let index = offset.div_ceil(u64::from(block_size(bucket)));
    index.min(u64::from(count(bucket))) as u16
}

/// The block of a number, where its bit is set and its size word is not 0.
fn block_of(heap: &Heap<State>, c: &mut Caller<State>, run: &Run, index: u16) -> Option<Block>
    requires table { (c.old.table ≡ heap.now.table) × (c.old.opening ≡ heap.now.opening) }
    requires owner { IsOwner c.old }
    requires subsegment { IsOfBucket c.old.opening.limits run.now }
    requires inside { run.now.first < 4096 }
    requires index { index < block_count run.now.mark.bucket }
    ensures looks { Looks c.old c.new }
    ensures block { TellsFront c.old c.new (λ image. option_to_list result ≡ block_at_bit image run.now index) }
{
    if !is_taken(heap, c, run, index) {
        return None;
    }
    c.check();
    let addr = block_at(run.mark.bucket, run.first, index);
    let word = owner_size(heap, c, addr);
    if word == 0 {
        return None;
    }
    Some(Block {
        addr,
        size: word - 1,
        layer: Layer::Lfh,
    })
}

/// The bit of a block.
fn is_taken(heap: &Heap<State>, c: &mut Caller<State>, run: &Run, index: u16) -> bool
    requires table { (c.old.table ≡ heap.now.table) × (c.old.opening ≡ heap.now.opening) }
    requires owner { IsOwner c.old }
    requires subsegment { IsOfBucket c.old.opening.limits run.now }
    requires index { index < block_count run.now.mark.bucket }
    ensures looks { Looks c.old c.new }
    ensures taken { TellsFront c.old c.new (λ image. result ≡ is_taken_in image run.now index) }
{
    c.check();
    let index = u32::from(index);
    let bits = owner_bits(heap, c, run.first, index / WORD_BITS);
    bit_at(bits, index)
}

/// The bit of a block in the word that has it.
fn bit_at(bits: u64, index: u32) -> bool
    ensures { result ≡ has_bit bits (index % 64) }
{
    bits >> (index % WORD_BITS) & 1 == 1
}
