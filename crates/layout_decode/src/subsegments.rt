// The blocks of a subsegment of the low-fragmentation front end, each by its bit and its size word.
ghost use Rattle.std.specs.Prelude.{ℕ, ◌≡◌, ◌<◌, ◌≤◌, length, option_to_list};
ghost use Rattle.std.specs.List.{find};
ghost use Rattle.heap_model.specs.declared.Kind.TheVariants as kinds;
ghost use Rattle.heap_model.specs.Buckets.{block_count, block_address};
ghost use Rattle.lfh_buckets.specs.Blocks.{IsBucket};
ghost use Rattle.table_words.specs.Told.{AreWords};
ghost use Rattle.layout_decode.specs.Decode.{blocks_of, block_at_bit, is_taken_in, is_at_or_after, total_of, IsOfBucket, BlocksFit};

use crate::Image;
use heap_model::{Block, GRANULE_BYTES, Layer, Run, WORD_BITS};
use lfh_buckets::{block_at, block_size, count};
use table_words::{bitmap_at, size_at};

/// The first block of a subsegment at an address or after it.
///
/// It begins at the block of that address.
pub fn next_in_subsegment(image: &Image, run: &Run, from: u64) -> Option<Block>
    requires words { AreWords image.now.limits image.now.words }
    requires subsegment { IsOfBucket image.now.limits run.now }
    ensures { result ≡ find (is_at_or_after from) (blocks_of image.now run.now kinds.Lfh) }
{
    let bucket = run.mark.bucket;
    let first = first_from(bucket, run.first, from);
    for index in first..count(bucket) as u16 {
        if let Some(block) = block_of(image, run, index) {
            return Some(block);
        }
    }
    None
}

/// How many blocks a subsegment has, and the sum of their sizes.
pub fn count_in_subsegment(image: &Image, run: &Run) -> (u64, u64)
    requires words { AreWords image.now.limits image.now.words }
    requires subsegment { IsOfBucket image.now.limits run.now }
    requires fit { BlocksFit image.now run.now kinds.Lfh }
    ensures blocks { result.0 ≡ length (blocks_of image.now run.now kinds.Lfh) }
    ensures bytes { result.1 ≡ total_of (blocks_of image.now run.now kinds.Lfh) }
{
    let mut blocks = 0;
    let mut bytes = 0;
    for index in 0..count(run.mark.bucket) as u16 {
        if let Some(block) = block_of(image, run, index) {
            blocks += 1;
            bytes += block.size;
        }
    }
    (blocks, bytes)
}

/// The number of the first block of a subsegment at an address or after it, or how many it has where there is none.
fn first_from(bucket: u8, head: u32, from: u64) -> u16
    requires bucket { IsBucket bucket }
    requires head { head < 4096 }
    ensures most { result ≤ block_count bucket }
    ensures before { (i : ℕ) → i < result → block_address bucket head i < from }
    ensures reached { result < block_count bucket → from ≤ block_address bucket head result }
{
    let offset = from.saturating_sub(block_at(bucket, head, 0));
    let index = offset.div_ceil(u64::from(block_size(bucket)));
    index.min(u64::from(count(bucket))) as u16
}

/// The block of a number, where its bit is set and its size word is not 0.
fn block_of(image: &Image, run: &Run, index: u16) -> Option<Block>
    requires words { AreWords image.now.limits image.now.words }
    requires subsegment { IsOfBucket image.now.limits run.now }
    requires index { index < block_count run.now.mark.bucket }
    ensures { option_to_list result ≡ block_at_bit image.now run.now index }
{
    if !is_taken(image, run, index) {
        return None;
    }
    let addr = block_at(run.mark.bucket, run.first, index);
    let granule = (addr / GRANULE_BYTES) as u32;
    let size = image
        .words
        .at(size_at(&image.limits, granule))
        .checked_sub(1)?;
    Some(Block {
        addr,
        size,
        layer: Layer::Lfh,
    })
}

/// The bit of a block.
fn is_taken(image: &Image, run: &Run, index: u16) -> bool
    requires words { AreWords image.now.limits image.now.words }
    requires subsegment { IsOfBucket image.now.limits run.now }
    requires index { index < block_count run.now.mark.bucket }
    ensures { result ≡ is_taken_in image.now run.now index }
{
    let index = u32::from(index);
    let bits = image
        .words
        .at(bitmap_at(&image.limits, run.first, index / WORD_BITS));
    bits >> (index % WORD_BITS) & 1 == 1
}
