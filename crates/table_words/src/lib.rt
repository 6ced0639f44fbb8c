//! The words of the heap's table as one caller alone keeps them: plain loads and stores, at the places that the table has.
//!
//! A word has 64 bits. Where the regions lie is told by the constants and functions here and in `claim_rule`; the regions do not
//! overlap and fill the table, which `claim_rule` proves.
#![tactic(auto)]

#[cfg(test)]
mod tests;

ghost use Rattle.std.specs.Prelude.{◌≡◌, ◌+◌, ◌*◌, ◌<◌, ◌≤◌, IfOk, replicate};
ghost use Rattle.heap_model.specs.Limits.{AreValid};
ghost use Rattle.claim_rule.specs.Places.{active_region, hints_region, tags_region, bitmaps_region, sizes_region, data_region, word_count};

use claim_rule::{ACTIVE, HINTS, TAGS};
use heap_model::{Limits, OutOfMemory, SEGMENT_GRANULES, SEGMENT_PAGES, Words};
use std::alloc::Global;

/// The data words of a segment.
const SEGMENT_WORDS: u64 = 131_072;

/// The data words of a page of the large area.
const PAGE_WORDS: u64 = 512;

/// The bitmap words of a page.
pub const PAGE_BITMAPS: u64 = 4;

/// The hint words of a bucket, one for each slot.
pub const BUCKET_HINTS: u64 = 16;

/// All words of the table of a heap with these limits, each 0.
pub fn words_of(alloc: Global, limits: &Limits) -> Result<Words, OutOfMemory>
    requires { AreValid limits.now }
    ensures { IfOk result (λ w. w ≡ replicate (word_count limits.now) 0) }
{
    Words::new(alloc, count(limits))
}

/// How many words the table has.
pub fn count(limits: &Limits) -> usize
    requires { AreValid limits.now }
    ensures { result ≡ word_count limits.now }
{
    let segments = SEGMENT_WORDS * u64::from(limits.segments);
    (data_from(limits) + segments + PAGE_WORDS * u64::from(limits.large_pages)) as usize
}

/// Where the word of an active bucket is.
pub fn active_at(bucket: u8) -> u64
    requires { (1 ≤ bucket) × (bucket ≤ 128) }
    ensures { result + 1 ≡ active_region.from + bucket }
{
    ACTIVE as u64 + u64::from(bucket) - 1
}

/// Where the hint of a bucket and a slot is.
pub fn hint_at(bucket: u8, slot: u8) -> u64
    requires { (1 ≤ bucket) × (bucket ≤ 128) × (slot < 16) }
    ensures { result + 16 ≡ hints_region.from + 16 * bucket + slot }
{
    HINTS as u64 + BUCKET_HINTS * (u64::from(bucket) - 1) + u64::from(slot)
}

/// Where the tag of a page is.
pub fn tag_at(limits: &Limits, page: u32) -> u64
    requires limits { AreValid limits.now }
    requires page { page < 256 * limits.now.segments }
    ensures { result ≡ (tags_region limits.now).from + page }
{
    let _segments = limits.segments;
    TAGS as u64 + u64::from(page)
}

/// Where a bitmap word of the subsegment that begins at a page is.
pub fn bitmap_at(limits: &Limits, page: u32, word: u32) -> u64
    requires limits { AreValid limits.now }
    requires page { page < 256 * limits.now.segments }
    requires word { word < 4 }
    ensures { result ≡ (bitmaps_region limits.now).from + 4 * page + word }
{
    TAGS as u64
        + u64::from(SEGMENT_PAGES) * u64::from(limits.segments)
        + PAGE_BITMAPS * u64::from(page)
        + u64::from(word)
}

/// Where the size word of a granule is.
pub fn size_at(limits: &Limits, granule: u32) -> u64
    requires limits { AreValid limits.now }
    requires granule { granule < 65536 * limits.now.segments }
    ensures { result ≡ (sizes_region limits.now).from + granule }
{
    TAGS as u64
        + u64::from(SEGMENT_PAGES) * (1 + PAGE_BITMAPS) * u64::from(limits.segments)
        + u64::from(granule)
}

/// Where the data words begin.
pub fn data_from(limits: &Limits) -> u64
    requires { AreValid limits.now }
    ensures { result ≡ (data_region limits.now).from }
{
    let segments = u64::from(limits.segments);
    TAGS as u64
        + u64::from(SEGMENT_PAGES) * (1 + PAGE_BITMAPS) * segments
        + u64::from(SEGMENT_GRANULES) * segments
}
