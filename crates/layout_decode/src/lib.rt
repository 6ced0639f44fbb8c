//! The live blocks of a heap, read from its metadata alone, as a debugger reads them from an image.
//!
//! An image has the region with its reserved segments and committed pages, the descriptor word of each page, the header word
//! of each chunk of the variable-size layer, the table of large blocks, and the words of the heap's table, of which decoding
//! reads the bitmaps and the size words of the low-fragmentation front end. Addresses are offsets in the heap's region, in
//! bytes, a page has 4,096 bytes and a granule 16.
#![tactic(auto)]

mod places;
mod runs;
mod subsegments;

ghost use Rattle.std.specs.Prelude.{◌≡◌, ◌≤◌, ◌^◌, length};
ghost use Rattle.std.specs.List.{find};
ghost use Rattle.layout_decode.specs.Decode.{page_blocks, table_blocks, decode, is_at_or_after, total_of, IsReadable};

use crate::places::tiled;
use crate::runs::{count_in, next_in};
use heap_model::{Block, Limits, PAGE_BYTES, Words};
use large_blocks::Large;
use page_ranges::Descs;
use page_region::Region;
use vs_split::Heads;

/// What a heap leaves behind: its limits, its region, the descriptors of its pages, the key that its header words are
/// encoded by, those words, its large blocks, and the words of its table.
#[derive(Drop)]
pub struct Image {
    pub limits: Limits,
    pub region: Region,
    pub descs: Descs,
    pub key: u64,
    pub heads: Heads,
    pub large: Large,
    pub words: Words,
}

/// The live block of the least address at or after `from`, or `None` where there is none.
///
/// It goes on from the run of `from`, in a run of the variable-size layer from the chunk of `from`, and in a subsegment from
/// the block of `from`, and behind the pages in the table of large blocks. So a walk over all blocks looks at each chunk three
/// times at most, and at each bit of a subsegment once.
pub fn next_block(image: &Image, from: u64) -> Option<Block>
    requires { IsReadable image.now }
    ensures { result ≡ find (is_at_or_after from) (decode image.now) }
{
    match next_in_pages(image, from) {
        Some(block) => Some(block),
        None => image.large.next_block(from),
    }
}

fn next_in_pages(image: &Image, from: u64) -> Option<Block>
    requires { IsReadable image.now }
    ensures { result ≡ find (is_at_or_after from) (page_blocks image.now) }
{
    tiled(&image.heads);
    let end = image.descs.pages();
    let at = from / PAGE_BYTES;
    if at >= u64::from(end) {
        return None;
    }
    let mut page = image.descs.run_at(at as u32).first;
    while page < end {
        let run = image.descs.next_run(page)?;
        if let Some(block) = next_in(image, &run, from) {
            return Some(block);
        }
        page = run.first + run.pages;
    }
    None
}

/// How many live blocks there are, and the sum of the sizes that they were asked for.
pub fn count_blocks(image: &Image) -> (u64, u64)
    requires { IsReadable image.now }
    ensures blocks { result.0 ≡ length (decode image.now) }
    ensures bytes { result.1 ≡ total_of (decode image.now) }
{
    let (blocks, bytes) = count_in_pages(image);
    let (more_blocks, more_bytes) = count_large(&image.large);
    (blocks + more_blocks, bytes + more_bytes)
}

fn count_in_pages(image: &Image) -> (u64, u64)
    requires { IsReadable image.now }
    ensures blocks { result.0 ≡ length (page_blocks image.now) }
    ensures bytes { result.1 ≡ total_of (page_blocks image.now) }
    ensures few { (result.0 ≤ 2 ^ 20) × (result.1 ≤ 2 ^ 24) }
{
    tiled(&image.heads);
    let end = image.descs.pages();
    let mut blocks = 0;
    let mut bytes = 0;
    let mut page = 0;
    while page < end {
        let Some(run) = image.descs.next_run(page) else {
            return (blocks, bytes);
        };
        let counted = count_in(image, &run);
        blocks += counted.0;
        bytes += counted.1;
        page = run.first + run.pages;
    }
    (blocks, bytes)
}

fn count_large(large: &Large) -> (u64, u64)
    ensures blocks { result.0 ≡ length (table_blocks large.now) }
    ensures bytes { result.1 ≡ total_of (table_blocks large.now) }
    ensures few { (result.0 ≤ 32) × (result.1 ≤ 2 ^ 24) }
{
    let rows = large.blocks();
    let mut bytes = 0;
    for row in rows {
        bytes += row.size;
    }
    (rows.len() as u64, bytes)
}

#[cfg(test)]
mod tests;
