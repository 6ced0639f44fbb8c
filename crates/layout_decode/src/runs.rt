// The blocks of one run.
ghost use Rattle.std.specs.Prelude.{◌≡◌, ◌+◌, ◌≤◌, length};
ghost use Rattle.std.specs.List.{find};
ghost use Rattle.heap_model.specs.Geometry.{page_bytes};
ghost use Rattle.page_ranges.specs.Spans as spans;
ghost use Rattle.vs_split.specs.Tiles.{IsTiled};
ghost use Rattle.table_words.specs.Told.{AreWords};
ghost use Rattle.layout_decode.specs.Decode.{blocks_of, is_at_or_after, total_of, IsRunOfChunks, IsRunOfBlocks, BlocksFit, AreTold};

use crate::Image;
use crate::places::{count_places, next_place};
use crate::subsegments::{count_in_subsegment, next_in_subsegment};
use heap_model::{Block, Kind, Layer, PAGE_BYTES, Run};

/// The first block of a run at an address or after it.
pub fn next_in(image: &Image, run: &Run, from: u64) -> Option<Block>
    requires tiled { IsTiled image.now.heads }
    requires told { AreTold image.now }
    requires chunks { IsRunOfChunks image.now.heads run.now run.now.mark.kind }
    requires inside { run.now.first + run.now.pages ≤ 4096 }
    requires words { AreWords image.now.limits image.now.words }
    requires subsegment { IsRunOfBlocks image.now.limits run.now run.now.mark.kind }
    ensures { result ≡ find (is_at_or_after from) (blocks_of image.now run.now run.now.mark.kind) }
{
    match run.mark.kind {
        Kind::Back => {
            let block = block_of(run);
            if block.addr >= from {
                Some(block)
            } else {
                None
            }
        }
        Kind::Vs => next_place(image, run, from),
        Kind::Lfh => next_in_subsegment(image, run, from),
        _ => None,
    }
}

/// How many blocks a run has, and the sum of their sizes.
pub fn count_in(image: &Image, run: &Run) -> (u64, u64)
    requires tiled { IsTiled image.now.heads }
    requires told { AreTold image.now }
    requires chunks { IsRunOfChunks image.now.heads run.now run.now.mark.kind }
    requires inside { run.now.first + run.now.pages ≤ 4096 }
    requires words { AreWords image.now.limits image.now.words }
    requires subsegment { IsRunOfBlocks image.now.limits run.now run.now.mark.kind }
    requires fit { BlocksFit image.now run.now run.now.mark.kind }
    ensures blocks { result.0 ≡ length (blocks_of image.now run.now run.now.mark.kind) }
    ensures bytes { result.1 ≡ total_of (blocks_of image.now run.now run.now.mark.kind) }
{
    match run.mark.kind {
        Kind::Back => (1, block_of(run).size),
        Kind::Vs => count_places(image, run),
        Kind::Lfh => count_in_subsegment(image, run),
        _ => (0, 0),
    }
}

/// The block that a run of the back end is.
fn block_of(run: &Run) -> Block
    ensures { result ≡ spans.block_of page_bytes run.now }
{
    let bytes = PAGE_BYTES * u64::from(run.pages);
    Block {
        addr: PAGE_BYTES * u64::from(run.first),
        size: bytes.saturating_sub(u64::from(run.mark.unused)),
        layer: Layer::Back,
    }
}
