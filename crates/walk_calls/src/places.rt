// The blocks of a run of the variable-size layer, each in a chunk.
ghost use Rattle.std.specs.Prelude.{◌≡◌, ◌+◌, ◌≤◌, ◌⊎◌, Some};
ghost use Rattle.std.specs.List.{find};
ghost use Rattle.vs_headers.specs.declared.Head.{Head};
ghost use Rattle.vs_split.specs.Chunks.{head_at};
ghost use Rattle.vs_split.specs.Tiles.{IsTiled};
ghost use Rattle.heap_model.specs.declared.Kind.TheVariants as kinds;
ghost use Rattle.layout_decode.specs.Decode.{place_block, is_at_or_after, IsRunOfChunks};
ghost use Rattle.walk_calls.specs.Seen.{chunks_in};

use heap_model::{Block, FRONT_GRANULES, GRANULE_BYTES, Layer, PAGE_GRANULES, Run};
use vs_headers::Head;
use vs_split::Heads;

/// Tells the contracts of its callers that chunks lie one behind the other.
pub fn tiled(heads: &Heads)
    ensures { IsTiled heads.now }
{
    let _front = heads.chunk_at(0);
}

/// The first block of a run of the variable-size layer at an address or after it.
///
/// It begins at the chunk of that address.
pub fn next_place(heads: &Heads, run: &Run, from: u64) -> Option<Block>
    requires tiled { IsTiled heads.now }
    requires chunks { IsRunOfChunks heads.now run.now kinds.Vs }
    requires inside { run.now.first + run.now.pages ≤ 4096 }
    ensures { result ≡ find (is_at_or_after from) (chunks_in heads.now run.now) }
{
    let front = PAGE_GRANULES * run.first + FRONT_GRANULES;
    let end = PAGE_GRANULES * (run.first + run.pages);
    let at = from / GRANULE_BYTES;
    if at >= u64::from(end) {
        return None;
    }
    let mut granule = chunk_before(heads, front, front.max(at as u32));
    while granule < end {
        let head = heads.chunk_at(GRANULE_BYTES * u64::from(granule))?;
        let block = block_of(granule, &head);
        if head.busy && block.addr >= from {
            return Some(block);
        }
        granule += u32::from(head.units);
    }
    None
}

/// The nearest granule at or below another at which a chunk starts, `front` at least.
fn chunk_before(heads: &Heads, front: u32, from: u32) -> u32
    requires { front ≤ from }
    ensures above { front ≤ result }
    ensures below { result ≤ from }
    ensures start { (result ≡ front) ⊎ ((h : Head) × (head_at heads.now result ≡ Some h)) }
{
    let mut granule = from;
    while granule > front && heads.chunk_at(GRANULE_BYTES * u64::from(granule)).is_none() {
        granule -= 1;
    }
    granule
}

/// The block of a place whose header is at a granule.
fn block_of(granule: u32, head: &Head) -> Block
    ensures { result ≡ place_block granule head.now }
{
    let room = (GRANULE_BYTES * u64::from(head.units)).saturating_sub(GRANULE_BYTES);
    Block {
        addr: GRANULE_BYTES * u64::from(granule) + GRANULE_BYTES,
        size: room.saturating_sub(u64::from(head.unused)),
        layer: Layer::Vs,
    }
}
