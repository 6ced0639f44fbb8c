// The blocks of all runs, and those of the table of large blocks behind them.
ghost use Rattle.std.specs.Prelude.{◌≡◌, ◌+◌, ◌<◌, ◌≤◌, ◌∷◌, []};
ghost use Rattle.std.specs.List.{find};
ghost use Rattle.heap_model.specs.Geometry.{page_bytes};
ghost use Rattle.page_ranges.specs.Spans as spans;
ghost use Rattle.vs_split.specs.Tiles.{IsTiled};
ghost use Rattle.heap_gate.specs.Token.{now};
ghost use Rattle.layout_decode.specs.Decode.{blocks_of, page_blocks, decode, is_at_or_after, IsRunOfChunks, IsRunOfBlocks};
ghost use Rattle.walk_calls.specs.Seen.{IsOwner, Looks, CanBeRead, TellsRun, TellsPages, TellsAll};

use crate::places::{next_place, tiled};
use crate::subsegments::next_in_subsegment;
use backend_fit::Back;
use call_parts::State;
use heap_gate::{Caller, Heap};
use heap_model::{Block, Kind, Layer, PAGE_BYTES, Run};
use large_blocks::Large;
use page_ranges::Descs;
use vs_layer::Vs;
use vs_split::Heads;

/// The first block of a run at an address or after it.
fn next_in(
    heap: &Heap<State>,
    c: &mut Caller<State>,
    heads: &Heads,
    run: &Run,
    from: u64,
) -> Option<Block>
    requires table { (c.old.table ≡ heap.now.table) × (c.old.opening ≡ heap.now.opening) }
    requires owner { IsOwner c.old }
    requires tiled { IsTiled heads.now }
    requires chunks { IsRunOfChunks heads.now run.now run.now.mark.kind }
    requires subsegment { IsRunOfBlocks c.old.opening.limits run.now run.now.mark.kind }
    requires some { 0 < run.now.pages }
    requires inside { run.now.first + run.now.pages ≤ 4096 }
    ensures looks { Looks c.old c.new }
    ensures found { TellsRun heads.now c.old c.new (λ image. result ≡ find (is_at_or_after from) (blocks_of image run.now run.now.mark.kind)) }
{
    match run.mark.kind {
        Kind::Header | Kind::Free => None,
        Kind::Back => whole_from(run, from),
        Kind::Vs => next_place(heads, run, from),
        Kind::Lfh => next_in_subsegment(heap, c, run, from),
    }
}

/// The block that a run of the back end is, if it begins at an address or after it.
fn whole_from(run: &Run, from: u64) -> Option<Block>
    ensures { result ≡ find (is_at_or_after from) (spans.block_of page_bytes run.now ∷ []) }
{
    let block = block_of(run);
    if block.addr < from {
        return None;
    }
    Some(block)
}

/// The block that a run of the back end is.
fn block_of(run: &Run) -> Block
    ensures { result ≡ spans.block_of page_bytes run.now }
{
    let bytes = PAGE_BYTES * u64::from(run.pages);
    Block {
        addr: PAGE_BYTES * u64::from(run.first),
        size: bytes.saturating_sub(u64::from(run.mark.unused)),
        layer: Layer::Back,
    }
}

/// The first block of all runs at an address or after it. It goes on from the run of that address.
fn next_in_pages(
    heap: &Heap<State>,
    c: &mut Caller<State>,
    descs: &Descs,
    heads: &Heads,
    from: u64,
) -> Option<Block>
    requires table { (c.old.table ≡ heap.now.table) × (c.old.opening ≡ heap.now.opening) }
    requires owner { IsOwner c.old }
    requires readable { CanBeRead c.old.opening.limits descs.now heads.now }
    ensures looks { Looks c.old c.new }
    ensures found { TellsPages descs.now heads.now c.old c.new (λ image. result ≡ find (is_at_or_after from) (page_blocks image)) }
{
    tiled(heads);
    let end = descs.pages();
    let at = from / PAGE_BYTES;
    if at >= u64::from(end) {
        return None;
    }
    let mut page = descs.run_at(at as u32).first;
    while page < end {
        let run = descs.next_run(page)?;
        if let Some(block) = next_in(heap, c, heads, &run, from) {
            return Some(block);
        }
        page = run.first + run.pages;
    }
    None
}

/// The first block at an address or after it, by what the layers show and the words of the table.
pub fn next_seen(
    heap: &Heap<State>,
    c: &mut Caller<State>,
    vs: &Vs,
    back: &Back,
    large: &Large,
    from: u64,
) -> Option<Block>
    requires table { (c.old.table ≡ heap.now.table) × (c.old.opening ≡ heap.now.opening) }
    requires owner { IsOwner c.old }
    requires readable { CanBeRead c.old.opening.limits back.now.words vs.now.chunks }
    ensures looks { Looks c.old c.new }
    ensures found { TellsAll back.now vs.now large.now c.old c.new (λ image. result ≡ find (is_at_or_after from) (decode image)) }
{
    match next_in_pages(heap, c, back.descs(), vs.heads(), from) {
        Some(block) => Some(block),
        None => large.next_block(from),
    }
}
