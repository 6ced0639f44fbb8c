// Small blocks, from the variable-size layer.
ghost use Rattle.std.specs.Prelude.{◌≡◌, ◌≤◌, None, option_and_then, IfSome, IfNone};
ghost use Rattle.heap_model.specs.State.{live_size};
ghost use Rattle.vs_layer.specs.Kept.{block_at, place_for};
ghost use Rattle.vs_layer.specs.Effects.{HasPlaced, HasDropped};

use vs_layer::Vs;

/// Places a block of `n` bytes in the smallest gap that holds it. `None`, and nothing changes, where no gap does: then the caller
/// takes `Vs::span_pages(n)` pages of the back end with `Mark::VS`, hands them to `add_span`, and tries again.
pub fn small_block(vs: &mut Vs, n: u64) -> Option<u64>
    requires { n ≤ 131072 }
    ensures placed { IfSome result (λ addr. HasPlaced vs.old vs.new n addr) }
    ensures none { IfNone result ((place_for vs.old n ≡ None) × (vs.new ≡ vs.old)) }
{
    if vs.fit(n) { Some(vs.place(n)) } else { None }
}

/// Drops the block at an address. The answer has its subsegment's first page and pages where no block is left in it: it is closed
/// then, and the caller gives the span back to the back end. `None`, and nothing changes, where no block is live at the address.
pub fn drop_small(vs: &mut Vs, addr: u64) -> Option<Option<(u32, u32)>>
    ensures dropped { IfSome result (λ closed. HasDropped vs.old vs.new addr closed) }
    ensures none { IfNone result ((option_and_then (λ p. live_size p.status) (block_at vs.old addr) ≡ None) × (vs.new ≡ vs.old)) }
{
    vs.find(addr)?;
    Some(vs.drop_block(addr))
}
