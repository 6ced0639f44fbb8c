//! A block of the variable-size layer that has to move.
ghost use Rattle.std.specs.Prelude.{◌≡◌, ◌/◌, ◌*◌, ◌<◌, ◌≤◌, ◌∷◌, [], false};
ghost use Rattle.heap_model.specs.declared.Layer.TheVariants as layers;
ghost use Rattle.heap_model.specs.State.{Place};
ghost use Rattle.claim_rule.specs.Places.{vs_slot, back_slot, large_slot};
ghost use Rattle.move_parts.specs.Moves.{TellsVs, TellsBack, TellsLarge};
ghost use Rattle.move_calls.specs.Holds.{IsGathering};
ghost use Rattle.move_calls.specs.Moves.{Moves};

use crate::busy::end_busy;
use crate::ends::end_move;
use crate::held::Held;
use crate::takes::{also_back, also_large, listen};
use crate::tries::try_vs;
use backend_fit::Back;
use call_parts::State;
use heap_gate::{Caller, Heap};
use heap_model::{Flags, MOST_PAGED, ReNo};
use large_blocks::Large;
use move_parts::move_vs_far;
use vs_layer::Vs;

/// Moves the block to another place of the variable-size layer or of the back end.
fn move_low(
    heap: &Heap<State>,
    c: &mut Caller<State>,
    mut vs: Vs,
    mut back: Back,
    addr: u64,
    size: u64,
    n: u64,
    flags: Flags,
) -> Result<u64, ReNo>
    requires size { n ≤ 520192 }
    requires table { (c.old.table ≡ heap.now.table) × (c.old.opening ≡ heap.now.opening) }
    requires may { flags.in_place ≡ false }
    requires gathering { (p : Place) × IsGathering c.old addr size n flags p (back_slot ∷ vs_slot ∷ []) × (p.layer ≡ layers.Vs) × TellsVs c.old vs × TellsBack c.old back }
    ensures { Moves c.old c.new addr n flags result }
{
    listen(heap, c);
    let moved = try_vs(heap, c, &mut vs, &mut back, addr, size, n, flags.zero);
    end_move(heap, c, Held::Low(vs, back), n, moved)
}

/// Moves the block to the large area.
fn move_far(
    heap: &Heap<State>,
    c: &mut Caller<State>,
    mut vs: Vs,
    mut back: Back,
    mut large: Large,
    addr: u64,
    size: u64,
    n: u64,
    flags: Flags,
) -> Result<u64, ReNo>
    requires size { 520193 ≤ n }
    requires table { (c.old.table ≡ heap.now.table) × (c.old.opening ≡ heap.now.opening) }
    requires may { flags.in_place ≡ false }
    requires gathering { (p : Place) × IsGathering c.old addr size n flags p (large_slot ∷ back_slot ∷ vs_slot ∷ []) × (p.layer ≡ layers.Vs) × TellsVs c.old vs × TellsBack c.old back × TellsLarge c.old large }
    ensures { Moves c.old c.new addr n flags result }
{
    listen(heap, c);
    let moved = move_vs_far(
        heap, c, &mut vs, &mut back, &mut large, addr, size, n, flags.zero,
    );
    end_move(heap, c, Held::LowThenLarge(vs, back, large), n, moved)
}

/// Moves the block, under the locks of its layer and of the back end.
fn move_under_both(
    heap: &Heap<State>,
    c: &mut Caller<State>,
    vs: Vs,
    back: Back,
    addr: u64,
    size: u64,
    n: u64,
    flags: Flags,
) -> Result<u64, ReNo>
    requires table { (c.old.table ≡ heap.now.table) × (c.old.opening ≡ heap.now.opening) }
    requires may { flags.in_place ≡ false }
    requires gathering { (p : Place) × IsGathering c.old addr size n flags p (back_slot ∷ vs_slot ∷ []) × (p.layer ≡ layers.Vs) × TellsVs c.old vs × TellsBack c.old back }
    ensures { Moves c.old c.new addr n flags result }
{
    if n <= MOST_PAGED {
        return move_low(heap, c, vs, back, addr, size, n, flags);
    }
    match also_large(heap, c) {
        Ok(large) => move_far(heap, c, vs, back, large, addr, size, n, flags),
        Err(busy) => {
            end_busy(heap, c, Held::Low(vs, back), busy);
            Err(ReNo::Busy(busy))
        }
    }
}

/// Moves the block, under the lock of its layer. That of the back end is needed too, as the span of the block may go.
pub(crate) fn move_from_vs(
    heap: &Heap<State>,
    c: &mut Caller<State>,
    vs: Vs,
    addr: u64,
    size: u64,
    n: u64,
    flags: Flags,
) -> Result<u64, ReNo>
    requires table { (c.old.table ≡ heap.now.table) × (c.old.opening ≡ heap.now.opening) }
    requires may { flags.in_place ≡ false }
    requires below { addr / 4096 < 256 * c.old.opening.limits.segments }
    requires gathering { (p : Place) × IsGathering c.old addr size n flags p (vs_slot ∷ []) × (p.layer ≡ layers.Vs) × TellsVs c.old vs }
    ensures { Moves c.old c.new addr n flags result }
{
    match also_back(heap, c) {
        Ok(back) => move_under_both(heap, c, vs, back, addr, size, n, flags),
        Err(busy) => {
            end_busy(heap, c, Held::Vs(vs), busy);
            Err(ReNo::Busy(busy))
        }
    }
}
