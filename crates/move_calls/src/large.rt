//! A block of the large area that has to move.
ghost use Rattle.std.specs.Prelude.{◌≡◌, ◌≤◌, ◌∷◌, [], false};
ghost use Rattle.heap_model.specs.declared.Layer.TheVariants as layers;
ghost use Rattle.heap_model.specs.State.{Place};
ghost use Rattle.claim_rule.specs.Places.{vs_slot, back_slot, large_slot};
ghost use Rattle.move_parts.specs.Moves.{TellsVs, TellsBack, TellsLarge};
ghost use Rattle.move_calls.specs.Holds.{IsGathering};
ghost use Rattle.move_calls.specs.Moves.{Moves};

use crate::busy::end_busy;
use crate::ends::end_move;
use crate::held::Held;
use crate::takes::{also_back, also_vs, listen};
use crate::tries::try_large;
use backend_fit::Back;
use call_parts::State;
use heap_gate::{Caller, Heap};
use heap_model::{Flags, MOST_PAGED, ReNo};
use large_blocks::Large;
use move_parts::move_large;
use vs_layer::Vs;

/// Moves the block to another place of the large area.
fn move_far(
    heap: &Heap<State>,
    c: &mut Caller<State>,
    mut large: Large,
    addr: u64,
    size: u64,
    n: u64,
    flags: Flags,
) -> Result<u64, ReNo>
    requires size { 520193 ≤ n }
    requires table { (c.old.table ≡ heap.now.table) × (c.old.opening ≡ heap.now.opening) }
    requires may { flags.in_place ≡ false }
    requires gathering { (p : Place) × IsGathering c.old addr size n flags p (large_slot ∷ []) × (p.layer ≡ layers.Large) × TellsLarge c.old large }
    ensures { Moves c.old c.new addr n flags result }
{
    listen(heap, c);
    let moved = move_large(heap, c, &mut large, addr, size, n, flags.zero);
    end_move(heap, c, Held::Large(large), n, moved)
}

/// Moves the block to the variable-size layer or to the back end.
fn move_low(
    heap: &Heap<State>,
    c: &mut Caller<State>,
    mut large: Large,
    mut vs: Vs,
    mut back: Back,
    addr: u64,
    size: u64,
    n: u64,
    flags: Flags,
) -> Result<u64, ReNo>
    requires size { n ≤ 520192 }
    requires table { (c.old.table ≡ heap.now.table) × (c.old.opening ≡ heap.now.opening) }
    requires may { flags.in_place ≡ false }
    requires gathering { (p : Place) × IsGathering c.old addr size n flags p (back_slot ∷ vs_slot ∷ large_slot ∷ []) × (p.layer ≡ layers.Large) × TellsVs c.old vs × TellsBack c.old back × TellsLarge c.old large }
    ensures { Moves c.old c.new addr n flags result }
{
    listen(heap, c);
    let moved = try_large(
        heap, c, &mut vs, &mut back, &mut large, addr, size, n, flags.zero,
    );
    end_move(heap, c, Held::LargeThenLow(large, vs, back), n, moved)
}

/// Goes on under the lock of the variable-size layer too, to take that of the back end.
fn move_under_vs(
    heap: &Heap<State>,
    c: &mut Caller<State>,
    large: Large,
    vs: Vs,
    addr: u64,
    size: u64,
    n: u64,
    flags: Flags,
) -> Result<u64, ReNo>
    requires size { n ≤ 520192 }
    requires table { (c.old.table ≡ heap.now.table) × (c.old.opening ≡ heap.now.opening) }
    requires may { flags.in_place ≡ false }
    requires gathering { (p : Place) × IsGathering c.old addr size n flags p (vs_slot ∷ large_slot ∷ []) × (p.layer ≡ layers.Large) × TellsVs c.old vs × TellsLarge c.old large }
    ensures { Moves c.old c.new addr n flags result }
{
    match also_back(heap, c) {
        Ok(back) => move_low(heap, c, large, vs, back, addr, size, n, flags),
        Err(busy) => {
            end_busy(heap, c, Held::LargeThenVs(large, vs), busy);
            Err(ReNo::Busy(busy))
        }
    }
}

/// Moves the block, under the lock of the large area.
pub(crate) fn move_from_large(
    heap: &Heap<State>,
    c: &mut Caller<State>,
    large: Large,
    addr: u64,
    size: u64,
    n: u64,
    flags: Flags,
) -> Result<u64, ReNo>
    requires table { (c.old.table ≡ heap.now.table) × (c.old.opening ≡ heap.now.opening) }
    requires may { flags.in_place ≡ false }
    requires gathering { (p : Place) × IsGathering c.old addr size n flags p (large_slot ∷ []) × (p.layer ≡ layers.Large) × TellsLarge c.old large }
    ensures { Moves c.old c.new addr n flags result }
{
    if n > MOST_PAGED {
        return move_far(heap, c, large, addr, size, n, flags);
    }
    match also_vs(heap, c) {
        Ok(vs) => move_under_vs(heap, c, large, vs, addr, size, n, flags),
        Err(busy) => {
            end_busy(heap, c, Held::Large(large), busy);
            Err(ReNo::Busy(busy))
        }
    }
}
