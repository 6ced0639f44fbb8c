//! What the variable-size layer does for a bucket that the front end cannot serve, under both locks.
ghost use Rattle.std.specs.Prelude.{◌≡◌, Bool, None, is_some, true, IfSome, IfNone};
ghost use Rattle.vs_layer.specs.Kept.{place_for};
ghost use Rattle.vs_calls.specs.Parts.{HasPlaced, Places, Refuses};
ghost use Rattle.fall_calls.specs.Falls.{FallsToVs, HasNoRoom};

use crate::both::{give_two, hand_over_two};
use backend_fit::Back;
use call_parts::State;
use heap_gate::{Caller, Heap, prepare};
use heap_model::Act;
use vs_calls::{hold_in_gap, hold_in_new_span};
use vs_layer::Vs;

/// Places a block at the front of the smallest gap that holds it, which there is, and gives it and both locks.
fn place_in_gap(
    heap: &Heap<State>,
    c: &mut Caller<State>,
    mut vs: Vs,
    back: Back,
    n: u64,
    zero: bool,
    vs_last: bool,
) -> u64
    requires table { (c.old.table ≡ heap.now.table) × (c.old.opening ≡ heap.now.opening) }
    requires falls { FallsToVs c.old vs back n zero vs_last }
    requires fits { is_some (place_for vs n) ≡ true }
    ensures { HasPlaced c.old c.new n result zero }
{
    c.check();
    let addr = hold_in_gap(c, &mut vs, n);
    hand_over_two(heap, c, vs, back, addr, n, zero, vs_last);
    addr
}

/// Answers an allocation of `n` bytes that no gap holds and for which the back end has no pages for a new subsegment. Both locks are
/// given back.
pub fn refuse_behind(
    heap: &Heap<State>,
    c: &mut Caller<State>,
    vs: Vs,
    back: Back,
    n: u64,
    vs_last: bool,
)
    requires table { c.old.table ≡ heap.now.table }
    requires falls { (zero : Bool) × FallsToVs c.old vs back n zero vs_last }
    requires no_room { HasNoRoom vs back n }
    ensures { Refuses c.old c.new }
{
    c.check();
    prepare(c, Act::NoFit { size: n });
    give_two(heap, c, vs, back, vs_last);
}

/// Places a block, which no gap holds, in a subsegment that is made for it, and gives it. Where the back end has no pages for one, it
/// is refused. Both locks are given back.
fn place_in_span(
    heap: &Heap<State>,
    c: &mut Caller<State>,
    mut vs: Vs,
    mut back: Back,
    n: u64,
    zero: bool,
    vs_last: bool,
) -> Option<u64>
    requires table { (c.old.table ≡ heap.now.table) × (c.old.opening ≡ heap.now.opening) }
    requires falls { FallsToVs c.old vs back n zero vs_last }
    requires no_gap { place_for vs n ≡ None }
    ensures placed { IfSome result (λ addr. HasPlaced c.old c.new n addr zero) }
    ensures refused { IfNone result (HasNoRoom vs back n × Refuses c.old c.new) }
{
    c.check();
    let _region = back.region();
    let Some(addr) = hold_in_new_span(c, &mut vs, &mut back, n) else {
        refuse_behind(heap, c, vs, back, n, vs_last);
        return None;
    };
    hand_over_two(heap, c, vs, back, addr, n, zero, vs_last);
    Some(addr)
}

/// Goes on with an allocation of `n` bytes that the front end cannot serve, under both locks: places the block in a gap, or in a
/// subsegment that is made for it, and gives it, with all its words 0 where `zero` is asked. `None` comes where no gap holds it and
/// the back end has no pages for a subsegment. Both locks are given back, that of the variable-size layer first where `vs_last` says
/// that it was taken last.
pub fn place_behind(
    heap: &Heap<State>,
    c: &mut Caller<State>,
    vs: Vs,
    back: Back,
    n: u64,
    zero: bool,
    vs_last: bool,
) -> Option<u64>
    requires table { (c.old.table ≡ heap.now.table) × (c.old.opening ≡ heap.now.opening) }
    requires falls { FallsToVs c.old vs back n zero vs_last }
    ensures placed { IfSome result (λ addr. Places c.old c.new addr) }
    ensures refused { IfNone result (HasNoRoom vs back n × Refuses c.old c.new) }
{
    if vs.fit(n) {
        return Some(place_in_gap(heap, c, vs, back, n, zero, vs_last));
    }
    place_in_span(heap, c, vs, back, n, zero, vs_last)
}
