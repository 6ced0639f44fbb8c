//! A block of the variable-size layer for one that moves, where the front end could not serve its bucket.
ghost use Rattle.std.specs.Prelude.{◌≡◌, Bool, ℕ, List, Some, None, true, is_some, IfSome, IfNone};
ghost use Rattle.heap_model.specs.declared.Flags.{Flags as AFlags};
ghost use Rattle.heap_model.specs.declared.What.TheVariants as whats;
ghost use Rattle.heap_model.specs.Buckets.{bucket_of};
ghost use Rattle.heap_model.specs.State.{Place};
ghost use Rattle.heap_gate.specs.Token.{is_out};
ghost use Rattle.lfh_search.specs.Under.{CannotBeServed};
ghost use Rattle.vs_layer.specs.Kept.{place_for};
ghost use Rattle.move_parts.specs.Moves.{TellsVs, TellsBack};
ghost use Rattle.move_parts.specs.Places.{HasHeldAnew, IsWithout};
ghost use Rattle.move_to_front.specs.Halfway.{IsMovingOn, IsMovingOnAny, HasHeldSettled};

use backend_fit::Back;
use call_parts::State;
use heap_gate::{Caller, Heap, settle};
use vs_calls::{hold_in_gap, hold_in_new_span, lies_within};
use vs_layer::Vs;

/// Places a new block of `n` bytes, whose bucket the front end cannot serve, at the front of the smallest gap that holds it, which there
/// is, and has it in hand.
fn hold_gap(
    heap: &Heap<State>,
    c: &mut Caller<State>,
    vs: &mut Vs,
    back: &Back,
    n: u64,
    bucket: u8,
) -> u64
    requires bucket { bucket_of n ≡ Some bucket }
    requires opening { c.old.opening ≡ heap.now.opening }
    requires moving { (taken : Bool) × (addr size : ℕ) × (flags : AFlags) × (p : Place) × (out : List ℕ) × IsMovingOnAny taken c.old addr size n flags p out × (is_out whats.Vs out ≡ true) × TellsVs c.old vs.old × (is_out whats.Back out ≡ true) × TellsBack c.old back.now }
    requires cannot { CannotBeServed c.old bucket }
    requires fits { is_some (place_for vs.old n) ≡ true }
    ensures { (taken : Bool) (addr size : ℕ) (flags : AFlags) (p : Place) (out : List ℕ) → IsMovingOnAny taken c.old addr size n flags p out → is_out whats.Vs out ≡ true → TellsVs c.old vs.old → is_out whats.Back out ≡ true → TellsBack c.old back.now → HasHeldAnew taken c.old c.new addr size n flags p out result vs.new back.now }
{
    let _limits = heap.limits();
    c.check();
    let b = hold_in_gap(c, vs, n);
    lies_within(vs, b);
    b
}

/// Places it, which no gap holds, in a subsegment that is made for it, and has it in hand. Where the back end has no pages for one,
/// nothing changes.
fn hold_span(
    heap: &Heap<State>,
    c: &mut Caller<State>,
    vs: &mut Vs,
    back: &mut Back,
    n: u64,
    bucket: u8,
) -> Option<u64>
    requires bucket { bucket_of n ≡ Some bucket }
    requires opening { c.old.opening ≡ heap.now.opening }
    requires moving { (taken : Bool) × (addr size : ℕ) × (flags : AFlags) × (p : Place) × (out : List ℕ) × IsMovingOnAny taken c.old addr size n flags p out × (is_out whats.Vs out ≡ true) × TellsVs c.old vs.old × (is_out whats.Back out ≡ true) × TellsBack c.old back.old }
    requires cannot { CannotBeServed c.old bucket }
    requires no_gap { place_for vs.old n ≡ None }
    ensures held { IfSome result (λ b. (taken : Bool) (addr size : ℕ) (flags : AFlags) (p : Place) (out : List ℕ) → IsMovingOnAny taken c.old addr size n flags p out → is_out whats.Vs out ≡ true → TellsVs c.old vs.old → is_out whats.Back out ≡ true → TellsBack c.old back.old → HasHeldAnew taken c.old c.new addr size n flags p out b vs.new back.new) }
    ensures none { IfNone result (IsWithout c.old c.new n × (vs.new ≡ vs.old) × (back.new ≡ back.old)) }
{
    let _limits = heap.limits();
    c.check();
    let _region = back.region();
    let _heads = vs.heads();
    let Some(b) = hold_in_new_span(c, vs, back, n) else {
        return None;
    };
    lies_within(vs, b);
    Some(b)
}

/// Has a new block of `n` bytes of the variable-size layer in hand, where the front end cannot serve its bucket: in the smallest gap that
/// holds it, or in a subsegment that is made for it. Where no range is there for it, nothing changes. The old block is live, or was taken.
pub fn hold_behind(
    heap: &Heap<State>,
    c: &mut Caller<State>,
    vs: &mut Vs,
    back: &mut Back,
    n: u64,
    bucket: u8,
) -> Option<u64>
    requires bucket { bucket_of n ≡ Some bucket }
    requires opening { c.old.opening ≡ heap.now.opening }
    requires moving { (taken : Bool) × (addr size : ℕ) × (flags : AFlags) × (p : Place) × (out : List ℕ) × IsMovingOnAny taken c.old addr size n flags p out × (is_out whats.Vs out ≡ true) × TellsVs c.old vs.old × (is_out whats.Back out ≡ true) × TellsBack c.old back.old }
    requires cannot { CannotBeServed c.old bucket }
    ensures held { IfSome result (λ b. (taken : Bool) (addr size : ℕ) (flags : AFlags) (p : Place) (out : List ℕ) → IsMovingOnAny taken c.old addr size n flags p out → is_out whats.Vs out ≡ true → TellsVs c.old vs.old → is_out whats.Back out ≡ true → TellsBack c.old back.old → HasHeldAnew taken c.old c.new addr size n flags p out b vs.new back.new) }
    ensures none { IfNone result (IsWithout c.old c.new n × (vs.new ≡ vs.old) × (back.new ≡ back.old)) }
{
    if vs.fit(n) {
        return Some(hold_gap(heap, c, vs, back, n, bucket));
    }
    hold_span(heap, c, vs, back, n, bucket)
}

/// As [`hold_behind`], for a live block, and what is prepared is in the list then.
pub(crate) fn hold_settled(
    heap: &Heap<State>,
    c: &mut Caller<State>,
    vs: &mut Vs,
    back: &mut Back,
    n: u64,
    bucket: u8,
) -> Option<u64>
    requires bucket { bucket_of n ≡ Some bucket }
    requires table { (c.old.table ≡ heap.now.table) × (c.old.opening ≡ heap.now.opening) }
    requires moving { (addr size : ℕ) × (flags : AFlags) × (p : Place) × (out : List ℕ) × IsMovingOn c.old addr size n flags p out × (is_out whats.Vs out ≡ true) × TellsVs c.old vs.old × (is_out whats.Back out ≡ true) × TellsBack c.old back.old }
    requires cannot { CannotBeServed c.old bucket }
    ensures held { IfSome result (λ b. (addr size : ℕ) (flags : AFlags) (p : Place) (out : List ℕ) → IsMovingOn c.old addr size n flags p out → is_out whats.Vs out ≡ true → TellsVs c.old vs.old → is_out whats.Back out ≡ true → TellsBack c.old back.old → HasHeldSettled c.old c.new addr size n flags p out b vs.new back.new) }
    ensures none { IfNone result (IsWithout c.old c.new n × (vs.new ≡ vs.old) × (back.new ≡ back.old)) }
{
    let Some(b) = hold_behind(heap, c, vs, back, n, bucket) else {
        return None;
    };
    c.check();
    settle(heap, c);
    Some(b)
}
