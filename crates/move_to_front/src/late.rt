//! A move whose new block the front end could not serve: it goes to the variable-size layer.
ghost use Rattle.std.specs.Prelude.{◌≡◌, ◌/◌, ℕ, List, Some, true, IfSome, IfNone};
ghost use Rattle.heap_model.specs.declared.Flags.{Flags as AFlags};
ghost use Rattle.heap_model.specs.declared.Layer.TheVariants as layers;
ghost use Rattle.heap_model.specs.declared.What.TheVariants as whats;
ghost use Rattle.heap_model.specs.Buckets.{bucket_of};
ghost use Rattle.heap_model.specs.State.{Place};
ghost use Rattle.heap_gate.specs.Token.{is_out};
ghost use Rattle.lfh_search.specs.Under.{CannotBeServed};
ghost use Rattle.move_parts.specs.Moves.{TellsVs, TellsBack, TellsLarge};
ghost use Rattle.move_parts.specs.Places.{IsWithout};
ghost use Rattle.move_to_front.specs.Halfway.{IsMovingOn};
ghost use Rattle.move_to_front.specs.Late.{MovesLate, MovesLateLarge};

use crate::behind::hold_settled;
use backend_fit::Back;
use call_parts::State;
use heap_gate::{Caller, Heap};
use large_blocks::Large;
use move_parts::{end_back, end_large, end_vs, move_words};
use vs_layer::Vs;

/// Moves a block of the variable-size layer to a new place there. Where no range is there for it, nothing changes.
pub(crate) fn late_vs(
    heap: &Heap<State>,
    c: &mut Caller<State>,
    vs: &mut Vs,
    back: &mut Back,
    addr: u64,
    size: u64,
    n: u64,
    bucket: u8,
    zero: bool,
) -> Option<u64>
    requires bucket { bucket_of n ≡ Some bucket }
    requires table { (c.old.table ≡ heap.now.table) × (c.old.opening ≡ heap.now.opening) }
    requires moving { (flags : AFlags) × (p : Place) × (out : List ℕ) × IsMovingOn c.old addr size n flags p out × (p.layer ≡ layers.Vs) × (is_out whats.Vs out ≡ true) × TellsVs c.old vs.old × (is_out whats.Back out ≡ true) × TellsBack c.old back.old }
    requires cannot { CannotBeServed c.old bucket }
    ensures moved { IfSome result (λ b. (flags : AFlags) (p : Place) (out : List ℕ) → flags.zero ≡ zero → IsMovingOn c.old addr size n flags p out → p.layer ≡ layers.Vs → is_out whats.Vs out ≡ true → TellsVs c.old vs.old → is_out whats.Back out ≡ true → TellsBack c.old back.old → MovesLate c.old c.new addr size n flags p b vs.new back.new) }
    ensures none { IfNone result (IsWithout c.old c.new n × (vs.new ≡ vs.old) × (back.new ≡ back.old)) }
{
    let Some(b) = hold_settled(heap, c, vs, back, n, bucket) else {
        return None;
    };
    c.check();
    move_words(heap, c, addr, size, b, n, zero);
    end_vs(c, vs, back, addr, size, b, n);
    Some(b)
}

/// As [`late_vs`], for a block of the back end, which begins at page `first`.
pub(crate) fn late_back(
    heap: &Heap<State>,
    c: &mut Caller<State>,
    vs: &mut Vs,
    back: &mut Back,
    first: u32,
    addr: u64,
    size: u64,
    n: u64,
    bucket: u8,
    zero: bool,
) -> Option<u64>
    requires bucket { bucket_of n ≡ Some bucket }
    requires page { first ≡ addr / 4096 }
    requires table { (c.old.table ≡ heap.now.table) × (c.old.opening ≡ heap.now.opening) }
    requires moving { (flags : AFlags) × (p : Place) × (out : List ℕ) × IsMovingOn c.old addr size n flags p out × (p.layer ≡ layers.Back) × (is_out whats.Vs out ≡ true) × TellsVs c.old vs.old × (is_out whats.Back out ≡ true) × TellsBack c.old back.old }
    requires cannot { CannotBeServed c.old bucket }
    ensures moved { IfSome result (λ b. (flags : AFlags) (p : Place) (out : List ℕ) → flags.zero ≡ zero → IsMovingOn c.old addr size n flags p out → p.layer ≡ layers.Back → is_out whats.Vs out ≡ true → TellsVs c.old vs.old → is_out whats.Back out ≡ true → TellsBack c.old back.old → MovesLate c.old c.new addr size n flags p b vs.new back.new) }
    ensures none { IfNone result (IsWithout c.old c.new n × (vs.new ≡ vs.old) × (back.new ≡ back.old)) }
{
    let Some(b) = hold_settled(heap, c, vs, back, n, bucket) else {
        return None;
    };
    c.check();
    move_words(heap, c, addr, size, b, n, zero);
    end_back(c, back, first, addr, size, b, n);
    Some(b)
}

/// As [`late_vs`], for a block of the large area, whose lock is held too.
pub(crate) fn late_large(
    heap: &Heap<State>,
    c: &mut Caller<State>,
    vs: &mut Vs,
    back: &mut Back,
    large: &mut Large,
    addr: u64,
    size: u64,
    n: u64,
    bucket: u8,
    zero: bool,
) -> Option<u64>
    requires bucket { bucket_of n ≡ Some bucket }
    requires table { (c.old.table ≡ heap.now.table) × (c.old.opening ≡ heap.now.opening) }
    requires moving { (flags : AFlags) × (p : Place) × (out : List ℕ) × IsMovingOn c.old addr size n flags p out × (p.layer ≡ layers.Large) × (is_out whats.Vs out ≡ true) × TellsVs c.old vs.old × (is_out whats.Back out ≡ true) × TellsBack c.old back.old × (is_out whats.Large out ≡ true) × TellsLarge c.old large.old }
    requires cannot { CannotBeServed c.old bucket }
    ensures moved { IfSome result (λ b. (flags : AFlags) (p : Place) (out : List ℕ) → flags.zero ≡ zero → IsMovingOn c.old addr size n flags p out → p.layer ≡ layers.Large → is_out whats.Vs out ≡ true → TellsVs c.old vs.old → is_out whats.Back out ≡ true → TellsBack c.old back.old → is_out whats.Large out ≡ true → TellsLarge c.old large.old → MovesLateLarge c.old c.new addr size n flags p b vs.new back.new large.new) }
    ensures none { IfNone result (IsWithout c.old c.new n × (vs.new ≡ vs.old) × (back.new ≡ back.old)) }
    ensures kept { IfNone result (large.new ≡ large.old) }
{
    let Some(b) = hold_settled(heap, c, vs, back, n, bucket) else {
        return None;
    };
    c.check();
    move_words(heap, c, addr, size, b, n, zero);
    end_large(c, large, addr, size, b, n);
    Some(b)
}
