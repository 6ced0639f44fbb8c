//! A block that moves to another place, under the locks of its layer and of the one where the new block goes.
ghost use Rattle.std.specs.Prelude.{◌≡◌, ◌/◌, ◌≤◌, Bool, ℕ, List, true, IfSome, IfNone};
ghost use Rattle.heap_model.specs.declared.Flags.{Flags as AFlags};
ghost use Rattle.heap_model.specs.declared.Layer.TheVariants as layers;
ghost use Rattle.heap_model.specs.declared.What.TheVariants as whats;
ghost use Rattle.heap_model.specs.State.{Place};
ghost use Rattle.heap_gate.specs.Token.{is_out};
ghost use Rattle.vs_calls.specs.Blocks.{IsForVs};
ghost use Rattle.move_parts.specs.Moves.{IsMoving, IsMovingAny, TellsVs, TellsBack};
ghost use Rattle.move_parts.specs.Places.{HasHeldAnew, IsWithout};
ghost use Rattle.move_parts.specs.Moved.{HasMovedLow};

use crate::ends::{end_back, end_vs};
use crate::holds::{hold_back, hold_vs};
use crate::words::move_words;
use backend_fit::Back;
use call_parts::State;
use heap_gate::{Caller, Heap};
use heap_model::MOST_VARIABLE;
use vs_layer::Vs;

/// Has a new block of at most 520,192 bytes in hand, which the front end does not serve, under the locks of the variable-size layer and
/// of the back end. Where no range is there for it, nothing changes.
pub fn hold_low(
    heap: &Heap<State>,
    c: &mut Caller<State>,
    vs: &mut Vs,
    back: &mut Back,
    n: u64,
) -> Option<u64>
    requires size { n ≤ 520192 }
    requires opening { c.old.opening ≡ heap.now.opening }
    requires moving { (taken : Bool) × (addr size : ℕ) × (flags : AFlags) × (p : Place) × (out : List ℕ) × IsMovingAny taken c.old addr size n flags p out × (is_out whats.Vs out ≡ true) × TellsVs c.old vs.old × (is_out whats.Back out ≡ true) × TellsBack c.old back.old }
    requires bucket { n ≤ 131072 → IsForVs c.old n }
    ensures held { IfSome result (λ b. (taken : Bool) (addr size : ℕ) (flags : AFlags) (p : Place) (out : List ℕ) → IsMovingAny taken c.old addr size n flags p out → is_out whats.Vs out ≡ true → TellsVs c.old vs.old → is_out whats.Back out ≡ true → TellsBack c.old back.old → HasHeldAnew taken c.old c.new addr size n flags p out b vs.new back.new) }
    ensures none { IfNone result (IsWithout c.old c.new n × (vs.new ≡ vs.old) × (back.new ≡ back.old)) }
{
    if n <= MOST_VARIABLE {
        return hold_vs(heap, c, vs, back, n);
    }
    hold_back(heap, c, back, n)
}

/// Moves a block of the variable-size layer to a new place of at most 520,192 bytes, which the front end does not serve, and zeroes the
/// words that it gains where `zero` is asked. Where no range is there for it, nothing changes. Both locks are held still.
pub fn move_vs(
    heap: &Heap<State>,
    c: &mut Caller<State>,
    vs: &mut Vs,
    back: &mut Back,
    addr: u64,
    size: u64,
    n: u64,
    zero: bool,
) -> Option<u64>
    requires size { n ≤ 520192 }
    requires table { (c.old.table ≡ heap.now.table) × (c.old.opening ≡ heap.now.opening) }
    requires moving { (flags : AFlags) × (p : Place) × (out : List ℕ) × IsMoving c.old addr size n flags p out × (p.layer ≡ layers.Vs) × (is_out whats.Vs out ≡ true) × TellsVs c.old vs.old × (is_out whats.Back out ≡ true) × TellsBack c.old back.old }
    requires bucket { n ≤ 131072 → IsForVs c.old n }
    ensures moved { IfSome result (λ b. (flags : AFlags) (p : Place) (out : List ℕ) → flags.zero ≡ zero → IsMoving c.old addr size n flags p out → p.layer ≡ layers.Vs → is_out whats.Vs out ≡ true → TellsVs c.old vs.old → is_out whats.Back out ≡ true → TellsBack c.old back.old → HasMovedLow c.old c.new addr size n flags p b vs.new back.new) }
    ensures none { IfNone result (IsWithout c.old c.new n × (vs.new ≡ vs.old) × (back.new ≡ back.old)) }
{
    let Some(b) = hold_low(heap, c, vs, back, n) else {
        return None;
    };
    c.check();
    move_words(heap, c, addr, size, b, n, zero);
    end_vs(c, vs, back, addr, size, b, n);
    Some(b)
}

/// As [`move_vs`], for a block of the back end, which begins at page `first`.
pub fn move_back(
    heap: &Heap<State>,
    c: &mut Caller<State>,
    vs: &mut Vs,
    back: &mut Back,
    first: u32,
    addr: u64,
    size: u64,
    n: u64,
    zero: bool,
) -> Option<u64>
    requires size { n ≤ 520192 }
    requires page { first ≡ addr / 4096 }
    requires table { (c.old.table ≡ heap.now.table) × (c.old.opening ≡ heap.now.opening) }
    requires moving { (flags : AFlags) × (p : Place) × (out : List ℕ) × IsMoving c.old addr size n flags p out × (p.layer ≡ layers.Back) × (is_out whats.Vs out ≡ true) × TellsVs c.old vs.old × (is_out whats.Back out ≡ true) × TellsBack c.old back.old }
    requires bucket { n ≤ 131072 → IsForVs c.old n }
    ensures moved { IfSome result (λ b. (flags : AFlags) (p : Place) (out : List ℕ) → flags.zero ≡ zero → IsMoving c.old addr size n flags p out → p.layer ≡ layers.Back → is_out whats.Vs out ≡ true → TellsVs c.old vs.old → is_out whats.Back out ≡ true → TellsBack c.old back.old → HasMovedLow c.old c.new addr size n flags p b vs.new back.new) }
    ensures none { IfNone result (IsWithout c.old c.new n × (vs.new ≡ vs.old) × (back.new ≡ back.old)) }
{
    let Some(b) = hold_low(heap, c, vs, back, n) else {
        return None;
    };
    c.check();
    move_words(heap, c, addr, size, b, n, zero);
    end_back(c, back, first, addr, size, b, n);
    Some(b)
}
