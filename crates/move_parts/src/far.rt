//! A block that moves from the large area or to it, under the locks of both layers.
ghost use Rattle.std.specs.Prelude.{◌≡◌, ◌/◌, ◌≤◌, ℕ, List, true, IfSome, IfNone};
ghost use Rattle.heap_model.specs.declared.Flags.{Flags as AFlags};
ghost use Rattle.heap_model.specs.declared.Layer.TheVariants as layers;
ghost use Rattle.heap_model.specs.declared.What.TheVariants as whats;
ghost use Rattle.heap_model.specs.State.{Place};
ghost use Rattle.heap_gate.specs.Token.{is_out};
ghost use Rattle.vs_calls.specs.Blocks.{IsForVs};
ghost use Rattle.move_parts.specs.Moves.{IsMoving, TellsVs, TellsBack, TellsLarge};
ghost use Rattle.move_parts.specs.Places.{IsWithout};
ghost use Rattle.move_parts.specs.Moved.{HasMovedAll, HasMovedPaged, HasMovedLarge};

use crate::ends::{end_back, end_large, end_vs};
use crate::holds::hold_large;
use crate::moves::hold_low;
use crate::words::move_words;
use backend_fit::Back;
use call_parts::State;
use heap_gate::{Caller, Heap};
use large_blocks::Large;
use vs_layer::Vs;

/// Moves a block of the large area to a new place there. Where no range is there for it, nothing changes. The lock is held still.
pub fn move_large(
    heap: &Heap<State>,
    c: &mut Caller<State>,
    large: &mut Large,
    addr: u64,
    size: u64,
    n: u64,
    zero: bool,
) -> Option<u64>
    requires size { 520193 ≤ n }
    requires table { (c.old.table ≡ heap.now.table) × (c.old.opening ≡ heap.now.opening) }
    requires moving { (flags : AFlags) × (p : Place) × (out : List ℕ) × IsMoving c.old addr size n flags p out × (p.layer ≡ layers.Large) × (is_out whats.Large out ≡ true) × TellsLarge c.old large.old }
    ensures moved { IfSome result (λ b. (flags : AFlags) (p : Place) (out : List ℕ) → flags.zero ≡ zero → IsMoving c.old addr size n flags p out → p.layer ≡ layers.Large → is_out whats.Large out ≡ true → TellsLarge c.old large.old → HasMovedLarge c.old c.new addr size n flags p b large.new) }
    ensures none { IfNone result (IsWithout c.old c.new n × (large.new ≡ large.old)) }
{
    let Some(b) = hold_large(heap, c, large, n) else {
        return None;
    };
    c.check();
    move_words(heap, c, addr, size, b, n, zero);
    end_large(c, large, addr, size, b, n);
    Some(b)
}

/// Moves a block of the large area to a new place of at most 520,192 bytes, which the front end does not serve.
/// Where no range is there for it, nothing changes. All locks are held still.
pub fn move_large_low(
    heap: &Heap<State>,
    c: &mut Caller<State>,
    vs: &mut Vs,
    back: &mut Back,
    large: &mut Large,
    addr: u64,
    size: u64,
    n: u64,
    zero: bool,
) -> Option<u64>
    requires size { n ≤ 520192 }
    requires table { (c.old.table ≡ heap.now.table) × (c.old.opening ≡ heap.now.opening) }
    requires moving { (flags : AFlags) × (p : Place) × (out : List ℕ) × IsMoving c.old addr size n flags p out × (p.layer ≡ layers.Large) × (is_out whats.Vs out ≡ true) × TellsVs c.old vs.old × (is_out whats.Back out ≡ true) × TellsBack c.old back.old × (is_out whats.Large out ≡ true) × TellsLarge c.old large.old }
    requires bucket { n ≤ 131072 → IsForVs c.old n }
    ensures moved { IfSome result (λ b. (flags : AFlags) (p : Place) (out : List ℕ) → flags.zero ≡ zero → IsMoving c.old addr size n flags p out → p.layer ≡ layers.Large → is_out whats.Vs out ≡ true → TellsVs c.old vs.old → is_out whats.Back out ≡ true → TellsBack c.old back.old → is_out whats.Large out ≡ true → TellsLarge c.old large.old → HasMovedAll c.old c.new addr size n flags p b vs.new back.new large.new) }
    ensures none { IfNone result (IsWithout c.old c.new n × (vs.new ≡ vs.old) × (back.new ≡ back.old)) }
    ensures kept { IfNone result (large.new ≡ large.old) }
{
    let Some(b) = hold_low(heap, c, vs, back, n) else {
        return None;
    };
    c.check();
    move_words(heap, c, addr, size, b, n, zero);
    end_large(c, large, addr, size, b, n);
    Some(b)
}

/// Moves a block of the back end, which begins at page `first`, to a new place in the large area. Where no range is there for it,
/// nothing changes. Both locks are held still.
pub fn move_back_far(
    heap: &Heap<State>,
    c: &mut Caller<State>,
    back: &mut Back,
    large: &mut Large,
    first: u32,
    addr: u64,
    size: u64,
    n: u64,
    zero: bool,
) -> Option<u64>
    requires size { 520193 ≤ n }
    requires page { first ≡ addr / 4096 }
    requires table { (c.old.table ≡ heap.now.table) × (c.old.opening ≡ heap.now.opening) }
    requires moving { (flags : AFlags) × (p : Place) × (out : List ℕ) × IsMoving c.old addr size n flags p out × (p.layer ≡ layers.Back) × (is_out whats.Back out ≡ true) × TellsBack c.old back.old × (is_out whats.Large out ≡ true) × TellsLarge c.old large.old }
    ensures moved { IfSome result (λ b. (flags : AFlags) (p : Place) (out : List ℕ) → flags.zero ≡ zero → IsMoving c.old addr size n flags p out → p.layer ≡ layers.Back → is_out whats.Back out ≡ true → TellsBack c.old back.old → is_out whats.Large out ≡ true → TellsLarge c.old large.old → HasMovedPaged c.old c.new addr size n flags p b back.new large.new) }
    ensures none { IfNone result (IsWithout c.old c.new n × (large.new ≡ large.old)) }
    ensures kept { IfNone result (back.new ≡ back.old) }
{
    let Some(b) = hold_large(heap, c, large, n) else {
        return None;
    };
    c.check();
    move_words(heap, c, addr, size, b, n, zero);
    end_back(c, back, first, addr, size, b, n);
    Some(b)
}

/// Moves a block of the variable-size layer to a new place in the large area. Where no range is there for it, nothing changes. All
/// locks are held still.
pub fn move_vs_far(
    heap: &Heap<State>,
    c: &mut Caller<State>,
    vs: &mut Vs,
    back: &mut Back,
    large: &mut Large,
    addr: u64,
    size: u64,
    n: u64,
    zero: bool,
) -> Option<u64>
    requires size { 520193 ≤ n }
    requires table { (c.old.table ≡ heap.now.table) × (c.old.opening ≡ heap.now.opening) }
    requires moving { (flags : AFlags) × (p : Place) × (out : List ℕ) × IsMoving c.old addr size n flags p out × (p.layer ≡ layers.Vs) × (is_out whats.Vs out ≡ true) × TellsVs c.old vs.old × (is_out whats.Back out ≡ true) × TellsBack c.old back.old × (is_out whats.Large out ≡ true) × TellsLarge c.old large.old }
    ensures moved { IfSome result (λ b. (flags : AFlags) (p : Place) (out : List ℕ) → flags.zero ≡ zero → IsMoving c.old addr size n flags p out → p.layer ≡ layers.Vs → is_out whats.Vs out ≡ true → TellsVs c.old vs.old → is_out whats.Back out ≡ true → TellsBack c.old back.old → is_out whats.Large out ≡ true → TellsLarge c.old large.old → HasMovedAll c.old c.new addr size n flags p b vs.new back.new large.new) }
    ensures none { IfNone result (IsWithout c.old c.new n × (large.new ≡ large.old)) }
    ensures kept { IfNone result ((vs.new ≡ vs.old) × (back.new ≡ back.old)) }
{
    let Some(b) = hold_large(heap, c, large, n) else {
        return None;
    };
    c.check();
    move_words(heap, c, addr, size, b, n, zero);
    end_vs(c, vs, back, addr, size, b, n);
    Some(b)
}
