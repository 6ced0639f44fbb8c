//! The words of a block that moves to the front end, and the end of its move.
ghost use Rattle.std.specs.Prelude.{◌≡◌, ◌/◌, ℕ, List, true};
ghost use Rattle.heap_model.specs.declared.Flags.{Flags as AFlags};
ghost use Rattle.heap_model.specs.declared.Call.TheVariants as calls;
ghost use Rattle.heap_model.specs.declared.Layer.TheVariants as layers;
ghost use Rattle.heap_model.specs.declared.What.TheVariants as whats;
ghost use Rattle.heap_model.specs.State.{Place};
ghost use Rattle.heap_gate.specs.Token.{is_out};
ghost use Rattle.move_parts.specs.Moves.{TellsVs, TellsBack, TellsLarge};
ghost use Rattle.move_to_front.specs.Halfway.{IsHalfwayOver};
ghost use Rattle.move_to_front.specs.Ends.{FillsAndEndsVs, FillsAndEndsBack, FillsAndEndsLarge};

use crate::ends::{end_back, end_large, end_vs};
use backend_fit::Back;
use call_parts::State;
use heap_gate::{Caller, Heap};
use large_blocks::Large;
use move_parts::move_words;
use vs_layer::Vs;

/// Moves the words of a block of the variable-size layer to the new one in hand, and ends the move.
pub(crate) fn front_vs(
    heap: &Heap<State>,
    c: &mut Caller<State>,
    vs: &mut Vs,
    back: &mut Back,
    addr: u64,
    size: u64,
    b: u64,
    n: u64,
    zero: bool,
)
    requires table { (c.old.table ≡ heap.now.table) × (c.old.opening ≡ heap.now.opening) }
    requires halfway { (flags : AFlags) × (p q : Place) × (out : List ℕ) × IsHalfwayOver c.old (calls.Realloc addr n flags) addr size p b n q out × (p.layer ≡ layers.Vs) × (is_out whats.Vs out ≡ true) × TellsVs c.old vs.old × (is_out whats.Back out ≡ true) × TellsBack c.old back.old }
    ensures { (flags : AFlags) (p q : Place) (out : List ℕ) → IsHalfwayOver c.old (calls.Realloc addr n flags) addr size p b n q out → p.layer ≡ layers.Vs → is_out whats.Vs out ≡ true → TellsVs c.old vs.old → is_out whats.Back out ≡ true → TellsBack c.old back.old → FillsAndEndsVs c.old c.new addr size b n zero vs.new back.new }
{
    c.check();
    move_words(heap, c, addr, size, b, n, zero);
    end_vs(heap, c, vs, back, addr, size, b, n);
}

/// .. of a block of the back end, which begins at page `first`.
pub(crate) fn front_back(
    heap: &Heap<State>,
    c: &mut Caller<State>,
    back: &mut Back,
    first: u32,
    addr: u64,
    size: u64,
    b: u64,
    n: u64,
    zero: bool,
)
    requires page { first ≡ addr / 4096 }
    requires table { (c.old.table ≡ heap.now.table) × (c.old.opening ≡ heap.now.opening) }
    requires halfway { (flags : AFlags) × (p q : Place) × (out : List ℕ) × IsHalfwayOver c.old (calls.Realloc addr n flags) addr size p b n q out × (p.layer ≡ layers.Back) × (is_out whats.Back out ≡ true) × TellsBack c.old back.old }
    ensures { (flags : AFlags) (p q : Place) (out : List ℕ) → IsHalfwayOver c.old (calls.Realloc addr n flags) addr size p b n q out → p.layer ≡ layers.Back → is_out whats.Back out ≡ true → TellsBack c.old back.old → FillsAndEndsBack c.old c.new addr size b n zero back.new }
{
    c.check();
    move_words(heap, c, addr, size, b, n, zero);
    end_back(heap, c, back, first, addr, size, b, n);
}

/// .. of a block of the large area.
pub(crate) fn front_large(
    heap: &Heap<State>,
    c: &mut Caller<State>,
    large: &mut Large,
    addr: u64,
    size: u64,
    b: u64,
    n: u64,
    zero: bool,
)
    requires table { (c.old.table ≡ heap.now.table) × (c.old.opening ≡ heap.now.opening) }
    requires halfway { (flags : AFlags) × (p q : Place) × (out : List ℕ) × IsHalfwayOver c.old (calls.Realloc addr n flags) addr size p b n q out × (p.layer ≡ layers.Large) × (is_out whats.Large out ≡ true) × TellsLarge c.old large.old }
    ensures { (flags : AFlags) (p q : Place) (out : List ℕ) → IsHalfwayOver c.old (calls.Realloc addr n flags) addr size p b n q out → p.layer ≡ layers.Large → is_out whats.Large out ≡ true → TellsLarge c.old large.old → FillsAndEndsLarge c.old c.new addr size b n zero large.new }
{
    c.check();
    move_words(heap, c, addr, size, b, n, zero);
    end_large(heap, c, large, addr, size, b, n);
}
