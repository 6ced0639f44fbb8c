//! The end of a move to the front end: the old block is taken, the new one given, and the old one dropped.
ghost use Rattle.std.specs.Prelude.{◌≡◌, ◌/◌, ℕ, List, true};
ghost use Rattle.heap_model.specs.declared.Call.{Call as ACall};
ghost use Rattle.heap_model.specs.declared.Layer.TheVariants as layers;
ghost use Rattle.heap_model.specs.declared.What.TheVariants as whats;
ghost use Rattle.heap_model.specs.State.{Place};
ghost use Rattle.heap_gate.specs.Token.{is_out};
ghost use Rattle.move_parts.specs.Moves.{TellsVs, TellsBack, TellsLarge};
ghost use Rattle.move_to_front.specs.Halfway.{IsHalfwayOver, HasSwappedOver};
ghost use Rattle.move_to_front.specs.Ends.{EndsVs, EndsBack, EndsLarge};

use backend_fit::Back;
use call_parts::State;
use heap_gate::{Caller, Heap, prepare, rest};
use heap_model::Act;
use large_blocks::Large;
use lfh_claims::publish;
use move_parts::end_span;
use vs_layer::Vs;

/// Gives the new block in hand `n` bytes, by one step that takes the old block before, and prepares that the old one is dropped.
fn swap(heap: &Heap<State>, c: &mut Caller<State>, addr: u64, size: u64, b: u64, n: u64)
    requires table { (c.old.table ≡ heap.now.table) × (c.old.opening ≡ heap.now.opening) }
    requires halfway { (call : ACall) × (p q : Place) × (out : List ℕ) × IsHalfwayOver c.old call addr size p b n q out }
    ensures { (call : ACall) (p q : Place) (out : List ℕ) → IsHalfwayOver c.old call addr size p b n q out → HasSwappedOver c.old c.new addr size p b n }
{
    c.check();
    prepare(c, Act::Take { addr, size });
    publish(heap, c, b, n);
    c.check();
    prepare(c, Act::Drop { addr });
}

/// Ends the move of a block of the large area, under its lock.
pub(crate) fn end_large(
    heap: &Heap<State>,
    c: &mut Caller<State>,
    large: &mut Large,
    addr: u64,
    size: u64,
    b: u64,
    n: u64,
)
    requires table { (c.old.table ≡ heap.now.table) × (c.old.opening ≡ heap.now.opening) }
    requires halfway { (call : ACall) × (p q : Place) × (out : List ℕ) × IsHalfwayOver c.old call addr size p b n q out × (p.layer ≡ layers.Large) × TellsLarge c.old large.old }
    ensures { (call : ACall) (p q : Place) (out : List ℕ) → IsHalfwayOver c.old call addr size p b n q out → p.layer ≡ layers.Large → TellsLarge c.old large.old → EndsLarge c.old c.new addr size b n large.new }
{
    c.check();
    let _blocks = large.blocks();
    swap(heap, c, addr, size, b, n);
    rest(c);
    large.give(addr);
}

/// Ends the move of a block of the back end, which begins at page `first`, under its lock: its span goes with it.
pub(crate) fn end_back(
    heap: &Heap<State>,
    c: &mut Caller<State>,
    back: &mut Back,
    first: u32,
    addr: u64,
    size: u64,
    b: u64,
    n: u64,
)
    requires page { first ≡ addr / 4096 }
    requires table { (c.old.table ≡ heap.now.table) × (c.old.opening ≡ heap.now.opening) }
    requires halfway { (call : ACall) × (p q : Place) × (out : List ℕ) × IsHalfwayOver c.old call addr size p b n q out × (p.layer ≡ layers.Back) × TellsBack c.old back.old }
    ensures { (call : ACall) (p q : Place) (out : List ℕ) → IsHalfwayOver c.old call addr size p b n q out → p.layer ≡ layers.Back → TellsBack c.old back.old → EndsBack c.old c.new addr size b n back.new }
{
    c.check();
    let _region = back.region();
    swap(heap, c, addr, size, b, n);
    c.check();
    prepare(c, Act::Unspan { first });
    rest(c);
    back.give(first);
}

/// Ends the move of a block of the variable-size layer, under its lock and that of the back end: its span goes with it where no block is
/// left in it.
pub(crate) fn end_vs(
    heap: &Heap<State>,
    c: &mut Caller<State>,
    vs: &mut Vs,
    back: &mut Back,
    addr: u64,
    size: u64,
    b: u64,
    n: u64,
)
    requires table { (c.old.table ≡ heap.now.table) × (c.old.opening ≡ heap.now.opening) }
    requires halfway { (call : ACall) × (p q : Place) × (out : List ℕ) × IsHalfwayOver c.old call addr size p b n q out × (p.layer ≡ layers.Vs) × (is_out whats.Back out ≡ true) × TellsVs c.old vs.old × TellsBack c.old back.old }
    ensures { (call : ACall) (p q : Place) (out : List ℕ) → IsHalfwayOver c.old call addr size p b n q out → p.layer ≡ layers.Vs → is_out whats.Back out ≡ true → TellsVs c.old vs.old → TellsBack c.old back.old → EndsVs c.old c.new addr size b n vs.new back.new }
{
    c.check();
    let _region = back.region();
    let _heads = vs.heads();
    swap(heap, c, addr, size, b, n);
    rest(c);
    match vs.drop_block(addr) {
        Some((first, _)) => end_span(c, back, first),
        None => {}
    }
}
