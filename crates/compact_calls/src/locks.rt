//! The locks of the layers, taken by the owner of the heap lock: nobody else has one.
ghost use Rattle.std.specs.Prelude.{◌≡◌, ◌≢◌, true, false, []};
ghost use Rattle.heap_model.specs.declared.What.TheVariants as whats;
ghost use Rattle.heap_gate.specs.Token.{is_out};
ghost use Rattle.heap_gate.specs.Calls.{HasTaken};
ghost use Rattle.backend_fit.specs.Kept as backs;
ghost use Rattle.large_blocks.specs.Table as larges;
ghost use Rattle.vs_layer.specs.Standing as vss;

use backend_fit::Back;
use call_parts::{State, take_back, take_large, take_vs};
use heap_gate::{Caller, Heap};
use large_blocks::Large;
use vs_layer::Vs;

/// Takes the lock of the variable-size layer.
pub fn own_vs(heap: &Heap<State>, c: &mut Caller<State>) -> Vs
    requires table { c.old.table ≡ heap.now.table }
    requires ready { (c.old.whole ≡ true) × (c.old.prepared ≡ []) }
    requires owns { c.old.depth ≢ 0 }
    requires lock { is_out whats.Vs c.old.out ≡ false }
    ensures { HasTaken vss.layer_of c.old c.new whats.Vs result }
{
    c.check();
    match take_vs(heap, c) {
        Ok(vs) => vs,
        Err(_) => unreachable!(),
    }
}

/// Takes the lock of the back end.
pub fn own_back(heap: &Heap<State>, c: &mut Caller<State>) -> Back
    requires table { c.old.table ≡ heap.now.table }
    requires ready { (c.old.whole ≡ true) × (c.old.prepared ≡ []) }
    requires owns { c.old.depth ≢ 0 }
    requires lock { is_out whats.Back c.old.out ≡ false }
    ensures { HasTaken backs.layer_of c.old c.new whats.Back result }
{
    c.check();
    match take_back(heap, c) {
        Ok(back) => back,
        Err(_) => unreachable!(),
    }
}

/// Takes the lock of the large area.
pub fn own_large(heap: &Heap<State>, c: &mut Caller<State>) -> Large
    requires table { c.old.table ≡ heap.now.table }
    requires ready { (c.old.whole ≡ true) × (c.old.prepared ≡ []) }
    requires owns { c.old.depth ≢ 0 }
    requires lock { is_out whats.Large c.old.out ≡ false }
    ensures { HasTaken larges.layer_of c.old c.new whats.Large result }
{
    c.check();
    match take_large(heap, c) {
        Ok(large) => large,
        Err(_) => unreachable!(),
    }
}
