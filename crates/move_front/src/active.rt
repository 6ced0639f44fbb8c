//! Whether the front end serves a bucket, as the holder of the variable-size layer's lock knows it.
ghost use Rattle.std.specs.Prelude.{◌≡◌};
ghost use Rattle.lfh_buckets.specs.Blocks.{IsBucket};
ghost use Rattle.heap_gate.specs.Token.{Always};
ghost use Rattle.lfh_claims.specs.Search.{own_slot};
ghost use Rattle.move_front.specs.Front.{IsToPlace, TellsVs, Activates};

use call_parts::State;
use heap_gate::{Caller, Heap};
use lfh_claims::set_active;
use vs_layer::Vs;

/// Whether a bucket is active, or is due and becomes active here, for a call that has to place a block of it.
pub fn activate(heap: &Heap<State>, c: &mut Caller<State>, vs: &mut Vs, bucket: u8) -> bool
    requires table { (c.old.table ≡ heap.now.table) × (c.old.opening ≡ heap.now.opening) }
    requires bucket { IsBucket bucket }
    requires asks { IsToPlace c.old bucket }
    requires vs { TellsVs c.old vs.old }
    ensures { Activates c.old c.new vs.old vs.new bucket result }
{
    if vs.is_active(bucket) {
        return true;
    }
    if !vs.due(bucket) {
        return false;
    }
    c.check();
    check_slot(c);
    vs.set_active(bucket);
    set_active(heap, c, bucket);
    check_slot(c);
    true
}

/// Nothing at run time: it tells a proof that each setting has the caller's slot.
pub fn check_slot(c: &Caller<State>)
    ensures { Always c.now (λ s. s.slot c.now.number ≡ own_slot c.now) }
{
    let _number = c.number;
}
