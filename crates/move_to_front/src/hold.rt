//! A new block of the front end for one that moves.
ghost use Rattle.std.specs.Prelude.{◌≡◌, ◌≤◌, ℕ, List, Some, true};
ghost use Rattle.heap_model.specs.declared.Flags.{Flags as AFlags};
ghost use Rattle.heap_model.specs.declared.What.TheVariants as whats;
ghost use Rattle.heap_model.specs.Buckets.{bucket_of};
ghost use Rattle.heap_model.specs.State.{Place};
ghost use Rattle.heap_gate.specs.Token.{is_out};
ghost use Rattle.move_parts.specs.Moves.{IsMoving, TellsVs, TellsBack};
ghost use Rattle.move_to_front.specs.Halfway.{HoldsNew};

use backend_fit::Back;
use call_parts::State;
use heap_gate::{Caller, Heap};
use move_front::{Front, hold_front};
use stay_calls::hear;
use vs_layer::Vs;

/// Has a block of the front end in hand for one that moves, under the locks of the variable-size layer and of the back end: of a bucket
/// that is active, or due, and becomes active. Where nothing of the front end was asked, nothing changes.
pub(crate) fn hold_new(
    heap: &Heap<State>,
    c: &mut Caller<State>,
    vs: &mut Vs,
    back: &mut Back,
    n: u64,
    bucket: u8,
) -> Front
    requires size { n ≤ 16368 }
    requires bucket { bucket_of n ≡ Some bucket }
    requires table { (c.old.table ≡ heap.now.table) × (c.old.opening ≡ heap.now.opening) }
    requires moving { (addr size : ℕ) × (flags : AFlags) × (p : Place) × (out : List ℕ) × IsMoving c.old addr size n flags p out × (is_out whats.Vs out ≡ true) × TellsVs c.old vs.old × (is_out whats.Back out ≡ true) × TellsBack c.old back.old }
    ensures { (addr size : ℕ) (flags : AFlags) (p : Place) (out : List ℕ) → IsMoving c.old addr size n flags p out → is_out whats.Vs out ≡ true → TellsVs c.old vs.old → is_out whats.Back out ≡ true → TellsBack c.old back.old → HoldsNew c.old c.new addr size n flags p out vs.old vs.new back.old back.new bucket result }
{
    let _limits = heap.limits();
    c.check();
    match hold_front(heap, c, vs, back, bucket) {
        Front::Held { addr } => {
            c.check();
            hear(heap, c);
            c.check();
            Front::Held { addr }
        }
        Front::NoRoom => {
            c.check();
            hear(heap, c);
            c.check();
            Front::NoRoom
        }
        Front::Idle => Front::Idle,
    }
}
