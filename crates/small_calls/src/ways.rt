//! The first try of an allocation, which takes no lock, and what the holder of the variable-size layer's lock sees of a bucket.
ghost use Rattle.std.specs.Prelude.{◌≡◌, ℕ, Bool, Some, []};
ghost use Rattle.heap_model.specs.Buckets.{bucket_of};
ghost use Rattle.small_calls.specs.Fronts.{IsAsking};
ghost use Rattle.small_calls.specs.Ways.{Tries, AsksUnderVs, LooksUnderVs};
ghost use Rattle.small_calls.specs.Late.{IsFirstTry};

use crate::front::{ByHint, serve_by_hint};
use call_parts::State;
use heap_gate::{Caller, Heap};
use lfh_claims::{active_of, set_active};
use random_pick::Draw;
use vs_layer::Vs;

/// What the first try of an allocation comes to.
#[derive(Clone, Copy, Debug)]
pub enum FirstTry {
    /// The bucket was not active.
    Inactive,
    /// The block at this address is given.
    Placed { addr: u64 },
    /// The search goes on under the back end's lock, by this draw; so many claims were lost.
    Spent { lost: u32, draw: Draw },
}

/// Allocates `n` bytes in the front end where their bucket is active and its hint leads to a free block, zeroed if that is asked. It
/// takes no lock: it reads the active word, the hint, words of the one subsegment that the hint names, and claims a block.
pub fn try_front(
    heap: &Heap<State>,
    c: &mut Caller<State>,
    bucket: u8,
    n: u64,
    zero: bool,
) -> FirstTry
    requires table { (c.old.table ≡ heap.now.table) × (c.old.opening ≡ heap.now.opening) }
    requires bucket { bucket_of n ≡ Some bucket }
    requires asking { IsAsking c.old n zero [] }
    ensures tries { Tries c.old c.new bucket n zero result }
    ensures late { IsFirstTry c.old c.new bucket result }
{
    if !active_of(heap, c, bucket) {
        return FirstTry::Inactive;
    }
    match serve_by_hint(heap, c, bucket, n, zero) {
        ByHint::Placed { addr } => FirstTry::Placed { addr },
        ByHint::Spent { lost, draw } => FirstTry::Spent { lost, draw },
    }
}

/// Whether the front end serves a bucket, as the holder of the variable-size layer's lock knows it, with the layer's state: it is
/// active, or it is due and becomes active here.
pub fn is_front(heap: &Heap<State>, c: &mut Caller<State>, vs: &mut Vs, bucket: u8) -> bool
    requires table { (c.old.table ≡ heap.now.table) × (c.old.opening ≡ heap.now.opening) }
    requires asks { (n : ℕ) × (zero : Bool) × AsksUnderVs c.old n zero vs.old × (bucket_of n ≡ Some bucket) }
    ensures { (n : ℕ) (zero : Bool) → AsksUnderVs c.old n zero vs.old → bucket_of n ≡ Some bucket → LooksUnderVs c.old c.new vs.old vs.new n zero bucket result }
{
    if vs.is_active(bucket) {
        return true;
    }
    if !vs.due(bucket) {
        return false;
    }
    c.check();
    vs.set_active(bucket);
    set_active(heap, c, bucket);
    true
}
