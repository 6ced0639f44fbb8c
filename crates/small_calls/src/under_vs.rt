//! An allocation of a bucket that was not active, under the lock of the variable-size layer.
ghost use Rattle.std.specs.Prelude.{◌≡◌, Some, [], true};
ghost use Rattle.heap_model.specs.Buckets.{bucket_of};
ghost use Rattle.heap_gate.specs.Token.{Always, now};
ghost use Rattle.small_calls.specs.Fronts.{IsAsking};
ghost use Rattle.small_calls.specs.Ways.{AsksUnderVs, ServesWithVs, TriesUnderVs};
ghost use Rattle.small_calls.specs.Late.{LeavesWithVs, LeavesUnderVs};

use crate::front::{ByHint, serve_by_hint};
use crate::ways::is_front;
use call_parts::{State, give_vs, take_vs};
use heap_gate::{Caller, Heap};
use heap_model::Busy;
use random_pick::Draw;
use vs_layer::Vs;

/// What the first pass of the front end comes to with the lock held.
#[derive(Drop)]
pub enum WithVs {
    /// The block at this address is given, and so is the lock.
    Placed { addr: u64 },
    /// The search goes on under the back end's lock too, by this draw; so many claims were lost.
    Spent { vs: Vs, lost: u32, draw: Draw },
}

/// What an allocation comes to that looks at its bucket under the lock.
#[derive(Drop)]
pub enum UnderVs {
    /// Another caller has the lock.
    Busy(Busy),
    /// The block at this address is given, by the front end, and so is the lock.
    Placed { addr: u64 },
    /// The variable-size layer serves the size; its lock is held.
    ForVs(Vs),
    /// The search of the front end goes on under the back end's lock too, by this draw; so many claims were lost.
    Spent { vs: Vs, lost: u32, draw: Draw },
}

/// Searches an active bucket from its hint on with the lock of the variable-size layer held, and gives that back behind a block.
fn serve_with_vs(
    heap: &Heap<State>,
    c: &mut Caller<State>,
    vs: Vs,
    bucket: u8,
    n: u64,
    zero: bool,
) -> WithVs
    requires table { (c.old.table ≡ heap.now.table) × (c.old.opening ≡ heap.now.opening) }
    requires bucket { bucket_of n ≡ Some bucket }
    requires asks { AsksUnderVs c.old n zero vs }
    requires active { Always c.old (λ s. (now s c.old).state.vs.active bucket ≡ true) }
    ensures serves { ServesWithVs c.old c.new bucket result }
    ensures leaves { LeavesWithVs c.old c.new result }
{
    c.check();
    match serve_by_hint(heap, c, bucket, n, zero) {
        ByHint::Placed { addr } => {
            give_vs(heap, c, vs);
            WithVs::Placed { addr }
        }
        ByHint::Spent { lost, draw } => WithVs::Spent { vs, lost, draw },
    }
}

/// Allocates `n` bytes whose bucket was not active: takes the lock of the variable-size layer, and looks again. A bucket that is due
/// becomes active, and an active one is searched from its hint on.
pub fn try_under_vs(
    heap: &Heap<State>,
    c: &mut Caller<State>,
    bucket: u8,
    n: u64,
    zero: bool,
) -> UnderVs
    requires table { (c.old.table ≡ heap.now.table) × (c.old.opening ≡ heap.now.opening) }
    requires bucket { bucket_of n ≡ Some bucket }
    requires asking { IsAsking c.old n zero [] }
    ensures tries { TriesUnderVs c.old c.new bucket n zero result }
    ensures leaves { LeavesUnderVs c.old c.new result }
{
    let mut vs = match take_vs(heap, c) {
        Ok(vs) => vs,
        Err(busy) => return UnderVs::Busy(busy),
    };
    if !is_front(heap, c, &mut vs, bucket) {
        return UnderVs::ForVs(vs);
    }
    match serve_with_vs(heap, c, vs, bucket, n, zero) {
        WithVs::Placed { addr } => UnderVs::Placed { addr },
        WithVs::Spent { vs, lost, draw } => UnderVs::Spent { vs, lost, draw },
    }
}
