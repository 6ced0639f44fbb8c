//! Allocations that the variable-size layer serves: of a size without a bucket, or of one whose bucket is neither active nor due.
ghost use Rattle.std.specs.Prelude.{◌≡◌, ◌≤◌, [], None, Some, IfOk, IfErr};
ghost use Rattle.heap_model.specs.Buckets.{bucket_of};
ghost use Rattle.paged_calls.specs.Parts.{IsAllocating, Places};
ghost use Rattle.small_calls.specs.Fronts.{IsAsking};
ghost use Rattle.small_calls.specs.ByVs.{IsRefusedByVs, TriesSmall};
ghost use Rattle.small_calls.specs.Late.{BacksLate, IsBackTry};

use crate::under_vs::{UnderVs, try_under_vs};
use call_parts::{State, take_vs};
use heap_gate::{Caller, Heap};
use heap_model::AllocNo;
use random_pick::Draw;
use vs_calls::place_in_vs;
use vs_layer::Vs;

/// What an allocation comes to that has not searched under the lock of the back end.
#[derive(Drop)]
pub enum SmallTry {
    /// The block at this address is given, by one of the two layers. No lock is held.
    Placed {
        addr: u64,
    },
    /// There is no block, or another caller has a lock. None is held.
    Refused(AllocNo),
    /// The search of the bucket, which has become active, goes on under the back end's lock, by this draw; so many claims were lost. The
    /// lock of the variable-size layer is held.
    SpentUnderVs {
        vs: Vs,
        bucket: u8,
        lost: u32,
        draw: Draw,
    },
}

/// Places a block of `n` bytes, at most 131,072 and too many for a bucket, in the variable-size layer, and gives it; where `zero` is
/// asked its words are 0. The layer's lock is tried once, and that of the back end only where no gap holds the block.
#[inline(never)]
pub fn place_by_vs(
    heap: &Heap<State>,
    c: &mut Caller<State>,
    n: u64,
    zero: bool,
) -> Result<u64, AllocNo>
    requires size { n ≤ 131072 }
    requires bucket { bucket_of n ≡ None }
    requires table { (c.old.table ≡ heap.now.table) × (c.old.opening ≡ heap.now.opening) }
    requires allocating { IsAllocating c.old n zero }
    ensures placed { IfOk result (λ addr. Places c.old c.new addr) }
    ensures refused { IfErr result (λ no. IsRefusedByVs n c.old c.new no) }
    ensures backs { BacksLate c.old c.new n }
{
    let vs = match take_vs(heap, c) {
        Ok(vs) => vs,
        Err(busy) => return Err(AllocNo::Busy(busy)),
    };
    place_in_vs(heap, c, vs, n, zero)
}

/// Allocates `n` bytes whose bucket was not active. The lock of the variable-size layer is tried once: a bucket that is due becomes
/// active, and an active one is searched from its hint on; else the layer itself serves the size.
pub fn try_inactive(
    heap: &Heap<State>,
    c: &mut Caller<State>,
    bucket: u8,
    n: u64,
    zero: bool,
) -> SmallTry
    requires table { (c.old.table ≡ heap.now.table) × (c.old.opening ≡ heap.now.opening) }
    requires bucket { bucket_of n ≡ Some bucket }
    requires asking { IsAsking c.old n zero [] }
    ensures tries { TriesSmall c.old c.new n zero result }
    ensures backs { IsBackTry c.old c.new n result }
{
    let vs = match try_under_vs(heap, c, bucket, n, zero) {
        UnderVs::Busy(busy) => return SmallTry::Refused(AllocNo::Busy(busy)),
        UnderVs::Placed { addr } => return SmallTry::Placed { addr },
        UnderVs::Spent { vs, lost, draw } => {
            return SmallTry::SpentUnderVs {
                vs,
                bucket,
                lost,
                draw,
            };
        }
        UnderVs::ForVs(vs) => vs,
    };
    match place_in_vs(heap, c, vs, n, zero) {
        Ok(addr) => SmallTry::Placed { addr },
        Err(no) => SmallTry::Refused(no),
    }
}
