//! Allocations of at most 131,072 bytes, but for what the variable-size layer's lock leaves to do with that of the back end.
ghost use Rattle.std.specs.Prelude.{◌≡◌, List, Some};
ghost use Rattle.heap_model.specs.declared.Act.{Act};
ghost use Rattle.heap_model.specs.Buckets.{bucket_of};
ghost use Rattle.heap_gate.specs.Token.{Token};
ghost use Rattle.call_parts.specs.Calls.{GoesOn};
ghost use Rattle.small_calls.specs.Ways.{IsInactive, IsSpent, IsSpentUnderVs};
ghost use Rattle.small_calls.specs.Served.{ServesSmall};
ghost use Rattle.small_calls.specs.Late.{GoesLate, IsBackCall};

use crate::by_vs::{SmallTry, try_inactive};
use crate::no_room::{BehindNoSpan, go_on};
use crate::with_both::go_on_with_vs;
use backend_fit::Back;
use call_parts::State;
use heap_gate::{Caller, Heap};
use heap_model::AllocNo;
use random_pick::Draw;
use vs_layer::Vs;

/// What an allocation comes to, with two ways that go on under both locks.
#[derive(Drop)]
pub enum SmallCall {
    /// The block at this address is given. No lock is held.
    Placed { addr: u64 },
    /// There is no block, or another caller has a lock. None is held.
    Refused(AllocNo),
    /// The front end cannot serve the size, and the variable-size layer does. Both locks are held, that of the layer taken last.
    ForVs { vs: Vs, back: Back },
    /// As ForVs, where the lock of the layer was taken first.
    ForVsFirst { vs: Vs, back: Back },
}

/// Goes on with an allocation whose first pass of the front end is spent, by its draw; so many claims were lost.
#[inline(never)]
pub fn serve_spent(
    heap: &Heap<State>,
    c: &mut Caller<State>,
    bucket: u8,
    n: u64,
    zero: bool,
    lost: u32,
    draw: Draw,
) -> SmallCall
    requires table { (c.old.table ≡ heap.now.table) × (c.old.opening ≡ heap.now.opening) }
    requires bucket { bucket_of n ≡ Some bucket }
    requires spent { (first : Token) × IsSpent first c.old n zero bucket draw.value lost }
    ensures serves { (first : Token) → IsSpent first c.old n zero bucket draw.value lost → ServesSmall first c.new n zero result }
    ensures late { GoesLate c.old c.new bucket }
{
    match go_on(heap, c, bucket, n, zero, lost, draw) {
        BehindNoSpan::Busy(busy) => SmallCall::Refused(AllocNo::Busy(busy)),
        BehindNoSpan::Placed { addr } => SmallCall::Placed { addr },
        BehindNoSpan::ForVs { vs, back } => SmallCall::ForVs { vs, back },
    }
}

/// As [`serve_spent`], with the lock of the variable-size layer held.
fn serve_spent_with_vs(
    heap: &Heap<State>,
    c: &mut Caller<State>,
    vs: Vs,
    bucket: u8,
    n: u64,
    zero: bool,
    lost: u32,
    draw: Draw,
) -> SmallCall
    requires table { (c.old.table ≡ heap.now.table) × (c.old.opening ≡ heap.now.opening) }
    requires bucket { bucket_of n ≡ Some bucket }
    requires spent { (first : Token) × IsSpentUnderVs first c.old n zero bucket draw.value lost vs }
    ensures serves { (first : Token) → IsSpentUnderVs first c.old n zero bucket draw.value lost vs → ServesSmall first c.new n zero result }
    ensures goes { (rest : List Act) × GoesOn c.old c.new rest }
{
    match go_on_with_vs(heap, c, vs, bucket, n, zero, lost, draw) {
        BehindNoSpan::Busy(busy) => SmallCall::Refused(AllocNo::Busy(busy)),
        BehindNoSpan::Placed { addr } => SmallCall::Placed { addr },
        BehindNoSpan::ForVs { vs, back } => SmallCall::ForVsFirst { vs, back },
    }
}

/// Allocates `n` bytes whose bucket was not active, zeroed if that is asked: as [`try_inactive`], and on from there. No lock is waited
/// for: each is tried once.
#[inline(never)]
pub fn serve_inactive(
    heap: &Heap<State>,
    c: &mut Caller<State>,
    bucket: u8,
    n: u64,
    zero: bool,
) -> SmallCall
    requires table { (c.old.table ≡ heap.now.table) × (c.old.opening ≡ heap.now.opening) }
    requires bucket { bucket_of n ≡ Some bucket }
    requires inactive { (first : Token) × IsInactive first c.old n zero }
    ensures serves { (first : Token) → IsInactive first c.old n zero → ServesSmall first c.new n zero result }
    ensures backs { (first : Token) → IsInactive first c.old n zero → IsBackCall first c.new n result }
{
    match try_inactive(heap, c, bucket, n, zero) {
        SmallTry::Placed { addr } => SmallCall::Placed { addr },
        SmallTry::Refused(no) => SmallCall::Refused(no),
        SmallTry::SpentUnderVs {
            vs,
            bucket,
            lost,
            draw,
        } => serve_spent_with_vs(heap, c, vs, bucket, n, zero, lost, draw),
    }
}
