//! Allocations of at most 131,072 bytes.
ghost use Rattle.std.specs.Prelude.{◌≡◌, ◌≤◌, List, Some, IfOk, IfErr};
ghost use Rattle.heap_model.specs.declared.Act.{Act};
ghost use Rattle.heap_model.specs.Buckets.{bucket_of};
ghost use Rattle.heap_gate.specs.Token.{Token};
ghost use Rattle.call_parts.specs.Calls.{GoesOn};
ghost use Rattle.paged_calls.specs.Parts.{IsAllocating, Places};
ghost use Rattle.small_calls.specs.Ways.{IsInactive, IsSpent};
ghost use Rattle.small_calls.specs.Served.{ServesSmall};
ghost use Rattle.small_calls.specs.Late.{IsLate, IsLateCall, BacksLate, IsBackCall};
ghost use Rattle.fall_calls.specs.Falls.{IsFallen, IsRefused};

use crate::behind::place_behind;
use backend_fit::Back;
use call_parts::State;
use heap_gate::{Caller, Heap};
use heap_model::AllocNo;
use lfh_buckets::bucket_of;
use random_pick::Draw;
use small_calls::{FirstTry, SmallCall, place_by_vs, serve_inactive, serve_spent, try_front};
use vs_layer::Vs;

/// Goes on under both locks, as [`place_behind`].
fn go_on_behind(
    heap: &Heap<State>,
    c: &mut Caller<State>,
    vs: Vs,
    back: Back,
    n: u64,
    zero: bool,
    vs_last: bool,
) -> Result<u64, AllocNo>
    requires table { (c.old.table ≡ heap.now.table) × (c.old.opening ≡ heap.now.opening) }
    requires fallen { (first : Token) × IsFallen first c.old vs back n zero vs_last }
    ensures placed { IfOk result (λ addr. (first : Token) → IsFallen first c.old vs back n zero vs_last → Places first c.new addr) }
    ensures refused { IfErr result (λ no. (first : Token) → IsFallen first c.old vs back n zero vs_last → IsRefused n first c.new no) }
    ensures goes { (rest : List Act) × GoesOn c.old c.new rest }
{
    match place_behind(heap, c, vs, back, n, zero, vs_last) {
        Some(addr) => Ok(addr),
        None => Err(AllocNo::NoFit),
    }
}

/// Ends an allocation by what it came to: where both locks are held still, it goes on under them.
fn finish(
    heap: &Heap<State>,
    c: &mut Caller<State>,
    n: u64,
    zero: bool,
    came: SmallCall,
) -> Result<u64, AllocNo>
    requires came { (first : Token) × (first.table ≡ heap.now.table) × (first.opening ≡ heap.now.opening) × ServesSmall first c.old n zero came }
    ensures placed { IfOk result (λ addr. (first : Token) → ServesSmall first c.old n zero came → Places first c.new addr) }
    ensures refused { IfErr result (λ no. (first : Token) → ServesSmall first c.old n zero came → IsRefused n first c.new no) }
    ensures late { (first : Token) → IsLateCall first c.old n came → IsLate first c.new n }
    ensures backs { (first : Token) → IsBackCall first c.old n came → BacksLate first c.new n }
{
    match came {
        SmallCall::Placed { addr } => Ok(addr),
        SmallCall::Refused(no) => Err(no),
        SmallCall::ForVs { vs, back } => go_on_behind(heap, c, vs, back, n, zero, true),
        SmallCall::ForVsFirst { vs, back } => go_on_behind(heap, c, vs, back, n, zero, false),
    }
}

/// Goes on with an allocation whose first pass of the front end is spent, by its draw; so many claims were lost.
#[inline(never)]
fn place_spent(
    heap: &Heap<State>,
    c: &mut Caller<State>,
    bucket: u8,
    n: u64,
    zero: bool,
    lost: u32,
    draw: Draw,
) -> Result<u64, AllocNo>
    requires table { (c.old.table ≡ heap.now.table) × (c.old.opening ≡ heap.now.opening) }
    requires bucket { bucket_of n ≡ Some bucket }
    requires spent { (first : Token) × IsSpent first c.old n zero bucket draw.value lost }
    ensures placed { IfOk result (λ addr. (first : Token) → IsSpent first c.old n zero bucket draw.value lost → Places first c.new addr) }
    ensures refused { IfErr result (λ no. (first : Token) → IsSpent first c.old n zero bucket draw.value lost → IsRefused n first c.new no) }
    ensures late { (first : Token) → IsSpent first c.old n zero bucket draw.value lost → IsLate first c.new n }
    ensures backs { (first : Token) → IsSpent first c.old n zero bucket draw.value lost → BacksLate first c.new n }
{
    let came = serve_spent(heap, c, bucket, n, zero, lost, draw);
    finish(heap, c, n, zero, came)
}

/// Allocates `n` bytes whose bucket was not active.
#[inline(never)]
fn place_inactive(
    heap: &Heap<State>,
    c: &mut Caller<State>,
    bucket: u8,
    n: u64,
    zero: bool,
) -> Result<u64, AllocNo>
    requires table { (c.old.table ≡ heap.now.table) × (c.old.opening ≡ heap.now.opening) }
    requires bucket { bucket_of n ≡ Some bucket }
    requires inactive { (first : Token) × IsInactive first c.old n zero }
    ensures placed { IfOk result (λ addr. (first : Token) → IsInactive first c.old n zero → Places first c.new addr) }
    ensures refused { IfErr result (λ no. (first : Token) → IsInactive first c.old n zero → IsRefused n first c.new no) }
    ensures backs { (first : Token) → IsInactive first c.old n zero → BacksLate first c.new n }
{
    let came = serve_inactive(heap, c, bucket, n, zero);
    finish(heap, c, n, zero, came)
}

/// Allocates `n` bytes, at most 131,072, with all words 0 where `zero` is asked. The front end serves a size whose bucket is active or
/// due, as long as it has a block or pages for a subsegment, and the variable-size layer any other. Each lock is tried once, and all
/// are given back.
pub fn place_small(
    heap: &Heap<State>,
    c: &mut Caller<State>,
    n: u64,
    zero: bool,
) -> Result<u64, AllocNo>
    requires size { n ≤ 131072 }
    requires table { (c.old.table ≡ heap.now.table) × (c.old.opening ≡ heap.now.opening) }
    requires allocating { IsAllocating c.old n zero }
    ensures placed { IfOk result (λ addr. Places c.old c.new addr) }
    ensures refused { IfErr result (λ no. IsRefused n c.old c.new no) }
    ensures late { IsLate c.old c.new n }
    ensures backs { BacksLate c.old c.new n }
{
    let Some(bucket) = bucket_of(n) else {
        return place_by_vs(heap, c, n, zero);
    };
    // what may hold the states of layers stays out of the way of a block that the hint leads to
    match try_front(heap, c, bucket, n, zero) {
        FirstTry::Placed { addr } => Ok(addr),
        FirstTry::Spent { lost, draw } => place_spent(heap, c, bucket, n, zero, lost, draw),
        FirstTry::Inactive => place_inactive(heap, c, bucket, n, zero),
    }
}
