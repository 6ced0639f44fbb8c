//! An allocation that the variable-size layer serves.
ghost use Rattle.std.specs.Prelude.{◌≡◌, ◌≤◌, true, is_some, IfOk, IfErr, IfSome, IfNone};
ghost use Rattle.vs_layer.specs.Kept.{place_for};
ghost use Rattle.vs_calls.specs.Tries.{LeavesBack, TriesBackFirst};
ghost use Rattle.vs_calls.specs.Parts.{IsPlacing, IsPlacingAnew, HasPlaced, Places, Refuses, IsRefused};

use crate::blocks::lies_within;
use crate::requests::{hold_new, refuse_new};
use crate::spans::hold_in_new_span;
use backend_fit::Back;
use call_parts::{State, give_back, give_vs, hand_over, take_back};
use heap_gate::{Caller, Heap};
use heap_model::AllocNo;
use vs_layer::Vs;

/// Places a block in a gap, which there is, gives it, and gives the lock back.
fn place_in_gap(heap: &Heap<State>, c: &mut Caller<State>, mut vs: Vs, n: u64, zero: bool) -> u64
    requires size { n ≤ 131072 }
    requires table { (c.old.table ≡ heap.now.table) × (c.old.opening ≡ heap.now.opening) }
    requires placing { IsPlacing c.old vs n zero }
    requires fits { is_some (place_for vs n) ≡ true }
    ensures { HasPlaced c.old c.new n result zero }
{
    c.check();
    let addr = hold_new(c, &mut vs, n);
    lies_within(&vs, addr);
    hand_over(heap, c, addr, n, zero);
    give_vs(heap, c, vs);
    addr
}

/// Places a block, which no gap holds, in a span that is made for it, and gives it; the lock of the back end is given back before its
/// words are zeroed. Where the back end has no pages, it is refused. Both locks are given back.
fn place_in_span(
    heap: &Heap<State>,
    c: &mut Caller<State>,
    mut vs: Vs,
    mut back: Back,
    n: u64,
    zero: bool,
) -> Option<u64>
    requires size { n ≤ 131072 }
    requires table { (c.old.table ≡ heap.now.table) × (c.old.opening ≡ heap.now.opening) }
    requires placing { IsPlacingAnew c.old vs back n zero }
    ensures placed { IfSome result (λ addr. HasPlaced c.old c.new n addr zero) }
    ensures refused { IfNone result (Refuses c.old c.new) }
    ensures leaves { LeavesBack c.old c.new }
{
    c.check();
    let _region = back.region();
    let Some(addr) = hold_in_new_span(c, &mut vs, &mut back, n) else {
        refuse_new(heap, c, vs, back, n);
        return None;
    };
    lies_within(&vs, addr);
    give_back(heap, c, back);
    hand_over(heap, c, addr, n, zero);
    give_vs(heap, c, vs);
    Some(addr)
}

/// Places a block of `n` bytes, at most 131,072, at the front of the smallest gap that holds it, or else in a subsegment that the
/// back end gives, whose lock is tried once; and gives it, with all its words 0 where `zero` is asked. Its bucket, if it has one, is
/// neither active nor due. It is refused where no gap holds it and there are no pages for a subsegment, or another holds the lock.
/// All locks are given back.
pub fn place_in_vs(
    heap: &Heap<State>,
    c: &mut Caller<State>,
    vs: Vs,
    n: u64,
    zero: bool,
) -> Result<u64, AllocNo>
    requires size { n ≤ 131072 }
    requires table { (c.old.table ≡ heap.now.table) × (c.old.opening ≡ heap.now.opening) }
    requires placing { IsPlacing c.old vs n zero }
    ensures placed { IfOk result (λ addr. Places c.old c.new addr) }
    ensures refused { IfErr result (λ no. IsRefused vs n c.old c.new no) }
    ensures late { TriesBackFirst c.old c.new vs n }
{
    c.check();
    if vs.fit(n) {
        return Ok(place_in_gap(heap, c, vs, n, zero));
    }
    let back = match take_back(heap, c) {
        Ok(back) => back,
        Err(busy) => {
            give_vs(heap, c, vs);
            return Err(AllocNo::Busy(busy));
        }
    };
    match place_in_span(heap, c, vs, back, n, zero) {
        Some(addr) => Ok(addr),
        None => Err(AllocNo::NoFit),
    }
}
