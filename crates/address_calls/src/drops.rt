//! The block that begins at an address, given back.
ghost use Rattle.std.specs.Prelude.{◌≡◌, [], IfOk, IfErr};
ghost use Rattle.heap_model.specs.declared.Call.{Call as ACall};
ghost use Rattle.call_parts.specs.Calls.{IsServing};
ghost use Rattle.paged_calls.specs.Parts.{Drops};
ghost use Rattle.address_calls.specs.Answers.{MeetsOn};
ghost use Rattle.address_calls.specs.Finds.{IsFree, IsFound, IsOfVs};
ghost use Rattle.address_calls.specs.Tagged.{KnowsTag, DropsAtOnce, DropsAsFront};

use crate::blocks::say_none;
use crate::look::{Found, find_front, look_up};
use call_parts::State;
use front_calls::drop_front;
use heap_gate::{Caller, Heap};
use heap_model::Busy;
use paged_calls::{drop_back, drop_huge};
use vs_calls::drop_vs;
use vs_layer::Vs;

/// Takes the live block that begins at an address and gives its place back, or answers `false` where no live block has it. It may be
/// asked of each address. Each lock is given back, and none is taken where the caller knows the tag of the page. Where another caller
/// holds a lock that this needs, the block stays.
pub fn drop_block(heap: &Heap<State>, c: &mut Caller<State>, addr: u64) -> Result<bool, Busy>
    requires table { (c.old.table ≡ heap.now.table) × (c.old.opening ≡ heap.now.opening) }
    requires serving { (call : ACall) × IsServing c.old call [] }
    ensures dropped { IfOk result (λ did. Drops c.old c.new addr did) }
    ensures busy { IfErr result (λ b. MeetsOn c.old c.new addr b) }
    ensures tagged { KnowsTag c.old addr → DropsAtOnce c.old c.new addr result }
{
    match find_front(heap, c, addr) {
        Some(tag) => Ok(drop_front(heap, c, tag, addr)),
        None => drop_elsewhere(heap, c, addr),
    }
}

/// The same by a look at each layer, which takes the locks. What holds the states of layers stays out of the way of a free in the
/// front end.
#[inline(never)]
fn drop_elsewhere(heap: &Heap<State>, c: &mut Caller<State>, addr: u64) -> Result<bool, Busy>
    requires table { (c.old.table ≡ heap.now.table) × (c.old.opening ≡ heap.now.opening) }
    requires serving { IsFree c.old }
    ensures dropped { IfOk result (λ did. Drops c.old c.new addr did) }
    ensures busy { IfErr result (λ b. MeetsOn c.old c.new addr b) }
    ensures tagged { KnowsTag c.old addr → DropsAtOnce c.old c.new addr result }
{
    match look_up(heap, c, addr) {
        Ok(found) => drop_found(heap, c, found, addr),
        Err(busy) => Err(busy),
    }
}

/// Gives the block back where it was found.
fn drop_found(
    heap: &Heap<State>,
    c: &mut Caller<State>,
    found: Found,
    addr: u64,
) -> Result<bool, Busy>
    requires table { (c.old.table ≡ heap.now.table) × (c.old.opening ≡ heap.now.opening) }
    requires found { IsFound c.old addr found }
    ensures dropped { IfOk result (λ did. Drops c.old c.new addr did) }
    ensures busy { IfErr result (λ b. MeetsOn c.old c.new addr b) }
    ensures front { DropsAsFront found c.old c.new addr result }
{
    match found {
        Found::Front(tag) => Ok(drop_front(heap, c, tag, addr)),
        Found::Vs(vs) => drop_of_vs(heap, c, vs, addr),
        Found::Back(vs, back) => Ok(drop_back(heap, c, vs, back, addr)),
        Found::Large(large) => Ok(drop_huge(heap, c, large, addr)),
        Found::Nowhere => {
            say_none(heap, c, addr);
            Ok(false)
        }
    }
}

/// Gives a block of the variable-size layer back, or leaves it where its span would go with it and another caller has the back end.
fn drop_of_vs(heap: &Heap<State>, c: &mut Caller<State>, vs: Vs, addr: u64) -> Result<bool, Busy>
    requires table { c.old.table ≡ heap.now.table }
    requires vs { IsOfVs c.old addr vs }
    ensures dropped { IfOk result (λ did. Drops c.old c.new addr did) }
    ensures busy { IfErr result (λ b. MeetsOn c.old c.new addr b) }
{
    match drop_vs(heap, c, vs, addr) {
        Ok(()) => Ok(true),
        Err(busy) => Err(busy),
    }
}
