//! The block that begins at an address: its size, and giving it back.
ghost use Rattle.std.specs.Prelude.{◌≡◌, [], ◌∷◌, IfOk, IfErr};
ghost use Rattle.heap_model.specs.declared.Act.TheVariants.{NotLive};
ghost use Rattle.heap_model.specs.declared.Call.{Call as ACall};
ghost use Rattle.call_parts.specs.Calls.{IsServing};
ghost use Rattle.paged_calls.specs.Parts.{Measures};
ghost use Rattle.front_calls.specs.Parts.{GoesBy};
ghost use Rattle.address_calls.specs.Answers.{MeetsOn, HasWords};
ghost use Rattle.address_calls.specs.Finds.{IsFree, IsFound, IsNone};
ghost use Rattle.address_calls.specs.Tagged.{KnowsTag, MeasuresAtOnce, MeasuresAsFront};

use crate::denials::deny;
use crate::look::{Found, look_up};
use crate::slots::hear_slots;
use call_parts::State;
use front_calls::measure_front;
use heap_gate::{Caller, Heap};
use heap_model::Busy;
use paged_calls::{measure_back, measure_huge};
use vs_calls::measure_vs;

/// The size of the live block that begins at an address, or `None` where no live block has it. It may be asked of each address. Each
/// lock is given back, and none is taken where the caller knows the tag of the page. The words of the block are data words, from word
/// `addr / 8` on.
pub fn measure(heap: &Heap<State>, c: &mut Caller<State>, addr: u64) -> Result<Option<u64>, Busy>
    requires table { (c.old.table ≡ heap.now.table) × (c.old.opening ≡ heap.now.opening) }
    requires serving { (call : ACall) × IsServing c.old call [] }
    ensures found { IfOk result (λ told. Measures c.old c.new addr told) }
    ensures words { IfOk result (λ told. HasWords c.old.opening.limits addr told) }
    ensures busy { IfErr result (λ b. MeetsOn c.old c.new addr b) }
    ensures tagged { KnowsTag c.old addr → MeasuresAtOnce c.old c.new addr result }
{
    match look_up(heap, c, addr) {
        Ok(found) => Ok(measure_there(heap, c, found, addr)),
        Err(busy) => Err(busy),
    }
}

/// The size of the block where it was found, whose words are data words.
fn measure_there(heap: &Heap<State>, c: &mut Caller<State>, found: Found, addr: u64) -> Option<u64>
    requires table { (c.old.table ≡ heap.now.table) × (c.old.opening ≡ heap.now.opening) }
    requires found { IsFound c.old addr found }
    ensures measured { Measures c.old c.new addr result }
    ensures words { HasWords c.old.opening.limits addr result }
    ensures front { MeasuresAsFront found c.old c.new addr result }
{
    let _limits = heap.limits();
    let Some(size) = measure_found(heap, c, found, addr) else {
        return None;
    };
    hear_slots(heap, c);
    c.check();
    Some(size)
}

/// The size of the block where it was found.
fn measure_found(heap: &Heap<State>, c: &mut Caller<State>, found: Found, addr: u64) -> Option<u64>
    requires table { (c.old.table ≡ heap.now.table) × (c.old.opening ≡ heap.now.opening) }
    requires found { IsFound c.old addr found }
    ensures measured { Measures c.old c.new addr result }
    ensures front { MeasuresAsFront found c.old c.new addr result }
{
    match found {
        Found::Front(tag) => measure_front(heap, c, tag, addr),
        Found::Vs(vs) => Some(measure_vs(heap, c, vs, addr)),
        Found::Back(vs, back) => measure_back(heap, c, vs, back, addr),
        Found::Large(large) => measure_huge(heap, c, large, addr),
        Found::Nowhere => {
            say_none(heap, c, addr);
            None
        }
    }
}

/// Says that no block begins at an address where none can.
pub(crate) fn say_none(heap: &Heap<State>, c: &mut Caller<State>, addr: u64)
    requires table { (c.old.table ≡ heap.now.table) × (c.old.opening ≡ heap.now.opening) }
    requires free { IsFree c.old }
    requires none { IsNone c.old.opening.limits addr }
    ensures { GoesBy c.old c.new (NotLive addr ∷ []) }
{
    c.check();
    deny(heap, c, addr);
}
