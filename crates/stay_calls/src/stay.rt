//! A block at any address.
ghost use Rattle.std.specs.Prelude.{◌≡◌, [], Some};
ghost use Rattle.heap_model.specs.declared.Call.TheVariants as calls;
ghost use Rattle.call_parts.specs.Calls.{IsServing};
ghost use Rattle.address_calls.specs.Finds.{IsFound};
ghost use Rattle.stay_calls.specs.Stays.{IsTried};

use crate::back::stay_back;
use crate::denials::say_none;
use crate::front::stay_front;
use crate::large::stay_large;
use crate::tried::Tried;
use crate::vs::stay_vs;
use address_calls::{Found, look_up};
use call_parts::State;
use heap_gate::{Caller, Heap};
use heap_model::{Flags, ReNo};

/// Gives the block `n` bytes where it was found, if it keeps its address so.
fn stay_found(
    heap: &Heap<State>,
    c: &mut Caller<State>,
    found: Found,
    addr: u64,
    n: u64,
    flags: Flags,
) -> Result<Tried, ReNo>
    requires table { (c.old.table ≡ heap.now.table) × (c.old.opening ≡ heap.now.opening) }
    requires call { c.old.call ≡ Some (calls.Realloc addr n flags) }
    requires found { IsFound c.old addr found }
    ensures { IsTried c.old c.new addr n flags result }
{
    match found {
        Found::Front(tag) => stay_front(heap, c, tag, addr, n, flags),
        Found::Vs(vs) => stay_vs(heap, c, vs, addr, n, flags),
        Found::Back(vs, back) => stay_back(heap, c, vs, back, addr, n, flags),
        Found::Large(large) => stay_large(heap, c, large, addr, n, flags),
        Found::Nowhere => {
            say_none(heap, c, addr);
            Err(ReNo::NotLive)
        }
    }
}

/// Gives the live block that begins at an address `n` bytes, where it keeps its address: the words that it gains are 0 if
/// `flags.zero` asks that. Where it would have to move, this answers what guards it until then; or where `flags.in_place` forbids
/// that, nothing has changed. It may be asked of each address.
pub fn try_stay(
    heap: &Heap<State>,
    c: &mut Caller<State>,
    addr: u64,
    n: u64,
    flags: Flags,
) -> Result<Tried, ReNo>
    requires table { (c.old.table ≡ heap.now.table) × (c.old.opening ≡ heap.now.opening) }
    requires serving { IsServing c.old (calls.Realloc addr n flags) [] }
    ensures { IsTried c.old c.new addr n flags result }
{
    match look_up(heap, c, addr) {
        Ok(found) => stay_found(heap, c, found, addr, n, flags),
        Err(busy) => Err(ReNo::Busy(busy)),
    }
}
