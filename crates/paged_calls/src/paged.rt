//! Placing a block in the back end.
ghost use Rattle.std.specs.Prelude.{◌≡◌, ◌*◌, ◌≤◌, [], ◌∷◌, true, IfOk, IfErr, IfSome, IfNone};
ghost use Rattle.heap_model.specs.declared.Act.TheVariants.{NoFit};
ghost use Rattle.heap_model.specs.declared.Call.TheVariants as calls;
ghost use Rattle.heap_model.specs.declared.Flags.{Flags as AFlags};
ghost use Rattle.heap_model.specs.declared.What.TheVariants as whats;
ghost use Rattle.claim_rule.specs.Entries.{are_prepared};
ghost use Rattle.call_laws.specs.Within.{by_all};
ghost use Rattle.heap_gate.specs.Token.{Always, now};
ghost use Rattle.call_parts.specs.Calls.{HoldsBack};
ghost use Rattle.call_parts.specs.Entries.{with_all, block_acts};
ghost use Rattle.paged_calls.specs.Parts.{IsAllocating, Places, IsRefused, Shows, HasPlaced};

use crate::backs::{carve, pages_for};
use backend_fit::Back;
use call_parts::{State, give_back, hand_over, prepare_all, take_back};
use heap_gate::{Caller, Heap, prepare};
use heap_model::{Act, AllocNo, Kind, Layer, PAGE_BYTES, PAGE_GRANULES, SEGMENT_PAGES};

/// Prepares a block of `n` bytes at a page: the Reserve of the next segment where the page lies in it, the span and the place.
fn prepare_block(c: &mut Caller<State>, reserved: u32, first: u32, n: u64)
    requires size { (131073 ≤ n) × (n ≤ 520192) }
    requires none { c.old.prepared ≡ [] }
    requires may { Always c.old (λ s. are_prepared s (now s c.old) c.old.number (by_all c.old.number (block_acts reserved first n)) ≡ true) }
    ensures { c.new ≡ with_all c.old (block_acts reserved first n) }
{
    let pages = pages_for(n);
    let span = Act::Span {
        first,
        pages,
        kind: Kind::Back,
        bucket: 0,
        slot: 0,
    };
    let place = Act::Place {
        start: PAGE_BYTES * u64::from(first),
        granules: u64::from(PAGE_GRANULES * pages),
        layer: Layer::Back,
    };
    if first / SEGMENT_PAGES < reserved {
        prepare_all(c, &[span, place]);
    } else {
        prepare_all(c, &[Act::Reserve { segment: reserved }, span, place]);
    }
}

/// Places a block under the lock of the back end, which is given back.
fn place_in(
    heap: &Heap<State>,
    c: &mut Caller<State>,
    mut back: Back,
    n: u64,
    zero: bool,
) -> Option<u64>
    requires size { (131073 ≤ n) × (n ≤ 520192) }
    requires table { (c.old.table ≡ heap.now.table) × (c.old.opening ≡ heap.now.opening) }
    requires holds { (flags : AFlags) × (flags.zero ≡ zero) × HoldsBack c.old (calls.Alloc n flags) back }
    ensures placed { IfSome result (λ addr. HasPlaced c.old c.new addr n zero) }
    ensures refused { IfNone result (Shows c.old c.new (NoFit n ∷ [])) }
{
    c.check();
    let reserved = back.region().reserved();
    let Some(first) = carve(&mut back, n) else {
        prepare(c, Act::NoFit { size: n });
        give_back(heap, c, back);
        return None;
    };
    prepare_block(c, reserved, first, n);
    let addr = PAGE_BYTES * u64::from(first);
    hand_over(heap, c, addr, n, zero);
    give_back(heap, c, back);
    Some(addr)
}

/// Places a block of 131,073 to 520,192 bytes in the back end, and gives it; where `zero` is asked its words are 0. Its pages go
/// where they fit best, in a new segment if they fit nowhere else.
pub fn place_paged(
    heap: &Heap<State>,
    c: &mut Caller<State>,
    n: u64,
    zero: bool,
) -> Result<u64, AllocNo>
    requires size { (131073 ≤ n) × (n ≤ 520192) }
    requires table { (c.old.table ≡ heap.now.table) × (c.old.opening ≡ heap.now.opening) }
    requires allocating { IsAllocating c.old n zero }
    ensures placed { IfOk result (λ addr. Places c.old c.new addr) }
    ensures refused { IfErr result (λ no. IsRefused whats.Back c.old c.new no) }
{
    let back = match take_back(heap, c) {
        Ok(back) => back,
        Err(busy) => return Err(AllocNo::Busy(busy)),
    };
    match place_in(heap, c, back, n, zero) {
        Some(addr) => Ok(addr),
        None => Err(AllocNo::NoFit),
    }
}
