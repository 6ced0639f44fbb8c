//! A block of the variable-size layer that is to have another size where it is.
ghost use Rattle.std.specs.Prelude.{◌≡◌, ℕ, Some, false, is_some, true};
ghost use Rattle.heap_model.specs.declared.Call.TheVariants as calls;
ghost use Rattle.heap_model.specs.State.{Place};
ghost use Rattle.vs_layer.specs.Kept.{block_at, lets_stay};
ghost use Rattle.vs_calls.specs.Blocks.{LiesWithin, size_at};
ghost use Rattle.address_calls.specs.Finds.{IsOfVs};
ghost use Rattle.stay_calls.specs.Stays.{IsTried};

use crate::tried::Tried;
use crate::words::zero_gained;
use address_calls::Found;
use call_parts::{State, give_vs};
use heap_gate::{Caller, Heap, prepare, rest};
use heap_model::{Act, Flags, GRANULE_BYTES, ReNo};
use vs_layer::Vs;

/// The granules of the place of the block at an address, its header included.
fn granules_at(vs: &Vs, addr: u64) -> u64
    requires { (p : Place) × (block_at vs.now addr ≡ Some p) }
    ensures { (p : Place) → block_at vs.now addr ≡ Some p → result ≡ p.granules }
{
    let start = addr - GRANULE_BYTES;
    u64::from(vs.heads().chunk_at(start).unwrap().units)
}

/// Sees that the words of a block lie among the data words.
fn lies_within(vs: &Vs, addr: u64)
    requires { is_some (size_at vs.now addr) ≡ true }
    ensures { (size : ℕ) → size_at vs.now addr ≡ Some size → LiesWithin vs.now.limits addr size }
{
    let _size = vs.find(addr);
    let _head = vs.heads().chunk_at(addr - GRANULE_BYTES);
}

/// The block can't stay: it has to move, or where it may not is as it was, and the lock is given back.
fn leave(
    heap: &Heap<State>,
    c: &mut Caller<State>,
    vs: Vs,
    addr: u64,
    size: u64,
    n: u64,
    flags: Flags,
) -> Result<Tried, ReNo>
    requires table { c.old.table ≡ heap.now.table }
    requires call { c.old.call ≡ Some (calls.Realloc addr n flags) }
    requires vs { IsOfVs c.old addr vs }
    requires found { size_at vs addr ≡ Some size }
    requires leaves { (p : Place) → block_at vs addr ≡ Some p → lets_stay vs p n ≡ false }
    ensures { IsTried c.old c.new addr n flags result }
{
    c.check();
    if !flags.in_place {
        let found = Found::Vs(vs);
        return Ok(Tried::Moves { found, size });
    }
    prepare(c, Act::Sized { addr, size });
    give_vs(heap, c, vs);
    Err(ReNo::NoRoomInPlace)
}

/// Gives the block of the variable-size layer that begins at an address `n` bytes, if it keeps its address so.
pub(crate) fn stay_vs(
    heap: &Heap<State>,
    c: &mut Caller<State>,
    mut vs: Vs,
    addr: u64,
    n: u64,
    flags: Flags,
) -> Result<Tried, ReNo>
    requires table { (c.old.table ≡ heap.now.table) × (c.old.opening ≡ heap.now.opening) }
    requires call { c.old.call ≡ Some (calls.Realloc addr n flags) }
    requires vs { IsOfVs c.old addr vs }
    ensures { IsTried c.old c.new addr n flags result }
{
    c.check();
    let _before = vs.heads();
    let size = vs.find(addr).unwrap();
    if !vs.resize_in_place(addr, n) {
        return leave(heap, c, vs, addr, size, n, flags);
    }
    lies_within(&vs, addr);
    let granules = granules_at(&vs, addr);
    let _heads = vs.heads();
    zero_gained(heap, c, addr, size, n, flags.zero);
    c.check();
    prepare(
        c,
        Act::Resize {
            addr,
            granules,
            size: n,
        },
    );
    rest(c);
    give_vs(heap, c, vs);
    Ok(Tried::Stays)
}
