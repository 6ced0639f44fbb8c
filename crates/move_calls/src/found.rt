//! A block that has to move, whichever layer has it, and the whole reallocation inside.
ghost use Rattle.std.specs.Prelude.{◌≡◌, ◌≤◌, [], ℕ, false};
ghost use Rattle.heap_model.specs.declared.Call.TheVariants as calls;
ghost use Rattle.heap_gate.specs.Token.{Token};
ghost use Rattle.call_parts.specs.Calls.{IsServing};
ghost use Rattle.stay_calls.specs.Stays.{IsToMove, IsTried};
ghost use Rattle.move_calls.specs.Moves.{Moves, IsReallocated};

use crate::back::move_from_back;
use crate::front::move_from_front;
use crate::large::move_from_large;
use crate::vs::move_from_vs;
use address_calls::Found;
use call_parts::State;
use heap_gate::{Caller, Heap};
use heap_model::{Flags, ReNo};
use stay_calls::{Tried, try_stay};

/// Moves the block of `size` bytes that begins at an address, and cannot stay there with `n` bytes, to another place, and answers its
/// new address. As many of its words as both sizes have go with it, and those that it gains are 0 where `flags.zero` asks that. It is
/// Busy where another caller holds a lock that it needs: each that it lacks is tried once, before anything has changed. All locks are
/// given back.
pub fn move_found(
    heap: &Heap<State>,
    c: &mut Caller<State>,
    found: Found,
    addr: u64,
    size: u64,
    n: u64,
    flags: Flags,
) -> Result<u64, ReNo>
    requires table { (c.old.table ≡ heap.now.table) × (c.old.opening ≡ heap.now.opening) }
    requires may { flags.in_place ≡ false }
    requires moves { (first : Token) × IsServing first (calls.Realloc addr n flags) [] × IsToMove first c.old addr size n found }
    ensures { (first : Token) → IsServing first (calls.Realloc addr n flags) [] → IsToMove first c.old addr size n found → Moves first c.new addr n flags result }
{
    match found {
        Found::Front(tag) => move_from_front(heap, c, tag, addr, size, n, flags),
        Found::Vs(vs) => move_from_vs(heap, c, vs, addr, size, n, flags),
        Found::Back(vs, back) => move_from_back(heap, c, vs, back, addr, size, n, flags),
        Found::Large(large) => move_from_large(heap, c, large, addr, size, n, flags),
        Found::Nowhere => unreachable!(),
    }
}

/// Goes on behind the first half of a reallocation: the block stays, or it moves.
fn stay_or_move(
    heap: &Heap<State>,
    c: &mut Caller<State>,
    tried: Tried,
    addr: u64,
    n: u64,
    flags: Flags,
) -> Result<u64, ReNo>
    requires table { (c.old.table ≡ heap.now.table) × (c.old.opening ≡ heap.now.opening) }
    requires tried { (first : Token) × IsServing first (calls.Realloc addr n flags) [] × IsTried first c.old addr n flags (Ok tried) }
    ensures { (first : Token) → IsServing first (calls.Realloc addr n flags) [] → IsTried first c.old addr n flags (Ok tried) → IsReallocated first c.new addr n flags result }
{
    match tried {
        Tried::Stays => Ok(addr),
        Tried::Moves { found, size } => move_found(heap, c, found, addr, size, n, flags),
    }
}

/// Gives the live block that begins at an address `n` bytes: where it keeps its address so, there; else it moves, unless
/// `flags.in_place` forbids that. It may be asked of each address.
pub fn realloc_inside(
    heap: &Heap<State>,
    c: &mut Caller<State>,
    addr: u64,
    n: u64,
    flags: Flags,
) -> Result<u64, ReNo>
    requires table { (c.old.table ≡ heap.now.table) × (c.old.opening ≡ heap.now.opening) }
    requires serving { IsServing c.old (calls.Realloc addr n flags) [] }
    ensures { IsReallocated c.old c.new addr n flags result }
{
    match try_stay(heap, c, addr, n, flags) {
        Ok(tried) => stay_or_move(heap, c, tried, addr, n, flags),
        Err(no) => Err(no),
    }
}
