//! A step of a walk, from its Begin to its answer.
ghost use Rattle.std.specs.Prelude.{◌≡◌, ◌≢◌, [], IfOk, OnErr};
ghost use Rattle.heap_gate.specs.Token.{now};
ghost use Rattle.call_parts.specs.Calls.{IsReadyToCall};
ghost use Rattle.walk_calls.specs.Seen.{IsOwner};
ghost use Rattle.walk_calls.specs.Locks.{HasDone, TellAll, AreWhole, all_slots, taking, giving};
ghost use Rattle.walk_calls.specs.Walk.{Walks};

use crate::runs::next_seen;
use crate::shown::hear_words;
use backend_fit::Back;
use call_parts::{State, give_back, give_large, give_vs};
use compact_calls::{own_back, own_large, own_vs};
use heap_gate::{Caller, Heap, begin};
use heap_model::{Block, Call, NotLocked};
use large_blocks::Large;
use vs_layer::Vs;

/// Takes the locks of all layers. No other caller has one.
fn take_all(heap: &Heap<State>, c: &mut Caller<State>) -> (Vs, Back, Large)
    requires table { c.old.table ≡ heap.now.table }
    requires owner { IsOwner c.old }
    requires out { (c.old.out ≡ []) × (c.old.owes ≡ []) }
    ensures done { HasDone c.old c.new taking [] all_slots }
    ensures tells { TellAll c.new result.0 result.1 result.2 }
    ensures whole { AreWhole result.0 result.1 }
{
    c.check();
    let vs = own_vs(heap, c);
    c.check();
    let back = own_back(heap, c);
    c.check();
    let large = own_large(heap, c);
    let _shown = vs.heads();
    let _sound = back.region();
    (vs, back, large)
}

/// Gives the locks of all layers back, the last taken first.
fn give_all(heap: &Heap<State>, c: &mut Caller<State>, vs: Vs, back: Back, large: Large)
    requires table { c.old.table ≡ heap.now.table }
    requires owner { IsOwner c.old }
    requires out { (c.old.out ≡ all_slots) × (c.old.owes ≡ []) }
    requires tells { TellAll c.old vs back large }
    ensures done { HasDone c.old c.new giving all_slots [] }
{
    c.check();
    give_large(heap, c, large);
    c.check();
    give_back(heap, c, back);
    c.check();
    give_vs(heap, c, vs);
}

/// A step of a walk by the owner of the heap lock.
fn walk_owned(heap: &Heap<State>, c: &mut Caller<State>, from: u64) -> Option<Block>
    requires table { (c.old.table ≡ heap.now.table) × (c.old.opening ≡ heap.now.opening) }
    requires ready { IsReadyToCall c.old × (c.old.owes ≡ []) }
    requires owns { c.old.depth ≢ 0 }
    ensures { Walks c.old c.new from result }
{
    c.check();
    begin(c, Call::WalkNext { from });
    hear_words(heap, c);
    c.check();
    let (vs, back, large) = take_all(heap, c);
    let found = next_seen(heap, c, &vs, &back, &large, from);
    give_all(heap, c, vs, back, large);
    c.check();
    hear_words(heap, c);
    c.check();
    found
}

/// The live block of the least address at or after `from`, for the owner of the heap lock, or `None` where there is none. Addresses are
/// offsets in the heap's region, in bytes. A walk over all blocks begins at 0 and goes on behind the address of each.
pub fn walk_next(
    heap: &Heap<State>,
    c: &mut Caller<State>,
    from: u64,
) -> Result<Option<Block>, NotLocked>
    requires table { (c.old.table ≡ heap.now.table) × (c.old.opening ≡ heap.now.opening) }
    requires ready { IsReadyToCall c.old × (c.old.owes ≡ []) }
    ensures walked { IfOk result (λ found. Walks c.old c.new from found) }
    ensures refused { OnErr result ((c.old.depth ≡ 0) × (c.new ≡ c.old)) }
{
    if c.depth() == 0 {
        return Err(NotLocked);
    }
    Ok(walk_owned(heap, c, from))
}
