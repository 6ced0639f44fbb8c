//! Compaction, from its Begin to its answer.
ghost use Rattle.std.specs.Prelude.{◌≡◌, ◌≢◌, [], true, IfOk, IfErr};
ghost use Rattle.heap_model.specs.declared.Call.TheVariants as calls;
ghost use Rattle.call_parts.specs.Calls.{IsReadyToCall};
ghost use Rattle.compact_calls.specs.Owner.{IsOwning};
ghost use Rattle.compact_calls.specs.Compact.{HasCleaned, HasFinished, HasNumber, IsRefused};

use crate::empties::retire_empties;
use crate::locks::own_back;
use crate::pages::decommit_pages;
use backend_fit::Back;
use call_parts::{State, give_back};
use heap_gate::{Caller, Heap, begin, lock_gate, settle, unlock_gate};
use heap_model::{Busy, Call, LockNo};

/// Takes the lock of the back end, gives back each subsegment without a block, and decommits each page that no span has.
fn clean(heap: &Heap<State>, c: &mut Caller<State>) -> (Back, u64)
    requires table { (c.old.table ≡ heap.now.table) × (c.old.opening ≡ heap.now.opening) }
    requires owning { IsOwning c.old calls.Compact [] }
    ensures { HasCleaned c.old c.new result.0 result.1 }
{
    let mut back = own_back(heap, c);
    retire_empties(heap, c, &mut back);
    let number = decommit_pages(heap, c, &mut back);
    (back, number)
}

/// Compacts, for a caller that owns the heap lock.
fn compact_owned(heap: &Heap<State>, c: &mut Caller<State>) -> u64
    requires table { (c.old.table ≡ heap.now.table) × (c.old.opening ≡ heap.now.opening) }
    requires ready { IsReadyToCall c.old × (c.old.owes ≡ []) }
    requires owns { c.old.depth ≢ 0 }
    ensures { HasNumber c.old c.new result }
{
    c.check();
    begin(c, Call::Compact);
    settle(heap, c);
    let (back, number) = clean(heap, c);
    c.check();
    give_back(heap, c, back);
    number
}

/// Compacts, in a call that has taken the heap lock, and gives this back.
fn finish(heap: &Heap<State>, c: &mut Caller<State>) -> u64
    requires table { (c.old.table ≡ heap.now.table) × (c.old.opening ≡ heap.now.opening) }
    requires owning { IsOwning c.old calls.Compact [] }
    requires locked { c.old.locked ≡ true }
    requires depth { c.old.depth ≡ 1 }
    ensures { HasFinished c.old c.new result }
{
    let (back, number) = clean(heap, c);
    c.check();
    give_back(heap, c, back);
    c.check();
    let _given = unlock_gate(heap, c, true);
    number
}

/// Compacts, for a caller that takes the heap lock for the call, or finds that the gate word is not 0.
fn compact_locking(heap: &Heap<State>, c: &mut Caller<State>) -> Result<u64, Busy>
    requires table { (c.old.table ≡ heap.now.table) × (c.old.opening ≡ heap.now.opening) }
    requires ready { IsReadyToCall c.old × (c.old.owes ≡ []) }
    requires free { c.old.depth ≡ 0 }
    ensures compacted { IfOk result (λ number. HasNumber c.old c.new number) }
    ensures busy { IfErr result (λ b. IsRefused c.old c.new b) }
{
    c.check();
    begin(c, Call::Compact);
    match lock_gate(heap, c) {
        Ok(()) => Ok(finish(heap, c)),
        Err(LockNo::Busy(busy)) => Err(busy),
        Err(LockNo::Depth) => unreachable!(),
    }
}

/// Gives back each subsegment of the front end without a block, then decommits each committed page that no span has, and answers
/// how many these were. A caller that does not own the heap lock takes it for the call: it is Busy only where the gate word is not 0.
pub fn compact(heap: &Heap<State>, c: &mut Caller<State>) -> Result<u64, Busy>
    requires table { (c.old.table ≡ heap.now.table) × (c.old.opening ≡ heap.now.opening) }
    requires ready { IsReadyToCall c.old × (c.old.owes ≡ []) }
    ensures compacted { IfOk result (λ number. HasNumber c.old c.new number) }
    ensures busy { IfErr result (λ b. IsRefused c.old c.new b) }
{
    if c.depth() == 0 {
        return compact_locking(heap, c);
    }
    Ok(compact_owned(heap, c))
}
