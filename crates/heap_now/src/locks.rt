//! The heap lock.
ghost use Rattle.std.specs.Prelude.{◌≡◌, OnOk, OnErr, IfErr, Err};
ghost use Rattle.heap_model.specs.declared.LockNo.TheVariants.{Depth};
ghost use Rattle.heap_now.specs.Calls.{IsReady};
ghost use Rattle.heap_now.specs.Locks.{IsLockedMore, IsLockedLess, IsNotLocked};

use call_parts::State;
use heap_gate::{Caller, Heap, begin, lock_gate, unlock_gate};
use heap_model::{Call, LockNo, NotOwner};

/// Takes the heap lock, up to 65,535 times. It keeps all other callers outside until it was given back as often. Only the first time
/// is a call of the history, and it is Busy where the gate word is not 0.
pub fn lock_now(heap: &Heap<State>, c: &mut Caller<State>) -> Result<(), LockNo>
    requires table { c.old.table ≡ heap.now.table }
    requires ready { IsReady c.old }
    ensures taken { OnOk result (IsLockedMore c.old c.new) }
    ensures refused { IfErr result (λ no. IsNotLocked c.old c.new no) }
    ensures full { c.old.depth ≡ 65535 → result ≡ Err Depth }
{
    lock_gate(heap, c)
}

/// Gives the heap lock back from depth 1.
fn unlock_last(heap: &Heap<State>, c: &mut Caller<State>)
    requires table { c.old.table ≡ heap.now.table }
    requires ready { IsReady c.old }
    requires last { c.old.depth ≡ 1 }
    ensures { IsLockedLess c.old c.new }
{
    begin(c, Call::Unlock);
    let _given = unlock_gate(heap, c, false);
}

/// Gives the heap lock back once. Only the last time is a call of the history.
pub fn unlock_now(heap: &Heap<State>, c: &mut Caller<State>) -> Result<(), NotOwner>
    requires table { c.old.table ≡ heap.now.table }
    requires ready { IsReady c.old }
    ensures given { OnOk result (IsLockedLess c.old c.new) }
    ensures refused { OnErr result ((c.old.depth ≡ 0) × (c.new ≡ c.old)) }
{
    if c.depth() == 1 {
        unlock_last(heap, c);
        return Ok(());
    }
    unlock_gate(heap, c, false)
}
