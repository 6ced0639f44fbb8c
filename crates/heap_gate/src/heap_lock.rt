//! The heap lock, which lies in the gate word.
ghost use Rattle.std.specs.Prelude.{◌≡◌, true, false, [], ◌∷◌, ◌++◌, ◌||◌, not, OnOk, OnErr, IfErr, Some, Err};
ghost use Rattle.heap_model.specs.declared.Act.TheVariants.{Lock, Unlock, Blocked};
ghost use Rattle.heap_model.specs.declared.Call.{Call as ACall};
ghost use Rattle.heap_model.specs.declared.Call.TheVariants as calls;
ghost use Rattle.heap_model.specs.declared.What.TheVariants as whats;
ghost use Rattle.heap_model.specs.declared.LockNo.TheVariants.{Depth};
ghost use Rattle.heap_model.specs.Legal.{is_lock_or_compact};
ghost use Rattle.heap_model.specs.Stay.{for_some};
ghost use Rattle.claim_rule.specs.Entries.{entry};
ghost use Rattle.heap_gate.specs.Calls.{begins, begun_with, begins_unlock, begun_unlock, stance, HasLocked, HasMissedGate, HasUnlocked, IsDeeper, IsRefusedLock, IsShallower};

use crate::caller::Caller;
use crate::entries::{begin, begin_if_none};
use crate::heap::Heap;
use crate::noted::Told;
use crate::steps::{lock_as, unlock_as};
use heap_model::{Busy, Call, LockNo, NotOwner, Stands, What};
use std::marker::Brand;

// The step of taking the heap lock.
fn take<T: Stands>(heap: &Heap<T>, c: &mut Caller<T>) -> Result<(), Busy>
    requires table { c.old.table ≡ heap.now.table }
    requires outside { c.old.inside ≡ false }
    requires out { c.old.out ≡ [] }
    requires free { c.old.depth ≡ 0 }
    requires call { (call : ACall) × (c.old.call ≡ Some call) × (is_lock_or_compact call ≡ true) }
    ensures ok { OnOk result (HasLocked c.old c.new (stance c.old) (entry c.old.number Lock ∷ [])) }
    ensures busy { IfErr result (λ b. HasMissedGate c.old c.new (stance c.old) b.what b.word (entry c.old.number (Blocked whats.Gate b.word) ∷ [])) }
{
    let tag = 65536 * (u64::from(c.number) + 1);
    let word = lock_as::<T, Brand>(&heap.table.shared, &mut c.place, &c.prepared, tag);
    c.prepared.clear();
    c.pending = false;
    if word == 0 {
        c.locked = Told::of(&true);
        c.depth = 1;
        return Ok(());
    }
    Err(Busy {
        what: What::Gate,
        word,
    })
}

// Begins a call of lock where none is pending, and takes the heap lock.
fn take_first<T: Stands>(heap: &Heap<T>, c: &mut Caller<T>) -> Result<(), Busy>
    requires table { c.old.table ≡ heap.now.table }
    requires outside { c.old.inside ≡ false }
    requires out { c.old.out ≡ [] }
    requires free { c.old.depth ≡ 0 }
    requires pending { (not c.old.pending || for_some c.old.call is_lock_or_compact) ≡ true }
    ensures ok { OnOk result (HasLocked c.old c.new (stance (begun_with c.old calls.Lock)) (begins c.old calls.Lock ++ entry c.old.number Lock ∷ [])) }
    ensures busy { IfErr result (λ b. HasMissedGate c.old c.new (stance (begun_with c.old calls.Lock)) b.what b.word (begins c.old calls.Lock ++ entry c.old.number (Blocked whats.Gate b.word) ∷ [])) }
{
    c.check();
    begin_if_none(c, Call::Lock);
    take(heap, c)
}

/// Takes the heap lock, up to 65,535 times. Only the first time is a step, and it is Busy where the gate word is not 0.
pub fn lock_gate<T: Stands>(heap: &Heap<T>, c: &mut Caller<T>) -> Result<(), LockNo>
    requires table { c.old.table ≡ heap.now.table }
    requires outside { c.old.inside ≡ false }
    requires out { c.old.out ≡ [] }
    requires pending { (not c.old.pending || for_some c.old.call is_lock_or_compact) ≡ true }
    ensures taken { OnOk result (IsDeeper c.old c.new) }
    ensures refused { IfErr result (λ no. IsRefusedLock c.old c.new no) }
    ensures full { c.old.depth ≡ 65535 → result ≡ Err Depth }
{
    if c.depth == 65535 {
        return Err(LockNo::Depth);
    }
    if c.depth > 0 {
        c.depth += 1;
        return Ok(());
    }
    match take_first(heap, c) {
        Ok(()) => Ok(()),
        Err(busy) => Err(LockNo::Busy(busy)),
    }
}

// The step of giving the heap lock back.
fn give<T: Stands>(heap: &Heap<T>, c: &mut Caller<T>)
    requires table { c.old.table ≡ heap.now.table }
    requires outside { c.old.inside ≡ false }
    requires out { c.old.out ≡ [] }
    requires owns { c.old.depth ≡ 1 }
    ensures { HasUnlocked c.old c.new (stance c.old) (entry c.old.number Unlock ∷ []) }
{
    let tag = 65536 * (u64::from(c.number) + 1);
    unlock_as::<T, Brand>(&heap.table.shared, &mut c.place, &c.prepared, tag);
    c.prepared.clear();
    c.pending = false;
    c.depth = 0;
}

// Prepares the Begin of a call of unlock, where none is pending and it is not within a call that took the lock.
fn begin_unlock<T: Stands>(c: &mut Caller<T>, within: bool)
    requires outside { c.old.inside ≡ false }
    requires out { c.old.out ≡ [] }
    ensures { c.new ≡ begun_unlock within c.old }
{
    if !(c.pending || within) {
        begin(c, Call::Unlock);
    }
}

// Begins a call of unlock where that is wanted, and gives the heap lock back.
fn give_last<T: Stands>(heap: &Heap<T>, c: &mut Caller<T>, within: bool)
    requires table { c.old.table ≡ heap.now.table }
    requires outside { c.old.inside ≡ false }
    requires out { c.old.out ≡ [] }
    requires owns { c.old.depth ≡ 1 }
    ensures { HasUnlocked c.old c.new (stance (begun_unlock within c.old)) (begins_unlock within c.old ++ entry c.old.number Unlock ∷ []) }
{
    begin_unlock(c, within);
    give(heap, c);
}

/// Gives the heap lock back as often as it was taken. Only the last time is a step. It begins a call of its own, but where a
/// Begin is prepared, or it is `within` the call that took the lock, as in a compaction.
pub fn unlock_gate<T: Stands>(
    heap: &Heap<T>,
    c: &mut Caller<T>,
    within: bool,
) -> Result<(), NotOwner>
    requires table { c.old.table ≡ heap.now.table }
    requires outside { c.old.inside ≡ false }
    requires out { c.old.out ≡ [] }
    ensures given { OnOk result (IsShallower within c.old c.new) }
    ensures refused { OnErr result ((c.old.depth ≡ 0) × (c.new ≡ c.old)) }
{
    if c.depth == 0 {
        return Err(NotOwner);
    }
    if c.depth > 1 {
        c.depth -= 1;
        return Ok(());
    }
    give_last(heap, c, within);
    Ok(())
}
