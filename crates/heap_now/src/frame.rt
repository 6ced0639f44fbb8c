//! How each call begins and ends.
ghost use Rattle.std.specs.Prelude.{◌≡◌, false, OnOk, IfErr};
ghost use Rattle.heap_model.specs.declared.Call.{Call as ACall};
ghost use Rattle.heap_model.specs.declared.What.TheVariants as whats;
ghost use Rattle.heap_model.specs.Legal.{is_lock_or_compact};
ghost use Rattle.call_parts.specs.Calls.{IsInside};
ghost use Rattle.heap_model.specs.Shape.{WasBusy};
ghost use Rattle.small_calls.specs.Late.{TriesNeither};
ghost use Rattle.heap_now.specs.Calls.{IsReady, HasBegun, HasGone, GetsBusy};
ghost use Rattle.heap_now.specs.Tagged.{TakesNoLock};

use call_parts::State;
use heap_gate::{Caller, Heap, begin, enter_now, leave};
use heap_model::{Busy, Call};

/// Begins a call and enters, or turns back where another caller owns the heap lock: the call has ended then.
pub(crate) fn enter_call(heap: &Heap<State>, c: &mut Caller<State>, call: Call) -> Result<(), Busy>
    requires table { c.old.table ≡ heap.now.table }
    requires ready { IsReady c.old }
    requires enters { is_lock_or_compact call ≡ false }
    ensures table { (c.new.table ≡ c.old.table) × (c.new.opening ≡ c.old.opening) }
    ensures entered { OnOk result (HasBegun c.old c.new call) }
    ensures busy { IfErr result (λ b. GetsBusy c.old c.new call b × (b.what ≡ whats.Gate)) }
    ensures turned { IfErr result (λ b. TakesNoLock c.old c.new (WasBusy b)) }
    ensures neither { IfErr result (λ b. TriesNeither c.old c.new) }
{
    begin(c, call);
    enter_now(heap, c)
}

/// Leaves behind what the call did.
pub(crate) fn leave_call(heap: &Heap<State>, c: &mut Caller<State>)
    requires table { c.old.table ≡ heap.now.table }
    requires inside { (call : ACall) × IsInside c.old call }
    ensures { HasGone c.old c.new }
{
    leave(heap, c);
}
