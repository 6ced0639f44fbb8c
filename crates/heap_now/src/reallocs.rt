//! Reallocation.
ghost use Rattle.std.specs.Prelude.{◌≡◌, [], IfOk};
ghost use Rattle.heap_model.specs.declared.Call.TheVariants as calls;
ghost use Rattle.move_calls.specs.Moves.{MayTry};
ghost use Rattle.heap_now.specs.Calls.{IsReady, EndsWith};
ghost use Rattle.heap_now.specs.Reallocs.{realloc_answer, KeepsWords};

use crate::frame::{enter_call, leave_call};
use call_parts::State;
use heap_gate::{Caller, Heap};
use heap_model::{Call, Flags, ReNo};
use move_calls::realloc_inside;

/// Gives the live block that begins at an address `n` bytes, and answers where it is then: at its own address where it can stay, else
/// at another, unless `flags.in_place` forbids that. As many of its words as both sizes have keep their values, and those that it gains
/// are 0 where `flags.zero` asks that. Each address may be asked. NoRoomInPlace and NoFit come only where at one step of the call the
/// block cannot stay, NoFit where no range fits `n` bytes either. Behind any answer but `Ok` the block is as it was. It is Busy where
/// another caller is in the way: nothing waits, and each lock is tried once, before anything has changed.
pub fn realloc_now(
    heap: &Heap<State>,
    c: &mut Caller<State>,
    addr: u64,
    n: u64,
    flags: Flags,
) -> Result<u64, ReNo>
    requires table { (c.old.table ≡ heap.now.table) × (c.old.opening ≡ heap.now.opening) }
    requires ready { IsReady c.old }
    ensures ends { EndsWith (MayTry heap.now.opening.limits addr n) c.old c.new (calls.Realloc addr n flags) (realloc_answer result) }
    ensures kept { IfOk result (λ b. KeepsWords c.old c.new addr n b) }
{
    if let Err(busy) = enter_call(heap, c, Call::Realloc { addr, n, flags }) {
        return Err(ReNo::Busy(busy));
    }
    let got = realloc_inside(heap, c, addr, n, flags);
    leave_call(heap, c);
    got
}
