//! The heap lock, and compaction under it.
ghost use Rattle.std.specs.Prelude.{◌≡◌, OnOk, OnErr};
ghost use Rattle.heap_model.specs.declared.Call.TheVariants as calls;
ghost use Rattle.heap_model.specs.declared.Reply.TheVariants as replies;
ghost use Rattle.heap_now.specs.Calls.{IsReady};
ghost use Rattle.heap_api.specs.AtLast.{GetsAtLast};
ghost use Rattle.heap_api.specs.Locks.{IsLockedAtLast};

use crate::Depth;
use heap_model::LockNo;
use heap_now::{Caller, Heap, compact_now, lock_now};
use std::sync::Wait;
use std::thread;

/// Takes the heap lock, as `heap_now::lock_now` does, and waits while another caller is inside or owns it. Depth comes exactly where the
/// caller has taken it 65,535 times.
pub fn lock<R: Wait>(rt: &R, heap: &Heap, c: &mut Caller) -> Result<(), Depth>
    requires table { c.old.table ≡ heap.now.table }
    requires ready { IsReady c.old }
    ensures taken { OnOk result (IsLockedAtLast c.old c.new) }
    ensures refused { OnErr result ((c.old.depth ≡ 65535) × (c.new ≡ c.old)) }
{
    for _ in rt.forever() {
        match lock_now(heap, c) {
            Ok(()) => return Ok(()),
            Err(LockNo::Depth) => return Err(Depth),
            Err(LockNo::Busy(_)) => thread::yield_now(),
        }
    }
    unreachable!()
}

/// Compacts, as `heap_now::compact_now` does, and answers how many pages were decommitted. A caller that does not own the heap lock waits
/// while another caller is inside or owns it.
pub fn compact<R: Wait>(rt: &R, heap: &Heap, c: &mut Caller) -> u64
    requires table { (c.old.table ≡ heap.now.table) × (c.old.opening ≡ heap.now.opening) }
    requires ready { IsReady c.old }
    ensures { GetsAtLast c.old c.new calls.Compact (replies.Compacted result) }
{
    for _ in rt.forever() {
        match compact_now(heap, c) {
            Ok(pages) => return pages,
            Err(_) => thread::yield_now(),
        }
    }
    unreachable!()
}
