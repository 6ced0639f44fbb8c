//! Blocks: placed, asked for their size, freed.
ghost use Rattle.std.specs.Prelude.{◌≡◌};
ghost use Rattle.heap_model.specs.declared.Call.TheVariants as calls;
ghost use Rattle.heap_now.specs.Calls.{IsReady};
ghost use Rattle.heap_api.specs.AtLast.{GetsAtLast, alloc_reply, free_reply, size_reply};

use crate::{NoFit, NotLive};
use heap_model::{AllocNo, Flags, FreeNo};
use heap_now::{Caller, Heap, alloc_now, free_now, size_now};
use std::sync::Wait;
use std::thread;

/// Allocates `n` bytes, as `heap_now::alloc_now` does, and waits while another caller is in the way. NoFit comes only where at one step
/// of the last try no range fits.
pub fn alloc<R: Wait>(
    rt: &R,
    heap: &Heap,
    c: &mut Caller,
    n: u64,
    flags: Flags,
) -> Result<u64, NoFit>
    requires table { (c.old.table ≡ heap.now.table) × (c.old.opening ≡ heap.now.opening) }
    requires ready { IsReady c.old }
    ensures { GetsAtLast c.old c.new (calls.Alloc n flags) (alloc_reply result) }
{
    for _ in rt.forever() {
        match alloc_now(heap, c, n, flags) {
            Ok(addr) => return Ok(addr),
            Err(AllocNo::NoFit) => return Err(NoFit),
            Err(AllocNo::Busy(_)) => thread::yield_now(),
        }
    }
    unreachable!()
}

/// The bytes that were asked for the live block that begins at an address, as `heap_now::size_now` tells them. It waits while another
/// caller is in the way.
pub fn size<R: Wait>(rt: &R, heap: &Heap, c: &mut Caller, addr: u64) -> Result<u64, NotLive>
    requires table { (c.old.table ≡ heap.now.table) × (c.old.opening ≡ heap.now.opening) }
    requires ready { IsReady c.old }
    ensures { GetsAtLast c.old c.new (calls.Size addr) (size_reply result) }
{
    for _ in rt.forever() {
        match size_now(heap, c, addr) {
            Ok(size) => return Ok(size),
            Err(FreeNo::NotLive) => return Err(NotLive),
            Err(FreeNo::Busy(_)) => thread::yield_now(),
        }
    }
    unreachable!()
}

/// Frees the live block that begins at an address, as `heap_now::free_now` does, and waits while another caller is in the way.
pub fn free<R: Wait>(rt: &R, heap: &Heap, c: &mut Caller, addr: u64) -> Result<(), NotLive>
    requires table { (c.old.table ≡ heap.now.table) × (c.old.opening ≡ heap.now.opening) }
    requires ready { IsReady c.old }
    ensures { GetsAtLast c.old c.new (calls.Free addr) (free_reply result) }
{
    for _ in rt.forever() {
        match free_now(heap, c, addr) {
            Ok(()) => return Ok(()),
            Err(FreeNo::NotLive) => return Err(NotLive),
            Err(FreeNo::Busy(_)) => thread::yield_now(),
        }
    }
    unreachable!()
}
