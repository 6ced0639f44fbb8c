//! Reallocation.
ghost use Rattle.std.specs.Prelude.{◌≡◌};
ghost use Rattle.heap_now.specs.Calls.{IsReady};
ghost use Rattle.heap_api.specs.Reallocs.{ReallocatesAtLast};

use crate::ReRefused;
use heap_model::{Flags, ReNo};
use heap_now::{Caller, Heap, realloc_now};
use std::sync::Wait;
use std::thread;

/// Gives the live block that begins at an address `n` bytes, as `heap_now::realloc_now` does, and answers where it is then. It waits
/// while another caller is in the way. The words that both sizes have keep their values; any other answer but `Ok` leaves the block as
/// it was.
pub fn realloc<R: Wait>(
    rt: &R,
    heap: &Heap,
    c: &mut Caller,
    addr: u64,
    n: u64,
    flags: Flags,
) -> Result<u64, ReRefused>
    requires table { (c.old.table ≡ heap.now.table) × (c.old.opening ≡ heap.now.opening) }
    requires ready { IsReady c.old }
    ensures { ReallocatesAtLast c.old c.new addr n flags result }
{
    for _ in rt.forever() {
        match realloc_now(heap, c, addr, n, flags) {
            Ok(there) => return Ok(there),
            Err(ReNo::NotLive) => return Err(ReRefused::NotLive),
            Err(ReNo::NoFit) => return Err(ReRefused::NoFit),
            Err(ReNo::NoRoomInPlace) => return Err(ReRefused::NoRoomInPlace),
            Err(ReNo::Busy(_)) => thread::yield_now(),
        }
    }
    unreachable!()
}
