//! Words of a block that its address names.
ghost use Rattle.std.specs.Prelude.{◌≡◌};
ghost use Rattle.heap_model.specs.declared.Call.TheVariants as calls;
ghost use Rattle.heap_now.specs.Calls.{IsReady};
ghost use Rattle.heap_api.specs.AtLast.{GetsAtLast, get_reply, put_reply};

use crate::WordRefused;
use heap_model::WordNo;
use heap_now::{Caller, Heap, get_now, put_now};
use std::sync::Wait;
use std::thread;

/// Word `index` of the live block that begins at an address, as `heap_now::get_now` loads it. It waits while another caller is in the way.
pub fn get<R: Wait>(
    rt: &R,
    heap: &Heap,
    c: &mut Caller,
    addr: u64,
    index: u64,
) -> Result<u64, WordRefused>
    requires table { (c.old.table ≡ heap.now.table) × (c.old.opening ≡ heap.now.opening) }
    requires ready { IsReady c.old }
    ensures { GetsAtLast c.old c.new (calls.Get addr index) (get_reply result) }
{
    for _ in rt.forever() {
        match get_now(heap, c, addr, index) {
            Ok(value) => return Ok(value),
            Err(WordNo::NotLive) => return Err(WordRefused::NotLive),
            Err(WordNo::Past { words }) => return Err(WordRefused::Past { words }),
            Err(WordNo::Busy(_)) => thread::yield_now(),
        }
    }
    unreachable!()
}

/// Stores into word `index` of the live block that begins at an address, as `heap_now::put_now` does, and waits while another caller is in
/// the way.
pub fn put<R: Wait>(
    rt: &R,
    heap: &Heap,
    c: &mut Caller,
    addr: u64,
    index: u64,
    value: u64,
) -> Result<(), WordRefused>
    requires table { (c.old.table ≡ heap.now.table) × (c.old.opening ≡ heap.now.opening) }
    requires ready { IsReady c.old }
    ensures { GetsAtLast c.old c.new (calls.Put addr index value) (put_reply result) }
{
    for _ in rt.forever() {
        match put_now(heap, c, addr, index, value) {
            Ok(()) => return Ok(()),
            Err(WordNo::NotLive) => return Err(WordRefused::NotLive),
            Err(WordNo::Past { words }) => return Err(WordRefused::Past { words }),
            Err(WordNo::Busy(_)) => thread::yield_now(),
        }
    }
    unreachable!()
}
