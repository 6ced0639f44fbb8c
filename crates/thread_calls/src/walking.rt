//! A walk over all live blocks.
ghost use Rattle.std.specs.Prelude.{◌≡◌, ◌≢◌, ◌++◌, ◌+◌, ◌^◌, ◌<◌, List, OnOk, IfSome};
ghost use Rattle.heap_model.specs.declared.Reply.{Reply};
ghost use Rattle.heap_now.specs.Calls.{IsReady};
ghost use Rattle.walk_calls.specs.Walk.{Walks};
ghost use Rattle.thread_calls.specs.Serving.{Goes, HasWalked};

use heap_api::{Caller, Heap};
use heap_model::{Block, NotLocked, Reply};
use heap_now::walk_next;
use std::alloc::AllocError;

/// Walks over all live blocks, by address, and puts a reply for each behind those that are there, and then their number. A caller that
/// does not own the heap lock is refused. Where there is no memory for a reply, the walk goes no further.
pub fn walk(heap: &Heap, c: &mut Caller, replies: &mut Vec<Reply>) -> Result<(), AllocError>
    requires table { (c.old.table ≡ heap.now.table) × (c.old.opening ≡ heap.now.opening) }
    requires ready { IsReady c.old }
    ensures goes { Goes c.old c.new }
    ensures depth { c.new.depth ≡ c.old.depth }
    ensures walked { OnOk result ((its : List Reply) × (replies.new.items ≡ replies.old.items ++ its) × HasWalked c.old c.new its) }
{
    if c.depth() == 0 {
        replies.push(Reply::NotLocked)?;
        return Ok(());
    }
    walk_owned(heap, c, replies)
}

// The next block for the owner of the heap lock.
fn next(heap: &Heap, c: &mut Caller, from: u64) -> Option<Block>
    requires table { (c.old.table ≡ heap.now.table) × (c.old.opening ≡ heap.now.opening) }
    requires ready { IsReady c.old }
    requires owner { c.old.depth ≢ 0 }
    ensures { Walks c.old c.new from result }
{
    match walk_next(heap, c, from) {
        Ok(found) => found,
        Err(NotLocked) => unreachable!(),
    }
}

// The address behind another one.
fn behind(addr: u64) -> Option<u64>
    ensures { IfSome result (λ n. (n ≡ addr + 1) × (n < 2 ^ 64)) }
{
    addr.checked_add(1)
}

fn walk_owned(heap: &Heap, c: &mut Caller, replies: &mut Vec<Reply>) -> Result<(), AllocError>
    requires table { (c.old.table ≡ heap.now.table) × (c.old.opening ≡ heap.now.opening) }
    requires ready { IsReady c.old }
    requires owner { c.old.depth ≢ 0 }
    ensures goes { Goes c.old c.new }
    ensures depth { c.new.depth ≡ c.old.depth }
    ensures walked { OnOk result ((its : List Reply) × (replies.new.items ≡ replies.old.items ++ its) × HasWalked c.old c.new its) }
{
    let mut from = 0;
    let mut count = 0;
    while let Some(block) = next(heap, c, from) {
        replies.push(Reply::Seen(block))?;
        // no block lies so high, but no clause says so here
        let Some(next_from) = behind(block.addr) else {
            return Err(AllocError);
        };
        from = next_from;
        count += 1;
    }
    replies.push(Reply::Walked(count))?;
    Ok(())
}
