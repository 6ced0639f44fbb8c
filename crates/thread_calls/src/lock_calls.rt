//! The heap lock, taken and given back at any depth.
ghost use Rattle.std.specs.Prelude.{◌≡◌, ◌∷◌, [], true};
ghost use Rattle.heap_model.specs.declared.Call.TheVariants as calls;
ghost use Rattle.heap_now.specs.Calls.{IsReady};
ghost use Rattle.thread_calls.specs.Serving.{IsDepthBehind, Serves, is_last};

use heap_api::{Caller, Depth, Heap, lock, unlock};
use heap_model::{NotOwner, Reply};
use std::sync::Wait;

pub(crate) fn take<R: Wait>(rt: &R, heap: &Heap, c: &mut Caller) -> Reply
    requires table { c.old.table ≡ heap.now.table }
    requires ready { IsReady c.old }
    ensures served { Serves c.old c.new calls.Lock (result ∷ []) }
    ensures last { is_last result ≡ true }
    ensures depth { IsDepthBehind calls.Lock c.old.depth c.new.depth }
{
    match lock(rt, heap, c) {
        Ok(()) => Reply::Done,
        Err(Depth) => Reply::Depth,
    }
}

pub(crate) fn give_back(heap: &Heap, c: &mut Caller) -> Reply
    requires table { c.old.table ≡ heap.now.table }
    requires ready { IsReady c.old }
    ensures served { Serves c.old c.new calls.Unlock (result ∷ []) }
    ensures last { is_last result ≡ true }
    ensures depth { IsDepthBehind calls.Unlock c.old.depth c.new.depth }
{
    match unlock(heap, c) {
        Ok(()) => Reply::Done,
        Err(NotOwner) => Reply::NotOwner,
    }
}
