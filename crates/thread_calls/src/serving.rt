//! One call, whatever it is.
ghost use Rattle.std.specs.Prelude.{◌≡◌, ◌∷◌, [], true};
ghost use Rattle.heap_model.specs.declared.Call.TheVariants as calls;
ghost use Rattle.heap_now.specs.Calls.{IsReady};
ghost use Rattle.heap_api.specs.AtLast.{GetsAtLast};
ghost use Rattle.thread_calls.specs.Serving.{IsServable, IsDepthBehind, Serves, is_last};

use crate::lock_calls::{give_back, take};
use heap_api::{
    Caller, Heap, NoFit, NotLive, ReRefused, WordRefused, alloc, compact, free, get, put, realloc,
    size,
};
use heap_model::{Call, Flags, Reply};
use std::sync::Wait;

fn place<R: Wait>(rt: &R, heap: &Heap, c: &mut Caller, n: u64, flags: Flags) -> Reply
    requires table { (c.old.table ≡ heap.now.table) × (c.old.opening ≡ heap.now.opening) }
    requires ready { IsReady c.old }
    ensures gets { GetsAtLast c.old c.new (calls.Alloc n flags) result }
    ensures last { is_last result ≡ true }
{
    match alloc(rt, heap, c, n, flags) {
        Ok(addr) => Reply::Address(addr),
        Err(NoFit) => Reply::NoFit,
    }
}

fn change<R: Wait>(rt: &R, heap: &Heap, c: &mut Caller, addr: u64, n: u64, flags: Flags) -> Reply
    requires table { (c.old.table ≡ heap.now.table) × (c.old.opening ≡ heap.now.opening) }
    requires ready { IsReady c.old }
    ensures gets { GetsAtLast c.old c.new (calls.Realloc addr n flags) result }
    ensures last { is_last result ≡ true }
{
    match realloc(rt, heap, c, addr, n, flags) {
        Ok(there) => Reply::Address(there),
        Err(ReRefused::NotLive) => Reply::NotLive,
        Err(ReRefused::NoFit) => Reply::NoFit,
        Err(ReRefused::NoRoomInPlace) => Reply::NoRoom,
    }
}

fn give_up<R: Wait>(rt: &R, heap: &Heap, c: &mut Caller, addr: u64) -> Reply
    requires table { (c.old.table ≡ heap.now.table) × (c.old.opening ≡ heap.now.opening) }
    requires ready { IsReady c.old }
    ensures gets { GetsAtLast c.old c.new (calls.Free addr) result }
    ensures last { is_last result ≡ true }
{
    match free(rt, heap, c, addr) {
        Ok(()) => Reply::Done,
        Err(NotLive) => Reply::NotLive,
    }
}

fn ask<R: Wait>(rt: &R, heap: &Heap, c: &mut Caller, addr: u64) -> Reply
    requires table { (c.old.table ≡ heap.now.table) × (c.old.opening ≡ heap.now.opening) }
    requires ready { IsReady c.old }
    ensures gets { GetsAtLast c.old c.new (calls.Size addr) result }
    ensures last { is_last result ≡ true }
{
    match size(rt, heap, c, addr) {
        Ok(told) => Reply::Number(told),
        Err(NotLive) => Reply::NotLive,
    }
}

fn read<R: Wait>(rt: &R, heap: &Heap, c: &mut Caller, addr: u64, index: u64) -> Reply
    requires table { (c.old.table ≡ heap.now.table) × (c.old.opening ≡ heap.now.opening) }
    requires ready { IsReady c.old }
    ensures gets { GetsAtLast c.old c.new (calls.Get addr index) result }
    ensures last { is_last result ≡ true }
{
    match get(rt, heap, c, addr, index) {
        Ok(value) => Reply::Number(value),
        Err(WordRefused::NotLive) => Reply::NotLive,
        Err(WordRefused::Past { words }) => Reply::Past(words),
    }
}

fn write<R: Wait>(rt: &R, heap: &Heap, c: &mut Caller, addr: u64, index: u64, value: u64) -> Reply
    requires table { (c.old.table ≡ heap.now.table) × (c.old.opening ≡ heap.now.opening) }
    requires ready { IsReady c.old }
    ensures gets { GetsAtLast c.old c.new (calls.Put addr index value) result }
    ensures last { is_last result ≡ true }
{
    match put(rt, heap, c, addr, index, value) {
        Ok(()) => Reply::Done,
        Err(WordRefused::NotLive) => Reply::NotLive,
        Err(WordRefused::Past { words }) => Reply::Past(words),
    }
}

fn press<R: Wait>(rt: &R, heap: &Heap, c: &mut Caller) -> Reply
    requires table { (c.old.table ≡ heap.now.table) × (c.old.opening ≡ heap.now.opening) }
    requires ready { IsReady c.old }
    ensures gets { GetsAtLast c.old c.new calls.Compact result }
    ensures last { is_last result ≡ true }
{
    Reply::Compacted(compact(rt, heap, c))
}

/// Makes a call, waiting while another caller is in the way, and answers its reply. A call that takes no step, as taking the heap lock
/// again, is answered by the caller's depth. A walk is several calls, and is none of these.
pub fn serve<R: Wait>(rt: &R, heap: &Heap, c: &mut Caller, call: Call) -> Reply
    requires table { (c.old.table ≡ heap.now.table) × (c.old.opening ≡ heap.now.opening) }
    requires ready { IsReady c.old }
    requires servable { IsServable call }
    ensures served { Serves c.old c.new call (result ∷ []) }
    ensures last { is_last result ≡ true }
    ensures depth { IsDepthBehind call c.old.depth c.new.depth }
{
    match call {
        Call::Alloc { n, flags } => place(rt, heap, c, n, flags),
        Call::Realloc { addr, n, flags } => change(rt, heap, c, addr, n, flags),
        Call::Free { addr } => give_up(rt, heap, c, addr),
        Call::Size { addr } => ask(rt, heap, c, addr),
        Call::Get { addr, index } => read(rt, heap, c, addr, index),
        Call::Put { addr, index, value } => write(rt, heap, c, addr, index, value),
        Call::Lock => take(rt, heap, c),
        Call::Unlock => give_back(heap, c),
        Call::Compact => press(rt, heap, c),
        Call::WalkNext { .. } | Call::Stay => unreachable!(),
    }
}
