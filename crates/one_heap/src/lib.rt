//! The heap over the table as its only caller uses it: it is opened with that caller, serves one call after another, and is
//! closed once the caller has joined.
//!
//! Nobody else can hold a lock, so no call is `Busy`. Addresses are offsets in the heap's region, in bytes.
#![tactic(auto)]

ghost use Rattle.std.specs.Prelude.{◌≡◌, ◌++◌, ◌∷◌, [], true, List, IfOk, OnOk};
ghost use Rattle.heap_model.specs.declared.Call.TheVariants as calls;
ghost use Rattle.heap_model.specs.declared.Reply.{Reply as ReplyOf};
ghost use Rattle.heap_model.specs.State.{live};
ghost use Rattle.heap_model.specs.History.{IsLegal};
ghost use Rattle.heap_model.specs.Limits.{AreValid};
ghost use Rattle.heap_model.specs.Serial.{IsIdle};
ghost use Rattle.layout_decode.specs.Decode.{decode, IsReadable};
ghost use Rattle.layout_decode.specs.Shows.{Shows};
ghost use Rattle.thread_calls.specs.Serving.{IsServable, IsDepthBehind, is_last};
ghost use Rattle.one_heap.specs.Lone.{LoneHeap, new_with, setting_of, history_of, behind, Serves, Walks};

use heap_closing::close;
use heap_gate::{join, make_caller};
use heap_model::{
    AllocNo, Call, Flags, FreeNo, Limits, LockNo, NotOwner, OutOfMemory, ReNo, Reply, WordNo,
};
use heap_now::{
    Caller, Heap, Root, alloc_now, compact_now, free_now, get_now, lock_now, open_heap, put_now,
    realloc_now, size_now, unlock_now,
};
use layout_decode::Image;
use std::alloc::{AllocError, Global};
use std::marker::Model;
use thread_calls::walk;

/// The affinity slot of the only caller.
const SLOT: u32 = 0;

/// The stream of its draws.
const STREAM: u64 = 0;

/// A heap with one caller. Contracts see what it was opened with, and all that its caller has done.
#[derive(Drop)]
pub struct OneHeap {
    heap: Heap,
    root: Root,
    caller: Caller,
}

impl Model for OneHeap {
    ghost use Rattle.one_heap.specs.Lone.{LoneHeap, IsLone, seen_by};

    ghost Value = { LoneHeap };

    ghost view = { λ h. seen_by h.heap h.caller };

    ghost invariant = { λ h. IsLone h.heap h.root h.caller };
}

impl OneHeap {
    /// A heap with nothing in it. It takes all the memory that it will ever use.
    pub fn open(alloc: Global, limits: Limits, seed: u64) -> Result<OneHeap, OutOfMemory>
        requires limits { AreValid limits }
        requires few { limits.callers ≡ 1 }
        ensures { IfOk result (λ h. h ≡ new_with limits seed) }
    {
        let (heap, mut root) = open_heap(alloc, limits, seed)?;
        let caller = make_caller(&heap, &mut root, seed, SLOT, STREAM);
        Ok(OneHeap { heap, root, caller })
    }

    /// Makes a call and answers its reply. Taking the heap lock again, or giving it back but for the last time, takes no step. A walk is
    /// several calls, and is none of these.
    pub fn serve(&mut self, call: &Call) -> Reply
        requires { IsServable call.now }
        ensures serves { Serves self.old self.new call.now (result ∷ []) }
        ensures last { is_last result ≡ true }
        ensures depth { IsDepthBehind call.now self.old.depth self.new.depth }
    {
        match *call {
            Call::Alloc { n, flags } => self.alloc(n, flags),
            Call::Realloc { addr, n, flags } => self.realloc(addr, n, flags),
            Call::Free { addr } => self.free(addr),
            Call::Size { addr } => self.size(addr),
            Call::Get { addr, index } => self.get(addr, index),
            Call::Put { addr, index, value } => self.put(addr, index, value),
            Call::Lock => self.lock(),
            Call::Unlock => self.unlock(),
            Call::Compact => self.compact(),
            Call::WalkNext { .. } | Call::Stay => unreachable!(),
        }
    }

    /// Walks over all live blocks, by address, and puts a reply for each behind those that are there, and then their number; or a
    /// refusal, where the heap lock is not taken. Where there is no memory for a reply, the walk goes no further.
    pub fn walk(&mut self, replies: &mut Vec<Reply>) -> Result<(), AllocError>
        ensures { OnOk result ((its : List ReplyOf) × (replies.new.items ≡ replies.old.items ++ its) × Walks self.old self.new its) }
    {
        walk(&self.heap, &mut self.caller, replies)
    }

    fn alloc(&mut self, n: u64, flags: Flags) -> Reply
        ensures serves { Serves self.old self.new (calls.Alloc n flags) (result ∷ []) }
        ensures last { is_last result ≡ true }
        ensures depth { IsDepthBehind (calls.Alloc n flags) self.old.depth self.new.depth }
    {
        match alloc_now(&self.heap, &mut self.caller, n, flags) {
            Ok(addr) => Reply::Address(addr),
            Err(AllocNo::NoFit) => Reply::NoFit,
            Err(AllocNo::Busy(_)) => unreachable!(),
        }
    }

    fn realloc(&mut self, addr: u64, n: u64, flags: Flags) -> Reply
        ensures serves { Serves self.old self.new (calls.Realloc addr n flags) (result ∷ []) }
        ensures last { is_last result ≡ true }
        ensures depth { IsDepthBehind (calls.Realloc addr n flags) self.old.depth self.new.depth }
    {
        match realloc_now(&self.heap, &mut self.caller, addr, n, flags) {
            Ok(there) => Reply::Address(there),
            Err(ReNo::NotLive) => Reply::NotLive,
            Err(ReNo::NoFit) => Reply::NoFit,
            Err(ReNo::NoRoomInPlace) => Reply::NoRoom,
            Err(ReNo::Busy(_)) => unreachable!(),
        }
    }

    fn free(&mut self, addr: u64) -> Reply
        ensures serves { Serves self.old self.new (calls.Free addr) (result ∷ []) }
        ensures last { is_last result ≡ true }
        ensures depth { IsDepthBehind (calls.Free addr) self.old.depth self.new.depth }
    {
        match free_now(&self.heap, &mut self.caller, addr) {
            Ok(()) => Reply::Done,
            Err(FreeNo::NotLive) => Reply::NotLive,
            Err(FreeNo::Busy(_)) => unreachable!(),
        }
    }

    fn size(&mut self, addr: u64) -> Reply
        ensures serves { Serves self.old self.new (calls.Size addr) (result ∷ []) }
        ensures last { is_last result ≡ true }
        ensures depth { IsDepthBehind (calls.Size addr) self.old.depth self.new.depth }
    {
        match size_now(&self.heap, &mut self.caller, addr) {
            Ok(n) => Reply::Number(n),
            Err(FreeNo::NotLive) => Reply::NotLive,
            Err(FreeNo::Busy(_)) => unreachable!(),
        }
    }

    fn get(&mut self, addr: u64, index: u64) -> Reply
        ensures serves { Serves self.old self.new (calls.Get addr index) (result ∷ []) }
        ensures last { is_last result ≡ true }
        ensures depth { IsDepthBehind (calls.Get addr index) self.old.depth self.new.depth }
    {
        match get_now(&self.heap, &mut self.caller, addr, index) {
            Ok(value) => Reply::Number(value),
            Err(WordNo::NotLive) => Reply::NotLive,
            Err(WordNo::Past { words }) => Reply::Past(words),
            Err(WordNo::Busy(_)) => unreachable!(),
        }
    }

    fn put(&mut self, addr: u64, index: u64, value: u64) -> Reply
        ensures serves { Serves self.old self.new (calls.Put addr index value) (result ∷ []) }
        ensures last { is_last result ≡ true }
        ensures depth { IsDepthBehind (calls.Put addr index value) self.old.depth self.new.depth }
    {
        match put_now(&self.heap, &mut self.caller, addr, index, value) {
            Ok(()) => Reply::Done,
            Err(WordNo::NotLive) => Reply::NotLive,
            Err(WordNo::Past { words }) => Reply::Past(words),
            Err(WordNo::Busy(_)) => unreachable!(),
        }
    }

    fn lock(&mut self) -> Reply
        ensures serves { Serves self.old self.new calls.Lock (result ∷ []) }
        ensures last { is_last result ≡ true }
        ensures depth { IsDepthBehind calls.Lock self.old.depth self.new.depth }
    {
        match lock_now(&self.heap, &mut self.caller) {
            Ok(()) => Reply::Done,
            Err(LockNo::Depth) => Reply::Depth,
            Err(LockNo::Busy(_)) => unreachable!(),
        }
    }

    fn unlock(&mut self) -> Reply
        ensures serves { Serves self.old self.new calls.Unlock (result ∷ []) }
        ensures last { is_last result ≡ true }
        ensures depth { IsDepthBehind calls.Unlock self.old.depth self.new.depth }
    {
        match unlock_now(&self.heap, &mut self.caller) {
            Ok(()) => Reply::Done,
            Err(NotOwner) => Reply::NotOwner,
        }
    }

    fn compact(&mut self) -> Reply
        ensures serves { Serves self.old self.new calls.Compact (result ∷ []) }
        ensures last { is_last result ≡ true }
        ensures depth { IsDepthBehind calls.Compact self.old.depth self.new.depth }
    {
        match compact_now(&self.heap, &mut self.caller) {
            Ok(pages) => Reply::Compacted(pages),
            Err(_) => unreachable!(),
        }
    }

    /// What the heap leaves behind: an image of its metadata, which shows its state. The heap lock was given back.
    pub fn close(self) -> Image
        requires free { self.depth ≡ 0 }
        ensures legal { IsLegal (setting_of self) (history_of self) }
        ensures idle { IsIdle (behind self) }
        ensures shows { Shows result (setting_of self) (behind self).state }
        // the blocks that it decodes to are the live ones
        ensures blocks { decode result ≡ live (behind self).state }
        ensures readable { IsReadable result }
    {
        let OneHeap {
            heap,
            mut root,
            caller,
        } = self;
        join(&heap, &mut root, caller);
        let _limits = heap.limits();
        close(heap, root).image
    }
}

#[cfg(test)]
mod tests;
