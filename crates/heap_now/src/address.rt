//! The calls on a block that its address names. None of them takes a lock for a block of a subsegment that the caller has seen tagged.
ghost use Rattle.std.specs.Prelude.{◌≡◌, []};
ghost use Rattle.heap_model.specs.declared.Call.TheVariants as calls;
ghost use Rattle.call_parts.specs.Calls.{IsServing};
ghost use Rattle.address_calls.specs.Answers.{MayGuard};
ghost use Rattle.address_calls.specs.Tagged.{KnowsTag};
ghost use Rattle.heap_now.specs.Calls.{IsReady, EndsWith, ServesWith};
ghost use Rattle.heap_now.specs.Tagged.{TakesNoLock, IsSeenTagged};
ghost use Rattle.heap_now.specs.Words.{size_answer, free_answer, get_answer, put_answer};

use crate::frame::{enter_call, leave_call};
use crate::words::{load_of, store_of};
use address_calls::{drop_block, measure};
use call_parts::State;
use heap_gate::{Caller, Heap};
use heap_model::{Call, FreeNo, WordNo};

/// The size, behind entering.
fn find_size(heap: &Heap<State>, c: &mut Caller<State>, addr: u64) -> Result<u64, FreeNo>
    requires table { (c.old.table ≡ heap.now.table) × (c.old.opening ≡ heap.now.opening) }
    requires serving { IsServing c.old (calls.Size addr) [] }
    ensures serves { ServesWith (MayGuard heap.now.opening.limits addr) c.old c.new (calls.Size addr) (size_answer result) }
    ensures tagged { KnowsTag c.old addr → TakesNoLock c.old c.new (size_answer result) }
{
    match measure(heap, c, addr) {
        Ok(Some(size)) => Ok(size),
        Ok(None) => Err(FreeNo::NotLive),
        Err(busy) => Err(FreeNo::Busy(busy)),
    }
}

/// The bytes that were asked for the live block that begins at an address. Each address may be asked: NotLive comes only where at
/// one step of the call no live block has it.
pub fn size_now(heap: &Heap<State>, c: &mut Caller<State>, addr: u64) -> Result<u64, FreeNo>
    requires table { (c.old.table ≡ heap.now.table) × (c.old.opening ≡ heap.now.opening) }
    requires ready { IsReady c.old }
    ensures ends { EndsWith (MayGuard heap.now.opening.limits addr) c.old c.new (calls.Size addr) (size_answer result) }
    ensures tagged { IsSeenTagged c.old c.new addr → TakesNoLock c.old c.new (size_answer result) }
{
    if let Err(busy) = enter_call(heap, c, Call::Size { addr }) {
        return Err(FreeNo::Busy(busy));
    }
    let told = find_size(heap, c, addr);
    leave_call(heap, c);
    told
}

/// Gives the block back, behind entering.
fn drop_there(heap: &Heap<State>, c: &mut Caller<State>, addr: u64) -> Result<(), FreeNo>
    requires table { (c.old.table ≡ heap.now.table) × (c.old.opening ≡ heap.now.opening) }
    requires serving { IsServing c.old (calls.Free addr) [] }
    ensures serves { ServesWith (MayGuard heap.now.opening.limits addr) c.old c.new (calls.Free addr) (free_answer result) }
    ensures tagged { KnowsTag c.old addr → TakesNoLock c.old c.new (free_answer result) }
{
    match drop_block(heap, c, addr) {
        Ok(true) => Ok(()),
        Ok(false) => Err(FreeNo::NotLive),
        Err(busy) => Err(FreeNo::Busy(busy)),
    }
}

/// Frees the live block that begins at an address: none has it from then on, and its place may be given again. Each address may be
/// asked, as in [`size_now`]. A call that is not answered `Ok` frees nothing.
pub fn free_now(heap: &Heap<State>, c: &mut Caller<State>, addr: u64) -> Result<(), FreeNo>
    requires table { (c.old.table ≡ heap.now.table) × (c.old.opening ≡ heap.now.opening) }
    requires ready { IsReady c.old }
    ensures ends { EndsWith (MayGuard heap.now.opening.limits addr) c.old c.new (calls.Free addr) (free_answer result) }
    ensures tagged { IsSeenTagged c.old c.new addr → TakesNoLock c.old c.new (free_answer result) }
{
    if let Err(busy) = enter_call(heap, c, Call::Free { addr }) {
        return Err(FreeNo::Busy(busy));
    }
    let freed = drop_there(heap, c, addr);
    leave_call(heap, c);
    freed
}

/// The word, behind entering.
fn find_word(
    heap: &Heap<State>,
    c: &mut Caller<State>,
    addr: u64,
    index: u64,
) -> Result<u64, WordNo>
    requires table { (c.old.table ≡ heap.now.table) × (c.old.opening ≡ heap.now.opening) }
    requires serving { IsServing c.old (calls.Get addr index) [] }
    ensures serves { ServesWith (MayGuard heap.now.opening.limits addr) c.old c.new (calls.Get addr index) (get_answer result) }
    ensures tagged { KnowsTag c.old addr → TakesNoLock c.old c.new (get_answer result) }
{
    match measure(heap, c, addr) {
        Ok(Some(size)) => load_of(heap, c, addr, index, size),
        Ok(None) => Err(WordNo::NotLive),
        Err(busy) => Err(WordNo::Busy(busy)),
    }
}

/// Word `index` of the live block that begins at an address, counted from 0 in words of 8 bytes. Past comes exactly where the block
/// that was found has no such word, with the number of its words.
pub fn get_now(
    heap: &Heap<State>,
    c: &mut Caller<State>,
    addr: u64,
    index: u64,
) -> Result<u64, WordNo>
    requires table { (c.old.table ≡ heap.now.table) × (c.old.opening ≡ heap.now.opening) }
    requires ready { IsReady c.old }
    ensures ends { EndsWith (MayGuard heap.now.opening.limits addr) c.old c.new (calls.Get addr index) (get_answer result) }
    ensures tagged { IsSeenTagged c.old c.new addr → TakesNoLock c.old c.new (get_answer result) }
{
    if let Err(busy) = enter_call(heap, c, Call::Get { addr, index }) {
        return Err(WordNo::Busy(busy));
    }
    let told = find_word(heap, c, addr, index);
    leave_call(heap, c);
    told
}

/// Stores the word, behind entering.
fn put_word(
    heap: &Heap<State>,
    c: &mut Caller<State>,
    addr: u64,
    index: u64,
    value: u64,
) -> Result<(), WordNo>
    requires table { (c.old.table ≡ heap.now.table) × (c.old.opening ≡ heap.now.opening) }
    requires serving { IsServing c.old (calls.Put addr index value) [] }
    ensures serves { ServesWith (MayGuard heap.now.opening.limits addr) c.old c.new (calls.Put addr index value) (put_answer result) }
    ensures tagged { KnowsTag c.old addr → TakesNoLock c.old c.new (put_answer result) }
{
    match measure(heap, c, addr) {
        Ok(Some(size)) => store_of(heap, c, addr, index, size, value),
        Ok(None) => Err(WordNo::NotLive),
        Err(busy) => Err(WordNo::Busy(busy)),
    }
}

/// Stores into word `index` of the live block that begins at an address, as [`get_now`] loads it.
pub fn put_now(
    heap: &Heap<State>,
    c: &mut Caller<State>,
    addr: u64,
    index: u64,
    value: u64,
) -> Result<(), WordNo>
    requires table { (c.old.table ≡ heap.now.table) × (c.old.opening ≡ heap.now.opening) }
    requires ready { IsReady c.old }
    ensures ends { EndsWith (MayGuard heap.now.opening.limits addr) c.old c.new (calls.Put addr index value) (put_answer result) }
    ensures tagged { IsSeenTagged c.old c.new addr → TakesNoLock c.old c.new (put_answer result) }
{
    if let Err(busy) = enter_call(heap, c, Call::Put { addr, index, value }) {
        return Err(WordNo::Busy(busy));
    }
    let told = put_word(heap, c, addr, index, value);
    leave_call(heap, c);
    told
}
