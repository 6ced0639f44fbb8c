ghost use Rattle.std.specs.Prelude.{IfOk};
ghost use Rattle.heap_now.specs.Calls.{IsCallerOf};

mod sharing;

use super::*;
use heap_gate::make_caller;
use heap_model::{Flags, Limits, NotOwner, OutOfMemory};
use std::alloc::Global;
use std::sync::Wait;
use std::test::*;

const PLAIN: Flags = Flags {
    zero: false,
    in_place: false,
};

// A heap of one segment and 256 large pages, with its caller.
#[tactic(auto, using(crate::proofs::Callers::fresh_is))]
fn alone(alloc: Global) -> Result<(Heap, Root, Caller), OutOfMemory>
    ensures { IfOk result (λ r. IsCallerOf r.0 r.2) }
{
    let limits = Limits {
        segments: 1,
        large_pages: 256,
        slots: 1,
        callers: 1,
    };
    let (heap, mut root) = open_heap(alloc, limits, 42)?;
    let c = make_caller(&heap, &mut root, 42, 0, 0);
    Ok((heap, root, c))
}

// The public calls, each of a caller that owns no heap lock.

fn place<R: Wait>(rt: &R, heap: &Heap, c: &mut Caller, n: u64) -> Result<u64, NoFit>
    requires { IsCallerOf heap.now c.old }
    ensures { IsCallerOf heap.now c.new }
{
    alloc(rt, heap, c, n, PLAIN)
}

fn give_up<R: Wait>(rt: &R, heap: &Heap, c: &mut Caller, addr: u64) -> Result<(), NotLive>
    requires { IsCallerOf heap.now c.old }
    ensures { IsCallerOf heap.now c.new }
{
    free(rt, heap, c, addr)
}

fn ask<R: Wait>(rt: &R, heap: &Heap, c: &mut Caller, addr: u64) -> Result<u64, NotLive>
    requires { IsCallerOf heap.now c.old }
    ensures { IsCallerOf heap.now c.new }
{
    size(rt, heap, c, addr)
}

fn read<R: Wait>(
    rt: &R,
    heap: &Heap,
    c: &mut Caller,
    addr: u64,
    index: u64,
) -> Result<u64, WordRefused>
    requires { IsCallerOf heap.now c.old }
    ensures { IsCallerOf heap.now c.new }
{
    get(rt, heap, c, addr, index)
}

fn write<R: Wait>(
    rt: &R,
    heap: &Heap,
    c: &mut Caller,
    addr: u64,
    index: u64,
    value: u64,
) -> Result<(), WordRefused>
    requires { IsCallerOf heap.now c.old }
    ensures { IsCallerOf heap.now c.new }
{
    put(rt, heap, c, addr, index, value)
}

fn change<R: Wait>(
    rt: &R,
    heap: &Heap,
    c: &mut Caller,
    addr: u64,
    n: u64,
    flags: Flags,
) -> Result<u64, ReRefused>
    requires { IsCallerOf heap.now c.old }
    ensures { IsCallerOf heap.now c.new }
{
    realloc(rt, heap, c, addr, n, flags)
}

fn press<R: Wait>(rt: &R, heap: &Heap, c: &mut Caller) -> u64
    requires { IsCallerOf heap.now c.old }
    ensures { IsCallerOf heap.now c.new }
{
    compact(rt, heap, c)
}

#[tactic(auto, using(crate::proofs::Callers::locked_at_last))]
fn take<R: Wait>(rt: &R, heap: &Heap, c: &mut Caller) -> Result<(), Depth>
    requires { IsCallerOf heap.now c.old }
    ensures { IsCallerOf heap.now c.new }
{
    lock(rt, heap, c)
}

#[tactic(auto, using(heap_now::proofs::Locking::unlocked_again))]
fn give_back(heap: &Heap, c: &mut Caller) -> Result<(), NotOwner>
    requires { IsCallerOf heap.now c.old }
    ensures { IsCallerOf heap.now c.new }
{
    unlock(heap, c)
}

// A block of 40 bytes has five words, and lies in the first span of variable size, 64 bytes behind the two header pages.
#[test]
fn calls_are_answered(rt: HostRuntime) -> Result<(), Fail> {
    let (heap, _root, mut c) = alone(rt.alloc())?;
    assert_eq!(rt; place(&rt, &heap, &mut c, 40), Ok(8256));
    assert_eq!(rt; ask(&rt, &heap, &mut c, 8256), Ok(40));
    assert_eq!(rt; write(&rt, &heap, &mut c, 8256, 4, 7), Ok(()));
    assert_eq!(rt; read(&rt, &heap, &mut c, 8256, 4), Ok(7));
    assert_eq!(rt;
        read(&rt, &heap, &mut c, 8256, 5),
        Err(WordRefused::Past { words: 5 })
    );
    assert_eq!(rt;
        write(&rt, &heap, &mut c, 8256, 5, 1),
        Err(WordRefused::Past { words: 5 })
    );
    assert_eq!(rt; give_up(&rt, &heap, &mut c, 8256), Ok(()));
    assert_eq!(rt; give_up(&rt, &heap, &mut c, 8256), Err(NotLive));
    assert_eq!(rt; ask(&rt, &heap, &mut c, 8256), Err(NotLive));
    assert_eq!(rt;
        read(&rt, &heap, &mut c, 8256, 0),
        Err(WordRefused::NotLive)
    );
    assert_eq!(rt;
        write(&rt, &heap, &mut c, 8256, 0, 1),
        Err(WordRefused::NotLive)
    );
    assert_eq!(rt; place(&rt, &heap, &mut c, 2_000_000), Err(NoFit));
    Ok(())
}

// From the back end to the large area and to the variable-size layer: 600,000 bytes are 147 pages, and 2,000,000 more than the heap has.
#[test]
fn a_block_moves_with_its_words(rt: HostRuntime) -> Result<(), Fail> {
    let (heap, _root, mut c) = alone(rt.alloc())?;
    let fixed = Flags {
        zero: false,
        in_place: true,
    };
    assert_eq!(rt; place(&rt, &heap, &mut c, 520_192), Ok(8192));
    assert_eq!(rt; write(&rt, &heap, &mut c, 8192, 0, 5), Ok(()));
    assert_eq!(rt;
        change(&rt, &heap, &mut c, 8192, 600_000, fixed),
        Err(ReRefused::NoRoomInPlace)
    );
    assert_eq!(rt;
        change(&rt, &heap, &mut c, 8192, 2_000_000, PLAIN),
        Err(ReRefused::NoFit)
    );
    assert_eq!(rt;
        change(&rt, &heap, &mut c, 8192, 600_000, PLAIN),
        Ok(1_048_576)
    );
    assert_eq!(rt; read(&rt, &heap, &mut c, 1_048_576, 0), Ok(5));
    assert_eq!(rt; change(&rt, &heap, &mut c, 1_048_576, 100, PLAIN), Ok(8256));
    assert_eq!(rt; read(&rt, &heap, &mut c, 8256, 0), Ok(5));
    assert_eq!(rt;
        change(&rt, &heap, &mut c, 1_048_576, 100, PLAIN),
        Err(ReRefused::NotLive)
    );
    Ok(())
}

// The span of the block that was freed had 16 pages, which stay committed until the heap is compacted.
#[test]
fn free_pages_are_decommitted(rt: HostRuntime) -> Result<(), Fail> {
    let (heap, _root, mut c) = alone(rt.alloc())?;
    assert_eq!(rt; place(&rt, &heap, &mut c, 40), Ok(8256));
    assert_eq!(rt; give_up(&rt, &heap, &mut c, 8256), Ok(()));
    assert_eq!(rt; press(&rt, &heap, &mut c), 16);
    assert_eq!(rt; press(&rt, &heap, &mut c), 0);
    Ok(())
}

// It is given back as often as it was taken, and once more in vain.
#[test]
fn the_lock_is_taken_twice(rt: HostRuntime) -> Result<(), Fail> {
    let (heap, _root, mut c) = alone(rt.alloc())?;
    assert_eq!(rt; take(&rt, &heap, &mut c), Ok(()));
    assert_eq!(rt; take(&rt, &heap, &mut c), Ok(()));
    assert_eq!(rt; c.depth(), 2);
    assert_eq!(rt; press(&rt, &heap, &mut c), 0);
    assert_eq!(rt; give_back(&heap, &mut c), Ok(()));
    assert_eq!(rt; give_back(&heap, &mut c), Ok(()));
    assert_eq!(rt; give_back(&heap, &mut c), Err(NotOwner));
    Ok(())
}
