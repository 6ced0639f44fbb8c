ghost use Rattle.std.specs.Prelude.{◌≤◌, IfOk};
ghost use Rattle.heap_now.specs.Callers.{IsFreeCaller, AreTwo};

mod edges;
mod full;
mod held;
mod reallocs;
mod sharing;
mod threads;
mod walks;

use super::*;
use heap_gate::{join, make_caller, meet};
use heap_model::{
    AllocNo, Block, Busy, Flags, FreeNo, Layer, Limits, LockNo, NotLocked, NotOwner, OutOfMemory,
    What, WordNo,
};
use std::alloc::Global;
use std::process::Abort;
use std::test::*;

const PLAIN: Flags = Flags {
    zero: false,
    in_place: false,
};

// A heap of one segment and so many large pages, with its caller, which draws of this stream.
#[tactic(auto, using(crate::proofs::Callers::fresh_free))]
fn alone(
    alloc: Global,
    large_pages: u32,
    seed: u64,
    stream: u64,
) -> Result<(Heap, Root, Caller), OutOfMemory>
    requires { large_pages ≤ 4096 }
    ensures { IfOk result (λ r. IsFreeCaller r.0 r.2) }
{
    let limits = Limits {
        segments: 1,
        large_pages,
        slots: 1,
        callers: 1,
    };
    let (heap, mut root) = open_heap(alloc, limits, seed)?;
    let c = make_caller(&heap, &mut root, seed, 0, stream);
    Ok((heap, root, c))
}

// A heap of one segment and so many large pages, with two callers of one slot.
#[tactic(auto, using(crate::proofs::Callers::fresh_free, crate::proofs::Callers::root_still))]
fn two(
    alloc: Global,
    large_pages: u32,
    seed: u64,
    stream: u64,
    other: u64,
) -> Result<(Heap, Root, Caller, Caller), OutOfMemory>
    requires { large_pages ≤ 4096 }
    ensures { IfOk result (λ r. AreTwo r.0 r.1 r.2 r.3) }
{
    let limits = Limits {
        segments: 1,
        large_pages,
        slots: 1,
        callers: 2,
    };
    let (heap, mut root) = open_heap(alloc, limits, seed)?;
    let a = make_caller(&heap, &mut root, seed, 0, stream);
    let b = make_caller(&heap, &mut root, seed, 0, other);
    Ok((heap, root, a, b))
}

// The public calls, each of a caller that owns no heap lock.

#[tactic(auto, using(crate::proofs::Callers::free_again))]
fn alloc(heap: &Heap, c: &mut Caller, n: u64) -> Result<u64, AllocNo>
    requires { IsFreeCaller heap.now c.old }
    ensures { IsFreeCaller heap.now c.new }
{
    alloc_now(heap, c, n, PLAIN)
}

#[tactic(auto, using(crate::proofs::Callers::free_again))]
fn alloc_zeroed(heap: &Heap, c: &mut Caller, n: u64) -> Result<u64, AllocNo>
    requires { IsFreeCaller heap.now c.old }
    ensures { IsFreeCaller heap.now c.new }
{
    let flags = Flags {
        zero: true,
        in_place: false,
    };
    alloc_now(heap, c, n, flags)
}

#[tactic(auto, using(crate::proofs::Callers::free_again))]
fn free(heap: &Heap, c: &mut Caller, addr: u64) -> Result<(), FreeNo>
    requires { IsFreeCaller heap.now c.old }
    ensures { IsFreeCaller heap.now c.new }
{
    free_now(heap, c, addr)
}

#[tactic(auto, using(crate::proofs::Callers::free_again))]
fn size(heap: &Heap, c: &mut Caller, addr: u64) -> Result<u64, FreeNo>
    requires { IsFreeCaller heap.now c.old }
    ensures { IsFreeCaller heap.now c.new }
{
    size_now(heap, c, addr)
}

#[tactic(auto, using(crate::proofs::Callers::free_again))]
fn get(heap: &Heap, c: &mut Caller, addr: u64, index: u64) -> Result<u64, WordNo>
    requires { IsFreeCaller heap.now c.old }
    ensures { IsFreeCaller heap.now c.new }
{
    get_now(heap, c, addr, index)
}

#[tactic(auto, using(crate::proofs::Callers::free_again))]
fn put(heap: &Heap, c: &mut Caller, addr: u64, index: u64, value: u64) -> Result<(), WordNo>
    requires { IsFreeCaller heap.now c.old }
    ensures { IsFreeCaller heap.now c.new }
{
    put_now(heap, c, addr, index, value)
}

// So many blocks of a size, each at the address that is the step behind the last one.
fn alloc_row(rt: &impl Abort, heap: &Heap, c: &mut Caller, n: u64, first: u64, step: u64, many: u32)
    requires { IsFreeCaller heap.now c.old }
    ensures { IsFreeCaller heap.now c.new }
{
    for i in 0..many {
        let addr = first.wrapping_add(step.wrapping_mul(u64::from(i)));
        assert_eq!(rt; alloc(heap, c, n), Ok(addr));
    }
}

// Blocks of these sizes, at these addresses or refused.
fn alloc_all(rt: &impl Abort, heap: &Heap, c: &mut Caller, wanted: &[(u64, Result<u64, AllocNo>)])
    requires { IsFreeCaller heap.now c.old }
    ensures { IsFreeCaller heap.now c.new }
{
    for i in 0..wanted.len() {
        let (n, want) = wanted[i];
        assert_eq!(rt; alloc(heap, c, n), want, "{n} bytes");
    }
}

// Frees these blocks, each of which is live or not.
fn free_all(rt: &impl Abort, heap: &Heap, c: &mut Caller, wanted: &[(u64, Result<(), FreeNo>)])
    requires { IsFreeCaller heap.now c.old }
    ensures { IsFreeCaller heap.now c.new }
{
    for i in 0..wanted.len() {
        let (addr, want) = wanted[i];
        assert_eq!(rt; free(heap, c, addr), want, "address {addr}");
    }
}

#[test]
fn a_heap_is_opened_and_has_a_caller(rt: HostRuntime) -> Result<(), Fail> {
    let (heap, _root, c) = alone(rt.alloc(), 128, 42, 7)?;
    assert_eq!(rt; c.number(), 0);
    assert_eq!(rt; heap.limits().large_pages, 128);
    assert_eq!(rt; heap.seed(), 42);
    Ok(())
}

// The eighteenth block of 16 bytes is the first of a subsegment at page 18. The draws are the first words of PCG32's reference
// code, of seed 42 and stream 54: a15c02b7, 7b47f409, ba1d3330, 83d2f293. Block i of the subsegment is at 73792 + 16 * i, and a
// draw picks word (d / 64) mod 4 and bit d mod 64: the blocks 183, 9, 48 and 147.
#[test]
fn draws_pick_the_blocks_of_an_active_bucket(rt: HostRuntime) -> Result<(), Fail> {
    let (heap, _root, mut c) = alone(rt.alloc(), 0, 42, 54)?;
    alloc_row(&rt, &heap, &mut c, 16, 8256, 32, 17);
    alloc_all(
        &rt,
        &heap,
        &mut c,
        &[(16, Ok(76720)), (16, Ok(73936)), (16, Ok(74560))],
    );
    free_all(
        &rt,
        &heap,
        &mut c,
        &[
            (76720, Ok(())),
            (76720, Err(FreeNo::NotLive)),
            (73936, Ok(())),
        ],
    );
    assert_eq!(rt; alloc(&heap, &mut c, 16), Ok(76144));
    assert_eq!(rt; size(&heap, &mut c, 76144), Ok(16));
    Ok(())
}

// A place keeps its words from one block to the next, but for a block that is to be zeroed.
#[test]
fn words_stay_where_no_zeros_are_asked(rt: HostRuntime) -> Result<(), Fail> {
    let (heap, _root, mut c) = alone(rt.alloc(), 0, 1, 0)?;
    assert_eq!(rt; alloc(&heap, &mut c, 16), Ok(8256));
    assert_eq!(rt; put(&heap, &mut c, 8256, 0, 5), Ok(()));
    assert_eq!(rt; free(&heap, &mut c, 8256), Ok(()));
    assert_eq!(rt; alloc(&heap, &mut c, 16), Ok(8256));
    assert_eq!(rt; get(&heap, &mut c, 8256, 0), Ok(5));
    assert_eq!(rt; free(&heap, &mut c, 8256), Ok(()));
    assert_eq!(rt; alloc_zeroed(&heap, &mut c, 16), Ok(8256));
    assert_eq!(rt; get(&heap, &mut c, 8256, 0), Ok(0));
    Ok(())
}
