ghost use Rattle.heap_now.specs.Calls.{IsCallerOf};
ghost use Rattle.heap_now.specs.Callers.{IsFreeCaller};

use super::full::{ALL, Blocks, claim};
use super::held::{end, lock, own_nothing, unlock};
use super::threads::four;
use super::*;
use std::thread::{self, Threads};

// A step of a walk.
pub(super) fn step(heap: &Heap, c: &mut Caller, from: u64) -> Result<Option<Block>, NotLocked>
    requires { IsCallerOf heap.now c.old }
    ensures { IsCallerOf heap.now c.new }
{
    walk_next(heap, c, from)
}

// Finds these blocks one behind the other, from an address on, and no more behind the last.
fn walk(rt: &impl Abort, heap: &Heap, c: &mut Caller, start: u64, wanted: &[Block])
    requires { IsCallerOf heap.now c.old }
    ensures { IsCallerOf heap.now c.new }
{
    let mut from = start;
    for i in 0..wanted.len() {
        assert_eq!(rt; step(heap, c, from), Ok(Some(wanted[i])));
        from = wanted[i].addr.wrapping_add(1);
    }
    assert_eq!(rt; step(heap, c, from), Ok(None));
}

#[tactic(auto, using(crate::proofs::Walks::compacted_again))]
pub(super) fn compact(heap: &Heap, c: &mut Caller) -> Result<u64, Busy>
    requires { IsFreeCaller heap.now c.old }
    ensures { IsFreeCaller heap.now c.new }
{
    compact_now(heap, c)
}

fn block(addr: u64, size: u64, layer: Layer) -> Block {
    Block { addr, size, layer }
}

// Only the owner of the heap lock walks, and others are turned back meanwhile.
#[test]
fn a_walk_is_the_owners(rt: HostRuntime) -> Result<(), Fail> {
    let (heap, mut root, mut a, mut b) = two(rt.alloc(), 0, 1, 0, 1)?;
    assert_eq!(rt; alloc(&heap, &mut a, 5), Ok(8256));
    assert_eq!(rt; step(&heap, &mut a, 0), Err(NotLocked));
    lock(&rt, &heap, &mut a, Ok(()));
    let there = [block(8256, 5, Layer::Vs)];
    walk(&rt, &heap, &mut a, 0, &there);
    let outside = Busy {
        what: What::Gate,
        word: 65536,
    };
    free_all(&rt, &heap, &mut b, &[(8256, Err(FreeNo::Busy(outside)))]);
    assert_eq!(rt; step(&heap, &mut b, 0), Err(NotLocked));
    own_nothing(&rt, &heap, &mut b);
    walk(&rt, &heap, &mut a, 8256, &there);
    walk(&rt, &heap, &mut a, 8257, &[]);
    walk(&rt, &heap, &mut a, u64::MAX, &[]);
    unlock(&rt, &heap, &mut a);
    assert_eq!(rt; step(&heap, &mut a, 0), Err(NotLocked));
    own_nothing(&rt, &heap, &mut a);
    end(&heap, &mut root, a, b);
    Ok(())
}

// Seventeen blocks of 16 bytes make their bucket active, and the draw picks block 183 of the subsegment at page 18. A block of 33 pages
// goes behind it, a large one to the start of its area. All but the second and the last of the seventeen are freed.
#[test]
fn a_walk_finds_the_blocks_of_all_layers(rt: HostRuntime) -> Result<(), Fail> {
    let (heap, _root, mut c) = alone(rt.alloc(), 147, 42, 54)?;
    alloc_row(&rt, &heap, &mut c, 16, 8256, 32, 17);
    alloc_all(
        &rt,
        &heap,
        &mut c,
        &[(16, Ok(76720)), (135168, Ok(77824)), (600000, Ok(1048576))],
    );
    free_all(&rt, &heap, &mut c, &[(8256, Ok(()))]);
    for_each_freed(&rt, &heap, &mut c);
    lock(&rt, &heap, &mut c, Ok(()));
    let all = [
        block(8288, 16, Layer::Vs),
        block(8768, 16, Layer::Vs),
        block(76720, 16, Layer::Lfh),
        block(77824, 135168, Layer::Back),
        block(1048576, 600000, Layer::Large),
    ];
    walk(&rt, &heap, &mut c, 0, &all);
    walk(&rt, &heap, &mut c, 76721, &all[3..]);
    Ok(())
}

// Frees the third to the sixteenth of a row of blocks.
fn for_each_freed(rt: &impl Abort, heap: &Heap, c: &mut Caller)
    requires { IsFreeCaller heap.now c.old }
    ensures { IsFreeCaller heap.now c.new }
{
    for i in 2..16 {
        let addr = 8256 + 32 * i;
        assert_eq!(rt; free(heap, c, addr), Ok(()));
    }
}

// Of two free runs of the same length the one that is committed is taken: the pages of the first were decommitted.
#[test]
fn a_compaction_decommits_what_is_free(rt: HostRuntime) -> Result<(), Fail> {
    let (heap, _root, mut c) = alone(rt.alloc(), 0, 1, 0)?;
    alloc_row(&rt, &heap, &mut c, 135168, 8192, 135168, 4);
    free_all(&rt, &heap, &mut c, &[(8192, Ok(()))]);
    assert_eq!(rt; compact(&heap, &mut c), Ok(33));
    free_all(&rt, &heap, &mut c, &[(278528, Ok(()))]);
    assert_eq!(rt; alloc(&heap, &mut c, 135168), Ok(278528));
    Ok(())
}

// A full subsegment at page 18, and one behind it with one block. This goes, and one block of the full one. The compaction gives the empty
// subsegment back with its page, and the hint names the other then, which has one free block.
#[test]
fn a_search_behind_a_compaction_reads_the_lowest(rt: HostRuntime) -> Result<(), Fail> {
    let (heap, _root, mut c) = alone(rt.alloc(), 0, 1, 0)?;
    alloc_row(&rt, &heap, &mut c, 16, 8256, 32, 17);
    let mut blocks = Blocks { bits: [0; 4] };
    claim(&rt, &heap, &mut c, &mut blocks, 252);
    assert_eq!(rt; blocks.bits, ALL);
    let last = alloc(&heap, &mut c, 16).expect(&rt, "has room");
    assert_eq!(rt; last / 4096, 19);
    free_all(&rt, &heap, &mut c, &[(last, Ok(())), (75392, Ok(()))]);
    assert_eq!(rt; compact(&heap, &mut c), Ok(1));
    assert_eq!(rt; alloc(&heap, &mut c, 16), Ok(75392));
    assert_eq!(rt; compact(&heap, &mut c), Ok(0));
    Ok(())
}

// Takes the heap lock so often.
fn lock_often(rt: &impl Abort, heap: &Heap, c: &mut Caller, many: u32)
    requires { IsCallerOf heap.now c.old }
    ensures { IsCallerOf heap.now c.new }
{
    for _ in 0..many {
        lock(rt, heap, c, Ok(()));
    }
}

// .. and gives it back.
fn unlock_often(rt: &impl Abort, heap: &Heap, c: &mut Caller, many: u32)
    requires { IsCallerOf heap.now c.old }
    ensures { IsCallerOf heap.now c.new }
{
    for _ in 0..many {
        unlock(rt, heap, c);
    }
}

#[test]
fn the_heap_lock_has_a_depth(rt: HostRuntime) -> Result<(), Fail> {
    let (heap, _root, mut c) = alone(rt.alloc(), 0, 1, 0)?;
    lock_often(&rt, &heap, &mut c, 65535);
    lock(&rt, &heap, &mut c, Err(LockNo::Depth));
    assert_eq!(rt; step(&heap, &mut c, 0), Ok(None));
    unlock_often(&rt, &heap, &mut c, 65535);
    own_nothing(&rt, &heap, &mut c);
    Ok(())
}

// So many blocks of a size, each in the subsegment at this page, and the address of the last.
fn alloc_in(rt: &impl Abort, heap: &Heap, c: &mut Caller, n: u64, page: u64, many: u32) -> u64
    requires { IsFreeCaller heap.now c.old }
    ensures { IsFreeCaller heap.now c.new }
{
    let mut last = 0;
    for _ in 0..many {
        last = alloc(heap, c, n).expect(rt, "has room");
        assert_eq!(rt; last / 4096, page);
    }
    last
}

// Seventeen blocks each of 16, 32 and 48 bytes make their buckets active. Of 16 bytes one subsegment is full, at page 18, and one behind
// it has one block; of 32 bytes one is half full, at page 20; of 48 bytes one has one block, at page 21. The two single blocks go, and
// one of the full subsegment: the compaction gives the two empty ones back, each with its page, and no other. The hint of 16 bytes names
// the full one then, that of 32 bytes stays, and there is none of 48 bytes, whose next subsegment gets the page that fits best, 19.
#[test]
fn a_compaction_keeps_the_subsegments_in_use(rt: HostRuntime) -> Result<(), Fail> {
    let (heap, _root, mut c) = alone(rt.alloc(), 0, 1, 0)?;
    alloc_row(&rt, &heap, &mut c, 16, 8256, 32, 17);
    alloc_row(&rt, &heap, &mut c, 32, 8800, 48, 17);
    alloc_row(&rt, &heap, &mut c, 48, 9616, 64, 17);
    alloc_in(&rt, &heap, &mut c, 16, 18, 252);
    let second = alloc_in(&rt, &heap, &mut c, 16, 19, 1);
    alloc_in(&rt, &heap, &mut c, 32, 20, 63);
    let single = alloc_in(&rt, &heap, &mut c, 48, 21, 1);
    free_all(
        &rt,
        &heap,
        &mut c,
        &[(second, Ok(())), (single, Ok(())), (75392, Ok(()))],
    );
    assert_eq!(rt; compact(&heap, &mut c), Ok(2));
    assert_eq!(rt; alloc(&heap, &mut c, 16), Ok(75392));
    alloc_in(&rt, &heap, &mut c, 32, 20, 1);
    alloc_in(&rt, &heap, &mut c, 48, 19, 1);
    Ok(())
}

// Tries so often to free a block, and answers how often another was in the way.
fn try_often(heap: &Heap, mut c: Caller, addr: u64, many: u32) -> (Caller, u32)
    requires { IsFreeCaller heap.now c }
    ensures { IsFreeCaller heap.now result.0 }
{
    let mut busy: u32 = 0;
    for _ in 0..many {
        if let Err(FreeNo::Busy(_)) = free(heap, &mut c, addr) {
            busy = busy.saturating_add(1);
        }
    }
    (c, busy)
}

// Looks so often for the first block, and answers how often it has this address.
fn look_often(heap: &Heap, mut c: Caller, addr: u64, many: u32) -> (Caller, u32)
    requires { IsCallerOf heap.now c }
    ensures { IsCallerOf heap.now result.0 }
{
    let mut found: u32 = 0;
    for _ in 0..many {
        if let Ok(Some(first)) = step(heap, &mut c, 0) {
            found = found.saturating_add(u32::from(first.addr == addr));
        }
    }
    (c, found)
}

// Two threads try to free a block.
fn try_in_two<R: Threads + Sync>(
    rt: &R,
    heap: &Heap,
    b: Caller,
    c: Caller,
    addr: u64,
    many: u32,
) -> ((Caller, u32), (Caller, u32))
    requires { IsFreeCaller heap.now b × IsFreeCaller heap.now c }
    ensures { IsFreeCaller heap.now result.0.0 × IsFreeCaller heap.now result.1.0 }
{
    thread::join(
        rt,
        move || -> (Caller, u32)
            requires { IsFreeCaller heap.now b }
            ensures { IsFreeCaller heap.entry.now result.0 }
        { try_often(heap, b, addr, many) },
        move || -> (Caller, u32)
            requires { IsFreeCaller heap.now c }
            ensures { IsFreeCaller heap.entry.now result.0 }
        { try_often(heap, c, addr, many) },
    )
}

// .. while a third walks.
fn walk_beside_two<R: Threads + Sync>(
    rt: &R,
    heap: &Heap,
    a: Caller,
    b: Caller,
    c: Caller,
    addr: u64,
    many: u32,
) -> ((Caller, u32), ((Caller, u32), (Caller, u32)))
    requires owner { IsCallerOf heap.now a }
    requires others { IsFreeCaller heap.now b × IsFreeCaller heap.now c }
    ensures owner { IsCallerOf heap.now result.0.0 }
    ensures others { IsFreeCaller heap.now result.1.0.0 × IsFreeCaller heap.now result.1.1.0 }
{
    thread::join(
        rt,
        move || -> (Caller, u32)
            requires { IsCallerOf heap.now a }
            ensures { IsCallerOf heap.entry.now result.0 }
        { look_often(heap, a, addr, many) },
        move || -> ((Caller, u32), (Caller, u32))
            requires { IsFreeCaller heap.now b × IsFreeCaller heap.now c }
            ensures { IsFreeCaller heap.entry.now result.0.0 × IsFreeCaller heap.entry.now result.1.0 }
        { try_in_two(rt, heap, b, c, addr, many) },
    )
}

// While the owner of the heap lock walks, each try of two other threads is turned back. Behind it their calls are served.
#[test]
fn a_walk_beside_two_threads(rt: HostRuntime) -> Result<(), Fail> {
    let (heap, _root, (mut a, b), (c, _d)) = four(rt.alloc())?;
    assert_eq!(rt; alloc(&heap, &mut a, 5), Ok(8256));
    lock(&rt, &heap, &mut a, Ok(()));
    let ((mut a, found), ((b, first), (c, second))) = walk_beside_two(
        &rt, &heap, a, b, c, 8256, 1000,
    );
    assert_eq!(rt; (found, first, second), (1000, 1000, 1000));
    unlock(&rt, &heap, &mut a);
    own_nothing(&rt, &heap, &mut a);
    let (_b, first) = try_often(&heap, b, 8256, 1);
    let (_c, second) = try_often(&heap, c, 8256, 1);
    assert_eq!(rt; (first, second), (0, 0));
    assert_eq!(rt; free(&heap, &mut a, 8256), Err(FreeNo::NotLive));
    Ok(())
}
