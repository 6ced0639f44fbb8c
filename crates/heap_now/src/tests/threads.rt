ghost use Rattle.std.specs.Prelude.{IfOk};
ghost use Rattle.heap_now.specs.Callers.{IsFreeCaller, IsRootOf};

use super::full::bit_of;
use super::*;
use std::thread::{self, Threads};

// How often a call is made that is Busy, or a cell looked at that another thread has to change.
pub(super) const TRIES: u32 = 100_000_000;

// Allocates, or answers `None` where no range fits.
pub(super) fn alloc_some(heap: &Heap, c: &mut Caller, n: u64) -> Option<u64>
    requires { IsFreeCaller heap.now c.old }
    ensures { IsFreeCaller heap.now c.new }
{
    for _ in 0..TRIES {
        match alloc(heap, c, n) {
            Ok(addr) => return Some(addr),
            Err(AllocNo::NoFit) => return None,
            Err(AllocNo::Busy(_)) => {}
        }
    }
    None
}

// Frees, and answers whether the block was live.
pub(super) fn free_some(heap: &Heap, c: &mut Caller, addr: u64) -> bool
    requires { IsFreeCaller heap.now c.old }
    ensures { IsFreeCaller heap.now c.new }
{
    for _ in 0..TRIES {
        match free(heap, c, addr) {
            Ok(()) => return true,
            Err(FreeNo::NotLive) => return false,
            Err(FreeNo::Busy(_)) => {}
        }
    }
    false
}

// The size of a live block.
fn size_some(heap: &Heap, c: &mut Caller, addr: u64) -> Option<u64>
    requires { IsFreeCaller heap.now c.old }
    ensures { IsFreeCaller heap.now c.new }
{
    for _ in 0..TRIES {
        match size(heap, c, addr) {
            Ok(n) => return Some(n),
            Err(FreeNo::NotLive) => return None,
            Err(FreeNo::Busy(_)) => {}
        }
    }
    None
}

// A word of a live block.
fn get_some(heap: &Heap, c: &mut Caller, addr: u64, index: u64) -> Option<u64>
    requires { IsFreeCaller heap.now c.old }
    ensures { IsFreeCaller heap.now c.new }
{
    for _ in 0..TRIES {
        match get(heap, c, addr, index) {
            Ok(value) => return Some(value),
            Err(WordNo::Busy(_)) => {}
            Err(_) => return None,
        }
    }
    None
}

// Stores a word of a live block.
fn put_some(heap: &Heap, c: &mut Caller, addr: u64, index: u64, value: u64) -> bool
    requires { IsFreeCaller heap.now c.old }
    ensures { IsFreeCaller heap.now c.new }
{
    for _ in 0..TRIES {
        match put(heap, c, addr, index, value) {
            Ok(()) => return true,
            Err(WordNo::Busy(_)) => {}
            Err(_) => return false,
        }
    }
    false
}

// A block of the front end, three of the variable-size layer, one of the back end and one of the large area.
const SIZES: [u64; 6] = [16, 40, 3000, 20000, 200_000, 600_000];

// A live block, and what stands in its first and in its last word.
#[derive(Clone, Copy, Debug)]
struct Held {
    addr: u64,
    size: u64,
    value: u64,
}

// How many blocks a thread has placed and filled, and how many it has read back rightly and freed.
#[derive(Clone, Copy, Debug, PartialEq, Eq)]
struct Tally {
    placed: u32,
    freed: u32,
}

// A new block with both words stored.
fn place(heap: &Heap, c: &mut Caller, size: u64, value: u64) -> Option<Held>
    requires { IsFreeCaller heap.now c.old }
    ensures { IsFreeCaller heap.now c.new }
{
    let addr = alloc_some(heap, c, size)?;
    let last = (size.saturating_sub(1)) / 8;
    if !put_some(heap, c, addr, 0, value) {
        return None;
    }
    if !put_some(heap, c, addr, last, !value) {
        return None;
    }
    Some(Held { addr, size, value })
}

// Whether both words are those that were stored, the first only where it is not the last too, and the size is that which was asked.
fn is_whole(heap: &Heap, c: &mut Caller, block: Held) -> bool
    requires { IsFreeCaller heap.now c.old }
    ensures { IsFreeCaller heap.now c.new }
{
    let last = (block.size.saturating_sub(1)) / 8;
    let first_is = get_some(heap, c, block.addr, 0);
    let last_is = get_some(heap, c, block.addr, last);
    let size_is = size_some(heap, c, block.addr);
    let first = if last == 0 { !block.value } else { block.value };
    first_is == Some(first) && last_is == Some(!block.value) && size_is == Some(block.size)
}

// Reads a block back and frees it.
fn give_up(heap: &Heap, c: &mut Caller, block: Held) -> bool
    requires { IsFreeCaller heap.now c.old }
    ensures { IsFreeCaller heap.now c.new }
{
    let whole = is_whole(heap, c, block);
    free_some(heap, c, block.addr) && whole
}

// One thread: each turn it makes a block of the next size, or reads the one that it made six turns ago back and frees it.
fn work(heap: &Heap, mut c: Caller, turns: u32) -> (Caller, Tally)
    requires { IsFreeCaller heap.now c }
    ensures { IsFreeCaller heap.now result.0 }
{
    let mut blocks: [Option<Held>; 6] = [None; 6];
    let mut tally = Tally {
        placed: 0,
        freed: 0,
    };
    let mark = u64::from(c.number()) << 32;
    for turn in 0..turns {
        let kind = (turn % 6) as usize;
        match blocks[kind] {
            None => {
                blocks[kind] = place(heap, &mut c, SIZES[kind], mark | u64::from(turn));
                tally.placed = tally
                    .placed
                    .saturating_add(u32::from(blocks[kind].is_some()));
            }
            Some(block) => {
                let right = give_up(heap, &mut c, block);
                blocks[kind] = None;
                tally.freed = tally.freed.saturating_add(u32::from(right));
            }
        }
    }
    (c, tally)
}

// Two threads.
fn work_in_two<R: Threads + Sync>(
    rt: &R,
    heap: &Heap,
    a: Caller,
    b: Caller,
    turns: u32,
) -> ((Caller, Tally), (Caller, Tally))
    requires { IsFreeCaller heap.now a × IsFreeCaller heap.now b }
    ensures { IsFreeCaller heap.now result.0.0 × IsFreeCaller heap.now result.1.0 }
{
    thread::join(
        rt,
        move || -> (Caller, Tally)
            requires { IsFreeCaller heap.now a }
            ensures { IsFreeCaller heap.entry.now result.0 }
        { work(heap, a, turns) },
        move || -> (Caller, Tally)
            requires { IsFreeCaller heap.now b }
            ensures { IsFreeCaller heap.entry.now result.0 }
        { work(heap, b, turns) },
    )
}

// Four threads.
fn work_in_four<R: Threads + Sync>(
    rt: &R,
    heap: &Heap,
    a: Caller,
    b: Caller,
    c: Caller,
    d: Caller,
    turns: u32,
) -> (
    ((Caller, Tally), (Caller, Tally)),
    ((Caller, Tally), (Caller, Tally)),
)
    requires ab { IsFreeCaller heap.now a × IsFreeCaller heap.now b }
    requires cd { IsFreeCaller heap.now c × IsFreeCaller heap.now d }
    ensures ab { IsFreeCaller heap.now result.0.0.0 × IsFreeCaller heap.now result.0.1.0 }
    ensures cd { IsFreeCaller heap.now result.1.0.0 × IsFreeCaller heap.now result.1.1.0 }
{
    thread::join(
        rt,
        move || -> ((Caller, Tally), (Caller, Tally))
            requires { IsFreeCaller heap.now a × IsFreeCaller heap.now b }
            ensures { IsFreeCaller heap.entry.now result.0.0 × IsFreeCaller heap.entry.now result.1.0 }
        { work_in_two(rt, heap, a, b, turns) },
        move || -> ((Caller, Tally), (Caller, Tally))
            requires { IsFreeCaller heap.now c × IsFreeCaller heap.now d }
            ensures { IsFreeCaller heap.entry.now result.0.0 × IsFreeCaller heap.entry.now result.1.0 }
        { work_in_two(rt, heap, c, d, turns) },
    )
}

// A heap of four segments and 1,024 large pages, with four callers of two slots.
#[tactic(auto, using(crate::proofs::Callers::fresh_free, crate::proofs::Callers::root_still))]
pub(super) fn four(
    alloc: Global,
) -> Result<(Heap, Root, (Caller, Caller), (Caller, Caller)), OutOfMemory>
    ensures root { IfOk result (λ r. IsRootOf r.0 r.1) }
    ensures ab { IfOk result (λ r. IsFreeCaller r.0 r.2.0 × IsFreeCaller r.0 r.2.1) }
    ensures cd { IfOk result (λ r. IsFreeCaller r.0 r.3.0 × IsFreeCaller r.0 r.3.1) }
{
    let limits = Limits {
        segments: 4,
        large_pages: 1024,
        slots: 2,
        callers: 4,
    };
    let (heap, mut root) = open_heap(alloc, limits, 42)?;
    let a = make_caller(&heap, &mut root, 42, 0, 0);
    let b = make_caller(&heap, &mut root, 42, 0, 1);
    let c = make_caller(&heap, &mut root, 42, 1, 2);
    let d = make_caller(&heap, &mut root, 42, 1, 3);
    Ok((heap, root, (a, b), (c, d)))
}

// The root takes a caller in.
#[tactic(auto, using(crate::proofs::Callers::root_joined))]
fn take_in(heap: &Heap, root: &mut Root, c: Caller)
    requires root { IsRootOf heap.now root.old }
    requires caller { IsFreeCaller heap.now c }
    ensures { IsRootOf heap.now root.new }
{
    join(heap, root, c);
}

// Eighteen blocks of 16 bytes: the bucket is active behind them.
fn activate(rt: &impl Abort, heap: &Heap, c: &mut Caller)
    requires { IsFreeCaller heap.now c.old }
    ensures { IsFreeCaller heap.now c.new }
{
    alloc_row(rt, heap, c, 16, 8256, 32, 17);
    assert!(rt; bit_of(alloc(heap, c, 16).expect(rt, "has room")).is_some());
}

// Half of the turns placed a block, and half read one back and freed it. The large area is empty then, and one block takes it whole.
fn check_work(rt: &impl Abort, heap: &Heap, c: &mut Caller, tallies: &[Tally], turns: u32)
    requires { IsFreeCaller heap.now c.old }
    ensures { IsFreeCaller heap.now c.new }
{
    let half = turns / 2;
    for i in 0..tallies.len() {
        let (placed, freed) = (half, half);
        assert_eq!(rt; tallies[i], Tally { placed, freed });
    }
    alloc_all(rt, heap, c, &[(4_194_304, Ok(4_194_304))]);
}

const TURNS: u32 = 20_004;

#[test]
fn two_threads_use_all_layers(rt: HostRuntime) -> Result<(), Fail> {
    let (heap, mut root, (mut a, b), (_c, _d)) = four(rt.alloc())?;
    activate(&rt, &heap, &mut a);
    let ((mut a, first), (b, second)) = work_in_two(&rt, &heap, a, b, TURNS);
    check_work(&rt, &heap, &mut a, &[first, second], TURNS);
    take_in(&heap, &mut root, a);
    take_in(&heap, &mut root, b);
    Ok(())
}

#[test]
fn four_threads_use_all_layers(rt: HostRuntime) -> Result<(), Fail> {
    let (heap, mut root, (mut a, b), (c, d)) = four(rt.alloc())?;
    activate(&rt, &heap, &mut a);
    let (((mut a, first), (b, second)), ((c, third), (d, fourth))) = work_in_four(
        &rt, &heap, a, b, c, d, TURNS,
    );
    check_work(&rt, &heap, &mut a, &[first, second, third, fourth], TURNS);
    take_in(&heap, &mut root, a);
    take_in(&heap, &mut root, b);
    take_in(&heap, &mut root, c);
    take_in(&heap, &mut root, d);
    Ok(())
}
