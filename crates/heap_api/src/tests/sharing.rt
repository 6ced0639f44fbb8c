//! Several threads, each with a caller of its own, over the calls that wait.
ghost use Rattle.std.specs.Prelude.{IfOk};
ghost use Rattle.heap_now.specs.Calls.{IsCallerOf};
ghost use Rattle.heap_now.specs.Callers.{IsRootOf};

use super::*;
use std::process::Abort;
use std::thread::{self, Threads};

// A block of the front end or the variable-size layer, two of the variable-size layer, one of the back end and one of the large area.
const SIZES: [u64; 5] = [16, 3000, 20000, 200_000, 600_000];

// How many blocks a thread has made, filled, read back rightly and freed; how often it held the heap lock; and how often it compacted.
#[derive(Clone, Copy, Debug, PartialEq, Eq)]
struct Tally {
    whole: u32,
    held: u32,
    compacted: u32,
}

// Makes a block, fills its first word, reads it and the size back, and frees it. It answers whether all was right.
fn use_block<R: Wait>(rt: &R, heap: &Heap, c: &mut Caller, n: u64, value: u64) -> bool
    requires { IsCallerOf heap.now c.old }
    ensures { IsCallerOf heap.now c.new }
{
    let Ok(addr) = place(rt, heap, c, n) else {
        return false;
    };
    let put_is = write(rt, heap, c, addr, 0, value);
    let got = read(rt, heap, c, addr, 0);
    let told = ask(rt, heap, c, addr);
    let freed = give_up(rt, heap, c, addr);
    put_is == Ok(()) && got == Ok(value) && told == Ok(n) && freed == Ok(())
}

// Takes the heap lock and gives it back.
fn hold<R: Wait>(rt: &R, heap: &Heap, c: &mut Caller) -> bool
    requires { IsCallerOf heap.now c.old }
    ensures { IsCallerOf heap.now c.new }
{
    let taken = take(rt, heap, c);
    let given = give_back(heap, c);
    taken == Ok(()) && given == Ok(())
}

// One thread: each turn it uses a block, and now and then it holds the heap lock, or compacts.
fn work<R: Wait>(rt: &R, heap: &Heap, mut c: Caller, turns: u32) -> (Caller, Tally)
    requires { IsCallerOf heap.now c }
    ensures { IsCallerOf heap.now result.0 }
{
    let mut tally = Tally {
        whole: 0,
        held: 0,
        compacted: 0,
    };
    let mark = u64::from(c.number()) << 32;
    for turn in 0..turns {
        let kind = (turn % 5) as usize;
        let whole = use_block(rt, heap, &mut c, SIZES[kind], mark | u64::from(turn));
        tally.whole = tally.whole.saturating_add(u32::from(whole));
        if turn % 10 == 3 {
            let held = hold(rt, heap, &mut c);
            tally.held = tally.held.saturating_add(u32::from(held));
        }
        if turn % 50 == 7 {
            let _pages = press(rt, heap, &mut c);
            tally.compacted = tally.compacted.saturating_add(1);
        }
    }
    (c, tally)
}

// Two threads.
fn work_in_two<R: Threads + Wait + Sync>(
    rt: &R,
    heap: &Heap,
    a: Caller,
    b: Caller,
    turns: u32,
) -> ((Caller, Tally), (Caller, Tally))
    requires { IsCallerOf heap.now a × IsCallerOf heap.now b }
    ensures { IsCallerOf heap.now result.0.0 × IsCallerOf heap.now result.1.0 }
{
    thread::join(
        rt,
        move || -> (Caller, Tally)
            requires { IsCallerOf heap.now a }
            ensures { IsCallerOf heap.entry.now result.0 }
        { work(rt, heap, a, turns) },
        move || -> (Caller, Tally)
            requires { IsCallerOf heap.now b }
            ensures { IsCallerOf heap.entry.now result.0 }
        { work(rt, heap, b, turns) },
    )
}

// Four threads.
fn work_in_four<R: Threads + Wait + Sync>(
    rt: &R,
    heap: &Heap,
    a: Caller,
    b: Caller,
    c: Caller,
    d: Caller,
    turns: u32,
) -> (
    ((Caller, Tally), (Caller, Tally)),
    ((Caller, Tally), (Caller, Tally)),
)
    requires ab { IsCallerOf heap.now a × IsCallerOf heap.now b }
    requires cd { IsCallerOf heap.now c × IsCallerOf heap.now d }
    ensures ab { IsCallerOf heap.now result.0.0.0 × IsCallerOf heap.now result.0.1.0 }
    ensures cd { IsCallerOf heap.now result.1.0.0 × IsCallerOf heap.now result.1.1.0 }
{
    thread::join(
        rt,
        move || -> ((Caller, Tally), (Caller, Tally))
            requires { IsCallerOf heap.now a × IsCallerOf heap.now b }
            ensures { IsCallerOf heap.entry.now result.0.0 × IsCallerOf heap.entry.now result.1.0 }
        { work_in_two(rt, heap, a, b, turns) },
        move || -> ((Caller, Tally), (Caller, Tally))
            requires { IsCallerOf heap.now c × IsCallerOf heap.now d }
            ensures { IsCallerOf heap.entry.now result.0.0 × IsCallerOf heap.entry.now result.1.0 }
        { work_in_two(rt, heap, c, d, turns) },
    )
}

// A heap of four segments and 1,024 large pages, with four callers of two slots.
#[tactic(auto, using(crate::proofs::Callers::fresh_is, heap_now::proofs::Callers::root_still))]
fn four(alloc: Global) -> Result<(Heap, Root, (Caller, Caller), (Caller, Caller)), OutOfMemory>
    ensures root { IfOk result (λ r. IsRootOf r.0 r.1) }
    ensures ab { IfOk result (λ r. IsCallerOf r.0 r.2.0 × IsCallerOf r.0 r.2.1) }
    ensures cd { IfOk result (λ r. IsCallerOf r.0 r.3.0 × IsCallerOf r.0 r.3.1) }
{
    let limits = Limits {
        segments: 4,
        large_pages: 1024,
        slots: 2,
        callers: 4,
    };
    let (heap, mut root) = open_heap(alloc, limits, 42)?;
    let a = make_caller(&heap, &mut root, 42, 0, 0);
    let b = make_caller(&heap, &mut root, 42, 0, 1);
    let c = make_caller(&heap, &mut root, 42, 1, 2);
    let d = make_caller(&heap, &mut root, 42, 1, 3);
    Ok((heap, root, (a, b), (c, d)))
}

// Every block was whole, and each lock and compaction came in its turn.
fn check_work(rt: &impl Abort, tallies: &[Tally], turns: u32) {
    let want = Tally {
        whole: turns,
        held: turns / 10,
        compacted: turns / 50,
    };
    for i in 0..tallies.len() {
        assert_eq!(rt; tallies[i], want);
    }
}

const TURNS: u32 = 500;

#[test]
fn two_threads_wait_for_each_other(rt: HostRuntime) -> Result<(), Fail> {
    let (heap, _root, (a, b), (_c, _d)) = four(rt.alloc())?;
    let ((_a, first), (_b, second)) = work_in_two(&rt, &heap, a, b, TURNS);
    check_work(&rt, &[first, second], TURNS);
    Ok(())
}

#[test]
fn four_threads_wait_for_each_other(rt: HostRuntime) -> Result<(), Fail> {
    let (heap, _root, (a, b), (c, d)) = four(rt.alloc())?;
    let (((mut a, first), (_b, second)), ((_c, third), (_d, fourth))) = work_in_four(
        &rt, &heap, a, b, c, d, TURNS,
    );
    check_work(&rt, &[first, second, third, fourth], TURNS);
    assert_eq!(rt; place(&rt, &heap, &mut a, 4_194_304), Ok(4_194_304));
    Ok(())
}
