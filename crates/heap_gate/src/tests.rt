ghost use Rattle.std.specs.Prelude.{◌≡◌, ◌+◌, ◌-◌, ◌<◌, ◌≤◌, false, true, [], length, IfOk};
ghost use Rattle.heap_model.specs.History.{own};
ghost use Rattle.heap_gate.specs.Token.{count};
ghost use Rattle.heap_gate.specs.Counts.{AreTwo, IsSettled, GoesOn, counted, enters, locks};

use super::*;
use claim_rule::{GATE, LOCKS, MADE};
use heap_model::{Act, Busy, Call, Limits, LockNo, NotOwner, OutOfMemory, Stands, What};
use std::alloc::Global;
use std::process::Abort;
use std::test::*;
use std::thread::{self, Threads};

const LIMITS: Limits = Limits {
    segments: 1,
    large_pages: 0,
    slots: 2,
    callers: 2,
};

const SEED: u64 = 42;

// The state of a layer that has nothing.
#[derive(Drop)]
struct Empty {
    lock: What,
    limits: Limits,
    seed: u64,
}

impl Stands for Empty {
    ghost use Rattle.std.specs.Prelude.{[]};
    ghost use Rattle.heap_model.specs.State.{opening};
    ghost use Rattle.heap_model.specs.Layers.{header_key};

    ghost stands = { λ e. record { lock = e.lock; limits = e.limits; key = header_key e.seed; back = opening.back; vs = opening.vs; vs_spans = []; large = [] } };
}

fn state_of(lock: What) -> Empty
    ensures { result ≡ record { lock = lock; limits = record { segments = 1; large_pages = 0; slots = 2; callers = 2 }; seed = 42 } }
{
    Empty {
        lock,
        limits: LIMITS,
        seed: SEED,
    }
}

// A heap with its two callers, of slots 0 and 1, and of streams 7 and 54.
fn two(
    alloc: Global,
) -> Result<(Heap<Empty>, Root<Empty>, Caller<Empty>, Caller<Empty>), OutOfMemory>
    ensures { IfOk result (λ r. AreTwo r.0 r.1 r.2 r.3 × (r.2.seen ≡ []) × (r.3.seen ≡ [])) }
{
    let (heap, mut root) = open(
        alloc,
        LIMITS,
        SEED,
        state_of(What::Vs),
        state_of(What::Back),
        state_of(What::Large),
    )?;
    let a = make_caller(&heap, &mut root, SEED, 0, 7);
    let b = make_caller(&heap, &mut root, SEED, 1, 54);
    Ok((heap, root, a, b))
}

// Both callers join, and the heap is closed. Its words say that two callers were made, and that no lock is held.
fn end(
    rt: &impl Abort,
    heap: Heap<Empty>,
    mut root: Root<Empty>,
    a: Caller<Empty>,
    b: Caller<Empty>,
)
    requires { AreTwo heap root a b }
{
    join(&heap, &mut root, a);
    join(&heap, &mut root, b);
    let closed = close_table(heap, root);
    assert_eq!(rt; closed.words.at(MADE as u64), 2);
    assert_eq!(rt; closed.words.at(GATE as u64), 0);
    for lock in LOCKS..LOCKS + 4 {
        assert_eq!(rt; closed.words.at(lock as u64), 0);
    }
}

// Enters.
#[tactic(auto, using(crate::proofs::Counting::has_entered))]
fn enter<T: Stands>(rt: &impl Abort, heap: &Heap<T>, c: &mut Caller<T>)
    requires { IsSettled heap.now c.old false }
    ensures { IsSettled heap.now c.new true × (c.new.depth ≡ c.old.depth) × (c.new.number ≡ c.old.number) }
{
    enter_now(heap, c).expect(rt, "enters");
}

// Leaves.
#[tactic(auto, using(crate::proofs::Counting::has_left))]
fn go_out<T: Stands>(heap: &Heap<T>, c: &mut Caller<T>)
    requires { IsSettled heap.now c.old true }
    ensures { IsSettled heap.now c.new false × (c.new.depth ≡ c.old.depth) × (c.new.number ≡ c.old.number) }
{
    leave(heap, c);
}

// Is turned back by this gate word.
#[tactic(auto, using(crate::proofs::Counting::has_turned))]
fn turn_back<T: Stands>(rt: &impl Abort, heap: &Heap<T>, c: &mut Caller<T>, word: u64)
    requires { IsSettled heap.now c.old false }
    ensures { IsSettled heap.now c.new false × (c.new.depth ≡ c.old.depth) × (c.new.number ≡ c.old.number) }
{
    let Err(busy) = enter_now(heap, c) else {
        panic!(rt; "it entered")
    };
    let what = What::Gate;
    assert_eq!(rt; busy, Busy { what, word });
}

// Takes the heap lock.
#[tactic(auto, using(crate::proofs::Counting::has_locked))]
fn lock<T: Stands>(rt: &impl Abort, heap: &Heap<T>, c: &mut Caller<T>)
    requires { IsSettled heap.now c.old false }
    ensures { IsSettled heap.now c.new false × (c.new.depth ≡ c.old.depth + 1) × (c.new.number ≡ c.old.number) }
{
    lock_gate(heap, c).expect(rt, "takes the lock");
}

// Finds this gate word in place of a free heap lock.
#[tactic(auto, using(crate::proofs::Counting::has_missed))]
fn miss<T: Stands>(rt: &impl Abort, heap: &Heap<T>, c: &mut Caller<T>, word: u64)
    requires { IsSettled heap.now c.old false }
    ensures { IsSettled heap.now c.new false × (c.new.depth ≡ c.old.depth) × (c.new.number ≡ c.old.number) }
{
    let Err(LockNo::Busy(busy)) = lock_gate(heap, c) else {
        panic!(rt; "it took the lock")
    };
    let what = What::Gate;
    assert_eq!(rt; busy, Busy { what, word });
}

// Gives the heap lock back.
#[tactic(auto, using(crate::proofs::Counting::has_given))]
fn unlock<T: Stands>(rt: &impl Abort, heap: &Heap<T>, c: &mut Caller<T>)
    requires settled { IsSettled heap.now c.old false }
    requires owns { 0 < c.old.depth }
    ensures { IsSettled heap.now c.new false × (c.new.depth ≡ c.old.depth - 1) × (c.new.number ≡ c.old.number) }
{
    unlock_gate(heap, c, false).expect(rt, "gives it back");
}

// Has nothing to give back.
fn own_nothing<T: Stands>(rt: &impl Abort, heap: &Heap<T>, c: &mut Caller<T>)
    requires settled { IsSettled heap.now c.old false }
    requires free { c.old.depth ≡ 0 }
    ensures { c.new ≡ c.old }
{
    let Err(NotOwner) = unlock_gate(heap, c, false) else {
        panic!(rt; "it owned the lock")
    };
}

#[test]
fn two_callers(rt: HostRuntime) -> Result<(), Fail> {
    let (heap, root, mut a, mut b) = two(rt.alloc())?;
    enter(&rt, &heap, &mut b);
    miss(&rt, &heap, &mut a, 1);
    go_out(&heap, &mut b);
    lock(&rt, &heap, &mut a);
    lock(&rt, &heap, &mut a);
    assert_eq!(rt; a.depth(), 2);
    turn_back(&rt, &heap, &mut b, 65536);
    enter(&rt, &heap, &mut a);
    go_out(&heap, &mut a);
    own_nothing(&rt, &heap, &mut b);
    unlock(&rt, &heap, &mut a);
    unlock(&rt, &heap, &mut a);
    own_nothing(&rt, &heap, &mut a);
    meet(&heap, &mut a, &mut b);
    end(&rt, heap, root, a, b);
    Ok(())
}

// Prepares the Begin of a call, and settles it.
fn plan<T: Stands>(heap: &Heap<T>, c: &mut Caller<T>)
    requires settled { IsSettled heap.now c.old false }
    requires fresh { (c.old.seen ≡ []) × (c.old.number ≡ 0) × (c.old.opening.limits.callers ≡ 2) }
    ensures { IsSettled heap.now c.new false × (c.new.depth ≡ c.old.depth) × (c.new.number ≡ c.old.number) }
{
    prepare(c, Act::Begin { call: Call::Stay });
    settle(heap, c);
}

#[test]
fn a_prepared_begin_is_carried(rt: HostRuntime) -> Result<(), Fail> {
    let (heap, root, mut a, b) = two(rt.alloc())?;
    plan(&heap, &mut a);
    enter(&rt, &heap, &mut a);
    go_out(&heap, &mut a);
    end(&rt, heap, root, a, b);
    Ok(())
}

/// The first draw is the first word of PCG32's reference code, of seed 42 and stream 54.
#[test]
fn a_caller_draws_of_its_own_stream(rt: HostRuntime) -> Result<(), Fail> {
    let (heap, _root, a, mut b) = two(rt.alloc())?;
    assert_eq!(rt; [heap.limits().callers, heap.seed() as u32], [2, 42]);
    assert_eq!(rt; [a.number(), a.slot(), b.number(), b.slot()], [0, 0, 1, 1]);
    enter(&rt, &heap, &mut b);
    assert!(rt; b.inside() && !a.inside());
    assert_eq!(rt; b.draw().value, 0xa15c02b7);
    Ok(())
}

// Is refused once more.
fn be_full<T: Stands>(rt: &impl Abort, heap: &Heap<T>, c: &mut Caller<T>)
    requires settled { IsSettled heap.now c.old false }
    requires full { c.old.depth ≡ 65535 }
    ensures { c.new ≡ c.old }
{
    let Err(LockNo::Depth) = lock_gate(heap, c) else {
        panic!(rt; "the depth has an end")
    };
}

fn lock_times<T: Stands>(rt: &impl Abort, heap: &Heap<T>, c: &mut Caller<T>, times: u32)
    requires settled { IsSettled heap.now c.old false }
    requires free { c.old.depth ≡ 0 }
    ensures { IsSettled heap.now c.new false × (c.new.depth ≡ times) × (c.new.number ≡ c.old.number) }
{
    for time in 0..times {
        lock(rt, heap, c);
        assert_eq!(rt; c.depth(), time + 1);
    }
}

fn unlock_times<T: Stands>(rt: &impl Abort, heap: &Heap<T>, c: &mut Caller<T>, times: u32)
    requires settled { IsSettled heap.now c.old false }
    requires owns { c.old.depth ≡ times }
    ensures { IsSettled heap.now c.new false × (c.new.depth ≡ 0) × (c.new.number ≡ c.old.number) }
{
    for time in 0..times {
        assert_eq!(rt; c.depth(), times - time);
        unlock(rt, heap, c);
    }
}

#[test]
fn the_lock_is_taken_65535_times(rt: HostRuntime) -> Result<(), Fail> {
    let (heap, root, mut a, mut b) = two(rt.alloc())?;
    lock_times(&rt, &heap, &mut a, 65535);
    be_full(&rt, &heap, &mut a);
    miss(&rt, &heap, &mut b, 65536);
    unlock_times(&rt, &heap, &mut a, 65535);
    own_nothing(&rt, &heap, &mut a);
    lock(&rt, &heap, &mut b);
    unlock(&rt, &heap, &mut b);
    end(&rt, heap, root, a, b);
    Ok(())
}

// Enters and leaves, or turns back. It answers whether it entered.
#[tactic(auto, using(crate::proofs::Counting::has_entered, crate::proofs::Counting::has_turned, crate::proofs::Counting::has_left))]
fn visit<T: Stands>(heap: &Heap<T>, c: &mut Caller<T>) -> bool
    requires settled { IsSettled heap.now c.old false }
    requires free { c.old.depth ≡ 0 }
    ensures settled { IsSettled heap.now c.new false × (c.new.depth ≡ 0) }
    ensures goes { GoesOn c.old c.new (count result) 0 }
{
    let Ok(()) = enter_now(heap, c) else {
        return false;
    };
    leave(heap, c);
    true
}

// Takes the heap lock and gives it back, or finds it taken. It answers whether it took it.
#[tactic(auto, using(crate::proofs::Counting::has_locked, crate::proofs::Counting::has_missed, crate::proofs::Counting::has_given))]
fn hold<T: Stands>(heap: &Heap<T>, c: &mut Caller<T>) -> bool
    requires settled { IsSettled heap.now c.old false }
    requires free { c.old.depth ≡ 0 }
    ensures settled { IsSettled heap.now c.new false × (c.new.depth ≡ 0) }
    ensures goes { GoesOn c.old c.new 0 (count result) }
{
    match lock_gate(heap, c) {
        Ok(()) => match unlock_gate(heap, c, false) {
            Ok(()) => true,
            Err(NotOwner) => unreachable!(),
        },
        Err(LockNo::Busy(_)) => false,
        Err(LockNo::Depth) => unreachable!(),
    }
}

// How often a thread entered, and how often it took the heap lock.
#[derive(Clone, Copy, Debug)]
struct Times {
    entered: u32,
    locked: u32,
}

// One thread of the test below.
fn rounds<T: Stands>(heap: &Heap<T>, mut c: Caller<T>, many: u32) -> (Caller<T>, Times)
    requires settled { IsSettled heap.now c false }
    requires free { c.depth ≡ 0 }
    ensures settled { IsSettled heap.now result.0 false × (result.0.depth ≡ 0) }
    ensures goes { GoesOn c result.0 result.1.entered result.1.locked }
{
    let mut times = Times {
        entered: 0,
        locked: 0,
    };
    for round in 0..many {
        times.entered += u32::from(visit(heap, &mut c));
        times.locked += u32::from(hold(heap, &mut c));
    }
    (c, times)
}

// Both callers enter, lock and leave, each in a thread of its own. The final history has as many of their entries as
// the threads counted.
fn in_two_threads<R: Threads + Sync>(
    rt: &R,
    heap: Heap<Empty>,
    mut root: Root<Empty>,
    a: Caller<Empty>,
    b: Caller<Empty>,
    many: u32,
) -> (Closed<Empty>, Times, Times)
    requires two { AreTwo heap root a b }
    requires fresh { (a.seen ≡ []) × (b.seen ≡ []) }
    ensures a { (counted enters (own 0 result.0.last.value.seen) ≡ result.1.entered) × (counted locks (own 0 result.0.last.value.seen) ≡ result.1.locked) }
    ensures b { (counted enters (own 1 result.0.last.value.seen) ≡ result.2.entered) × (counted locks (own 1 result.0.last.value.seen) ≡ result.2.locked) }
    ensures words { 2182 ≤ length result.0.words }
{
    let shared = &heap;
    let ((a, a_times), (b, b_times)) = thread::join(
        rt,
        move || -> (Caller<Empty>, Times)
            requires { IsSettled shared.now a false × (a.depth ≡ 0) }
            ensures { IsSettled shared.entry.now result.0 false × (result.0.depth ≡ 0) × GoesOn a result.0 result.1.entered result.1.locked }
        { rounds(shared, a, many) },
        move || -> (Caller<Empty>, Times)
            requires { IsSettled shared.now b false × (b.depth ≡ 0) }
            ensures { IsSettled shared.entry.now result.0 false × (result.0.depth ≡ 0) × GoesOn b result.0 result.1.entered result.1.locked }
        { rounds(shared, b, many) },
    );
    join(&heap, &mut root, a);
    join(&heap, &mut root, b);
    (close_table(heap, root), a_times, b_times)
}

#[test]
fn two_threads(rt: HostRuntime) -> Result<(), Fail> {
    let (heap, root, a, b) = two(rt.alloc())?;
    let (closed, a, b) = in_two_threads(&rt, heap, root, a, b, 20000);
    assert_eq!(rt; closed.words.at(MADE as u64), 2);
    assert_eq!(rt; closed.words.at(GATE as u64), 0);
    for times in [a, b] {
        assert!(rt; 0 < times.entered && times.entered <= 20000, "{times:?}");
        assert!(rt; 0 < times.locked && times.locked <= 20000, "{times:?}");
    }
    Ok(())
}
