ghost use Rattle.std.specs.Prelude.{◌≡◌, ◌+◌, ◌<◌, ◌∷◌, false, true, [], length, is_some, IfOk};
ghost use Rattle.heap_model.specs.History.{own};
ghost use Rattle.claim_rule.specs.Home.{HasSlot};
ghost use Rattle.heap_gate.specs.Token.{count};
ghost use Rattle.heap_gate.specs.Calls.{IsUnder};
ghost use Rattle.heap_gate.specs.Roots.{is_of};
ghost use Rattle.heap_gate.specs.Counts.{AreTwo, IsSettled, counted};
ghost use Rattle.heap_gate.specs.Turns.{takes, TakesOn};

use super::*;
use claim_rule::LOCKS;
use heap_model::{Busy, Call, Limits, OutOfMemory, Stands, What};
use std::alloc::Global;
use std::process::Abort;
use std::test::*;
use std::thread::{self, Threads};

const LIMITS: Limits = Limits {
    segments: 1,
    large_pages: 0,
    slots: 2,
    callers: 2,
};

const SEED: u64 = 42;

// The state of a layer that has nothing, and how often it was out.
#[derive(Drop)]
struct Counter {
    lock: What,
    turns: u64,
}

impl Stands for Counter {
    ghost use Rattle.heap_gate.specs.Turns.{nothing_of};

    ghost stands = { λ e. nothing_of e.lock };
}

fn unused(lock: What) -> Counter
    ensures { result ≡ record { lock = lock; turns = 0 } }
{
    Counter { lock, turns: 0 }
}

// A heap with its two callers.
fn two(
    alloc: Global,
) -> Result<
    (
        Heap<Counter>,
        Root<Counter>,
        Caller<Counter>,
        Caller<Counter>,
    ),
    OutOfMemory,
>
    ensures { IfOk result (λ r. AreTwo r.0 r.1 r.2 r.3 × (r.2.seen ≡ []) × (r.3.seen ≡ [])) }
{
    let (heap, mut root) = open(
        alloc,
        LIMITS,
        SEED,
        unused(What::Vs),
        unused(What::Back),
        unused(What::Large),
    )?;
    let a = make_caller(&heap, &mut root, SEED, 0, 7);
    let b = make_caller(&heap, &mut root, SEED, 1, 54);
    Ok((heap, root, a, b))
}

// Enters.
#[tactic(auto, using(crate::proofs::Counting::has_entered))]
fn enter(rt: &impl Abort, heap: &Heap<Counter>, c: &mut Caller<Counter>)
    requires { IsSettled heap.now c.old false }
    ensures { IsSettled heap.now c.new true × (c.new.depth ≡ c.old.depth) × (c.new.number ≡ c.old.number) }
{
    enter_now(heap, c).expect(rt, "enters");
}

// Leaves.
#[tactic(auto, using(crate::proofs::Counting::has_left))]
fn go_out(heap: &Heap<Counter>, c: &mut Caller<Counter>)
    requires { IsSettled heap.now c.old true }
    ensures { IsSettled heap.now c.new false × (c.new.depth ≡ c.old.depth) × (c.new.number ≡ c.old.number) }
{
    leave(heap, c);
}

// Takes a lock, and gives it back with the state, which was out once more. None where another caller has it.
fn turn(heap: &Heap<Counter>, c: &mut Caller<Counter>, what: What, inside: bool) -> Option<u64>
    requires settled { IsSettled heap.now c.old inside }
    requires under { IsUnder inside c.old.depth }
    requires slot { HasSlot what }
    ensures settled { IsSettled heap.now c.new inside × (c.new.depth ≡ c.old.depth) × (c.new.number ≡ c.old.number) }
    ensures takes { TakesOn c.old c.new (count (is_some result)) }
{
    let mut state = match take_lock(heap, c, what) {
        Ok(state) => state,
        Err(_) => return None,
    };
    state.turns = state.turns.saturating_add(1);
    let turns = state.turns;
    give_lock(heap, c, what, state);
    Some(turns)
}

// Has this many turns at a lock behind it.
fn turn_once(rt: &impl Abort, heap: &Heap<Counter>, c: &mut Caller<Counter>, what: What, turns: u64)
    requires settled { IsSettled heap.now c.old true }
    requires slot { HasSlot what }
    ensures settled { IsSettled heap.now c.new true × (c.new.depth ≡ c.old.depth) × (c.new.number ≡ c.old.number) }
{
    assert_eq!(rt; turn(heap, c, what, true), Some(turns));
}

// Both callers join, and the heap is closed. The states are those that were given back.
fn end(
    rt: &impl Abort,
    heap: Heap<Counter>,
    mut root: Root<Counter>,
    a: Caller<Counter>,
    b: Caller<Counter>,
    turns: [u64; 3],
)
    requires { AreTwo heap root a b }
{
    join(&heap, &mut root, a);
    join(&heap, &mut root, b);
    let closed = close_table(heap, root);
    assert_eq!(rt;
        [closed.vs.turns, closed.back.turns, closed.large.turns],
        turns
    );
    for lock in LOCKS..LOCKS + 4 {
        assert_eq!(rt; closed.words.at(lock as u64), 0);
    }
}

#[test]
fn each_lock_hands_out_its_state(rt: HostRuntime) -> Result<(), Fail> {
    let (heap, root, mut a, mut b) = two(rt.alloc())?;
    enter(&rt, &heap, &mut a);
    enter(&rt, &heap, &mut b);
    turn_once(&rt, &heap, &mut a, What::Vs, 1);
    turn_once(&rt, &heap, &mut b, What::Vs, 2);
    turn_once(&rt, &heap, &mut b, What::Back, 1);
    turn_once(&rt, &heap, &mut a, What::Large, 1);
    turn_once(&rt, &heap, &mut a, What::Vs, 3);
    go_out(&heap, &mut a);
    go_out(&heap, &mut b);
    end(&rt, heap, root, a, b, [3, 1, 1]);
    Ok(())
}

// Finds the lock of the variable-size layer with the other caller, whose number its word tells.
#[test]
fn the_word_names_who_has_the_lock(rt: HostRuntime) -> Result<(), Fail> {
    let (heap, root, mut a, mut b) = two(rt.alloc())?;
    enter(&rt, &heap, &mut a);
    enter(&rt, &heap, &mut b);
    turn_while_held(&rt, &heap, &mut a, &mut b);
    turn_once(&rt, &heap, &mut b, What::Vs, 2);
    go_out(&heap, &mut a);
    go_out(&heap, &mut b);
    end(&rt, heap, root, a, b, [2, 0, 0]);
    Ok(())
}

// Caller 0 has a turn at the lock of the variable-size layer, in which the other finds it taken.
fn turn_while_held(
    rt: &impl Abort,
    heap: &Heap<Counter>,
    a: &mut Caller<Counter>,
    b: &mut Caller<Counter>,
)
    requires a { IsSettled heap.now a.old true }
    requires b { IsSettled heap.now b.old true }
    ensures a { IsSettled heap.now a.new true × (a.new.depth ≡ a.old.depth) × (a.new.number ≡ a.old.number) }
    ensures b { IsSettled heap.now b.new true × (b.new.depth ≡ b.old.depth) × (b.new.number ≡ b.old.number) }
{
    let what = What::Vs;
    let Ok(mut state) = take_lock(heap, a, what) else {
        panic!(rt; "the lock is free")
    };
    be_missed(rt, heap, b, 1);
    state.turns = state.turns.saturating_add(1);
    give_lock(heap, a, what, state);
}

// Finds this word in place of a free lock of the variable-size layer.
fn be_missed(rt: &impl Abort, heap: &Heap<Counter>, c: &mut Caller<Counter>, word: u64)
    requires { IsSettled heap.now c.old true }
    ensures { IsSettled heap.now c.new true × (c.new.depth ≡ c.old.depth) × (c.new.number ≡ c.old.number) }
{
    let what = What::Vs;
    let Err(busy) = take_lock(heap, c, what) else {
        panic!(rt; "the lock is taken")
    };
    assert_eq!(rt; busy, Busy { what, word });
}

// The owner of the heap lock has a turn at the back end's lock, from outside the gate.
#[tactic(auto, using(crate::proofs::Counting::has_locked, crate::proofs::Counting::has_given))]
fn turn_outside(rt: &impl Abort, heap: &Heap<Counter>, c: &mut Caller<Counter>)
    requires settled { IsSettled heap.now c.old false }
    requires free { c.old.depth ≡ 0 }
    ensures { IsSettled heap.now c.new false × (c.new.depth ≡ 0) × (c.new.number ≡ c.old.number) }
{
    lock_gate(heap, c).expect(rt, "takes the heap lock");
    assert_eq!(rt; turn(heap, c, What::Back, false), Some(1));
    unlock_gate(heap, c, false).expect(rt, "gives it back");
}

#[test]
fn the_owner_takes_a_lock_from_outside(rt: HostRuntime) -> Result<(), Fail> {
    let (heap, root, mut a, b) = two(rt.alloc())?;
    turn_outside(&rt, &heap, &mut a);
    end(&rt, heap, root, a, b, [0, 1, 0]);
    Ok(())
}

// Prepares as many entries as a token keeps, and carries them by one step.
fn prepare_all(heap: &Heap<Counter>, c: &mut Caller<Counter>)
    requires { IsSettled heap.now c.old false }
    ensures settled { IsSettled heap.now c.new false × (c.new.depth ≡ c.old.depth) × (c.new.number ≡ c.old.number) }
    ensures many { length (own c.old.number c.new.seen) ≡ length (own c.old.number c.old.seen) + 16 }
{
    for _ in 0..16u32 {
        begin(c, Call::Stay);
    }
    settle(heap, c);
}

#[test]
fn sixteen_entries_are_carried_by_one_step(rt: HostRuntime) -> Result<(), Fail> {
    let (heap, root, mut a, b) = two(rt.alloc())?;
    prepare_all(&heap, &mut a);
    enter(&rt, &heap, &mut a);
    go_out(&heap, &mut a);
    end(&rt, heap, root, a, b, [0, 0, 0]);
    Ok(())
}

// So many turns at the lock of the variable-size layer. It answers how often the caller had it.
fn turns(heap: &Heap<Counter>, c: &mut Caller<Counter>, many: u32) -> u32
    requires { IsSettled heap.now c.old true }
    ensures settled { IsSettled heap.now c.new true × (c.new.depth ≡ c.old.depth) × (c.new.number ≡ c.old.number) }
    ensures takes { TakesOn c.old c.new result }
{
    let mut taken = 0;
    for round in 0..many {
        taken += u32::from(turn(heap, c, What::Vs, true).is_some());
    }
    taken
}

// One thread of the test below.
fn work(heap: &Heap<Counter>, mut c: Caller<Counter>, many: u32) -> (Caller<Counter>, u32)
    requires settled { IsSettled heap.now c false }
    requires free { c.depth ≡ 0 }
    ensures settled { IsSettled heap.now result.0 false × (result.0.depth ≡ 0) }
    ensures takes { TakesOn c result.0 result.1 }
{
    let Ok(()) = enter_now(heap, &mut c) else {
        return (c, 0);
    };
    let taken = turns(heap, &mut c, many);
    leave(heap, &mut c);
    (c, taken)
}

// The state goes out to both callers in turn, each in a thread of its own. The final history has as many of their locks taken
// as the threads counted.
fn in_two_threads<R: Threads + Sync>(
    rt: &R,
    heap: Heap<Counter>,
    mut root: Root<Counter>,
    a: Caller<Counter>,
    b: Caller<Counter>,
    many: u32,
) -> (Closed<Counter>, u32, u32)
    requires two { AreTwo heap root a b }
    requires fresh { (a.seen ≡ []) × (b.seen ≡ []) }
    ensures a { counted takes (own 0 result.0.last.value.seen) ≡ result.1 }
    ensures b { counted takes (own 1 result.0.last.value.seen) ≡ result.2 }
    ensures both { is_of (1 ∷ 0 ∷ []) result.0.last.value.seen ≡ true }
{
    let shared = &heap;
    let ((a, a_taken), (b, b_taken)) = thread::join(
        rt,
        move || -> (Caller<Counter>, u32)
            requires { IsSettled shared.now a false × (a.depth ≡ 0) }
            ensures { IsSettled shared.entry.now result.0 false × (result.0.depth ≡ 0) × TakesOn a result.0 result.1 }
        { work(shared, a, many) },
        move || -> (Caller<Counter>, u32)
            requires { IsSettled shared.now b false × (b.depth ≡ 0) }
            ensures { IsSettled shared.entry.now result.0 false × (result.0.depth ≡ 0) × TakesOn b result.0 result.1 }
        { work(shared, b, many) },
    );
    join(&heap, &mut root, a);
    join(&heap, &mut root, b);
    (close_table(heap, root), a_taken, b_taken)
}

// .. which are all of its locks taken.
fn all_turns<R: Threads + Sync>(
    rt: &R,
    heap: Heap<Counter>,
    root: Root<Counter>,
    a: Caller<Counter>,
    b: Caller<Counter>,
    many: u32,
) -> (Closed<Counter>, u32, u32)
    requires two { AreTwo heap root a b }
    requires fresh { (a.seen ≡ []) × (b.seen ≡ []) }
    ensures { counted takes result.0.last.value.seen ≡ result.1 + result.2 }
{
    in_two_threads(rt, heap, root, a, b, many)
}

#[test]
fn the_state_goes_from_thread_to_thread(rt: HostRuntime) -> Result<(), Fail> {
    let (heap, root, a, b) = two(rt.alloc())?;
    let (closed, a, b) = all_turns(&rt, heap, root, a, b, 20000);
    assert_eq!(rt; closed.vs.turns, u64::from(a) + u64::from(b));
    assert!(rt; a > 0 || b > 0);
    Ok(())
}
