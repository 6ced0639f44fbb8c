ghost use Rattle.std.specs.Prelude.{◌≡◌, ◌+◌, ◌<◌, ◌≤◌, false, true, IfOk};
ghost use Rattle.heap_gate.specs.Counts.{IsSettled};

use super::*;
use heap_gate::{Root, enter_now, make_caller, open};
use heap_model::{Limits, OutOfMemory, What};
use std::alloc::Global;
use std::process::Abort;
use std::test::*;

const LIMITS: Limits = Limits {
    segments: 1,
    large_pages: 0,
    slots: 1,
    callers: 1,
};

// The state of a layer that has nothing.
#[derive(Drop)]
struct Empty {
    lock: What,
}

impl Stands for Empty {
    ghost use Rattle.std.specs.Prelude.{[]};
    ghost use Rattle.heap_model.specs.State.{opening};
    ghost use Rattle.heap_model.specs.Layers.{header_key};

    ghost stands = { λ e. record { lock = e.lock; limits = record { segments = 1; large_pages = 0; slots = 1; callers = 1 }; key = header_key 42; back = opening.back; vs = opening.vs; vs_spans = []; large = [] } };
}

// A heap with its caller.
fn alone(alloc: Global) -> Result<(Heap<Empty>, Root<Empty>, Caller<Empty>), OutOfMemory>
    ensures { IfOk result (λ r. IsSettled r.0 r.2 false × (r.2.depth ≡ 0) × (r.0.opening.limits.segments ≡ 1)) }
{
    let (heap, mut root) = open(
        alloc,
        LIMITS,
        42,
        Empty { lock: What::Vs },
        Empty { lock: What::Back },
        Empty { lock: What::Large },
    )?;
    let c = make_caller(&heap, &mut root, 42, 0, 7);
    Ok((heap, root, c))
}

// Enters.
#[tactic(auto, using(heap_gate::proofs::Counting::has_entered))]
fn enter(rt: &impl Abort, heap: &Heap<Empty>, c: &mut Caller<Empty>)
    requires { IsSettled heap.now c.old false }
    ensures { IsSettled heap.now c.new true }
{
    enter_now(heap, c).expect(rt, "enters");
}

// Finds this value in a word.
#[tactic(auto, using(crate::proofs::Settled::still))]
fn find(rt: &impl Abort, heap: &Heap<Empty>, c: &mut Caller<Empty>, word: u64, value: u64)
    requires settled { IsSettled heap.now c.old true }
    requires there { (heap.now.opening.limits.segments ≡ 1) × (word < 131072) }
    ensures { IsSettled heap.now c.new true }
{
    assert_eq!(rt; load(heap, c, word), value);
}

// Stores a value.
#[tactic(auto, using(crate::proofs::Settled::still))]
fn put(heap: &Heap<Empty>, c: &mut Caller<Empty>, word: u64, value: u64)
    requires settled { IsSettled heap.now c.old true }
    requires there { (heap.now.opening.limits.segments ≡ 1) × (word < 131072) }
    ensures { IsSettled heap.now c.new true }
{
    store(heap, c, word, value);
}

// Copies words.
#[tactic(auto, using(crate::proofs::Settled::still_copied))]
fn move_on(heap: &Heap<Empty>, c: &mut Caller<Empty>, from: u64, to: u64, n: u64)
    requires settled { IsSettled heap.now c.old true }
    requires there { (heap.now.opening.limits.segments ≡ 1) × (from + n ≤ 131072) × (to + n ≤ 131072) }
    ensures { IsSettled heap.now c.new true }
{
    copy(heap, c, from, to, n);
}

#[test]
fn words_are_stored_loaded_and_copied(rt: HostRuntime) -> Result<(), Fail> {
    let (heap, _root, mut c) = alone(rt.alloc())?;
    enter(&rt, &heap, &mut c);
    find(&rt, &heap, &mut c, 5, 0);
    put(&heap, &mut c, 5, 7);
    put(&heap, &mut c, 6, 9);
    move_on(&heap, &mut c, 5, 131_070, 2);
    find(&rt, &heap, &mut c, 131_070, 7);
    find(&rt, &heap, &mut c, 131_071, 9);
    move_on(&heap, &mut c, 5, 6, 2);
    find(&rt, &heap, &mut c, 7, 7);
    move_on(&heap, &mut c, 5, 0, 0);
    find(&rt, &heap, &mut c, 0, 0);
    Ok(())
}
