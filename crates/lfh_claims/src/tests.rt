ghost use Rattle.std.specs.Prelude.{◌≡◌, ◌+◌, ◌<◌, false, true, IfOk};
ghost use Rattle.heap_gate.specs.Counts.{IsSettled};
ghost use Rattle.lfh_buckets.specs.Blocks.{IsBucket};

use super::*;
use heap_gate::{Caller, Heap, Root, enter_now, leave, lock_gate, make_caller, open};
use heap_model::{Limits, OutOfMemory, Stands, What};
use std::alloc::Global;
use std::process::Abort;
use std::test::*;

const LIMITS: Limits = Limits {
    segments: 1,
    large_pages: 0,
    slots: 1,
    callers: 1,
};

// The state of a layer that has nothing.
#[derive(Drop)]
struct Empty {
    lock: What,
}

impl Stands for Empty {
    ghost use Rattle.std.specs.Prelude.{[]};
    ghost use Rattle.heap_model.specs.State.{opening};
    ghost use Rattle.heap_model.specs.Layers.{header_key};

    ghost stands = { λ e. record { lock = e.lock; limits = record { segments = 1; large_pages = 0; slots = 1; callers = 1 }; key = header_key 42; back = opening.back; vs = opening.vs; vs_spans = []; large = [] } };
}

// A heap with its caller.
fn alone(alloc: Global) -> Result<(Heap<Empty>, Root<Empty>, Caller<Empty>), OutOfMemory>
    ensures { IfOk result (λ r. IsSettled r.0 r.2 false × (r.2.depth ≡ 0) × (r.0.opening.limits.segments ≡ 1)) }
{
    let (heap, mut root) = open(
        alloc,
        LIMITS,
        42,
        Empty { lock: What::Vs },
        Empty { lock: What::Back },
        Empty { lock: What::Large },
    )?;
    let c = make_caller(&heap, &mut root, 42, 0, 7);
    Ok((heap, root, c))
}

// Enters.
#[tactic(auto, using(heap_gate::proofs::Counting::has_entered))]
fn enter(rt: &impl Abort, heap: &Heap<Empty>, c: &mut Caller<Empty>)
    requires { IsSettled heap.now c.old false }
    ensures { IsSettled heap.now c.new true × (c.new.depth ≡ c.old.depth) }
{
    enter_now(heap, c).expect(rt, "enters");
}

// Leaves.
#[tactic(auto, using(heap_gate::proofs::Counting::has_left))]
fn go_out(heap: &Heap<Empty>, c: &mut Caller<Empty>)
    requires { IsSettled heap.now c.old true }
    ensures { IsSettled heap.now c.new false × (c.new.depth ≡ c.old.depth) }
{
    leave(heap, c);
}

// Takes the heap lock.
#[tactic(auto, using(heap_gate::proofs::Counting::has_locked))]
fn lock(rt: &impl Abort, heap: &Heap<Empty>, c: &mut Caller<Empty>)
    requires { IsSettled heap.now c.old false }
    ensures { IsSettled heap.now c.new false × (c.new.depth ≡ c.old.depth + 1) }
{
    lock_gate(heap, c).expect(rt, "takes the lock");
}

// Finds that no subsegment has a page.
#[tactic(auto, using(data_words::proofs::Settled::still))]
fn find_no_tag(rt: &impl Abort, heap: &Heap<Empty>, c: &mut Caller<Empty>, page: u32)
    requires settled { IsSettled heap.now c.old true }
    requires there { (heap.now.opening.limits.segments ≡ 1) × (page < 256) }
    ensures { IsSettled heap.now c.new true × (c.new.depth ≡ c.old.depth) }
{
    assert_eq!(rt; tag_of(heap, c, page), None);
}

// Finds a bucket that is not active.
#[tactic(auto, using(data_words::proofs::Settled::still))]
fn find_idle(rt: &impl Abort, heap: &Heap<Empty>, c: &mut Caller<Empty>, bucket: u8)
    requires settled { IsSettled heap.now c.old true }
    requires bucket { IsBucket bucket }
    ensures { IsSettled heap.now c.new true × (c.new.depth ≡ c.old.depth) }
{
    assert!(rt; !active_of(heap, c, bucket));
}

// Finds no block in a bitmap word, as the owner of the heap lock.
#[tactic(auto, using(data_words::proofs::Settled::still))]
fn find_no_bits(rt: &impl Abort, heap: &Heap<Empty>, c: &mut Caller<Empty>, head: u32, word: u32)
    requires settled { IsSettled heap.now c.old false × (c.old.depth ≡ 1) }
    requires there { (heap.now.opening.limits.segments ≡ 1) × (head < 256) × (word < 4) }
    ensures { IsSettled heap.now c.new false × (c.new.depth ≡ 1) }
{
    assert_eq!(rt; owner_bits(heap, c, head, word), 0);
}

// Finds no block at an address, as the owner of the heap lock.
#[tactic(auto, using(data_words::proofs::Settled::still))]
fn find_no_size(rt: &impl Abort, heap: &Heap<Empty>, c: &mut Caller<Empty>, addr: u64)
    requires settled { IsSettled heap.now c.old false × (c.old.depth ≡ 1) }
    requires there { (heap.now.opening.limits.segments ≡ 1) × (addr < 1048576) }
    ensures { IsSettled heap.now c.new false × (c.new.depth ≡ 1) }
{
    assert_eq!(rt; owner_size(heap, c, addr), 0);
}

// Of a new heap each word is 0.
#[test]
fn words_of_a_new_heap(rt: HostRuntime) -> Result<(), Fail> {
    let (heap, _root, mut c) = alone(rt.alloc())?;
    enter(&rt, &heap, &mut c);
    find_no_tag(&rt, &heap, &mut c, 2);
    find_no_tag(&rt, &heap, &mut c, 255);
    find_idle(&rt, &heap, &mut c, 1);
    find_idle(&rt, &heap, &mut c, 128);
    go_out(&heap, &mut c);
    lock(&rt, &heap, &mut c);
    find_no_bits(&rt, &heap, &mut c, 2, 0);
    find_no_bits(&rt, &heap, &mut c, 255, 3);
    find_no_size(&rt, &heap, &mut c, 8256);
    find_no_size(&rt, &heap, &mut c, 1_048_575);
    Ok(())
}
