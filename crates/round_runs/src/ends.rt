//! The callers of a heap: they are made before the first round, and join behind the last one.
ghost use Rattle.std.specs.Prelude.{◌≡◌, ◌<◌, ◌≤◌, [], IfOk, length};
ghost use Rattle.name_values.specs.Table.{Tells};
ghost use Rattle.round_runs.specs.Crews.{AreFree, AreMade, AreOf, HaveJoined};

use heap_api::{Caller, Heap, Root};
use heap_gate::{join, make_caller};
use name_values::Names;
use std::alloc::{AllocError, Global};
use thread_commands::Worker;

// A worker that has done nothing yet.
fn new_worker(alloc: Global, caller: Caller) -> Worker
    ensures { (result.caller ≡ caller) × Tells result.names [] [] }
{
    Worker {
        caller,
        names: Names::new(alloc),
        replies: Vec::new(alloc),
        short: false,
    }
}

/// So many workers. Each has a caller of its own: number `t` has the slot `t`, over and over again, and the stream `t`.
pub(crate) fn make_workers(
    alloc: Global,
    heap: &Heap,
    root: &mut Root,
    many: u32,
) -> Result<Vec<Worker>, AllocError>
    requires new { AreMade heap.now root.old [] }
    requires room { many ≤ heap.now.opening.limits.callers }
    ensures made { IfOk result (λ v. AreMade heap.now root.new v.items × (length v.items ≡ many)) }
{
    let mut workers = Vec::new(alloc);
    let seed = heap.seed();
    let slots = heap.limits().slots;
    for t in 0..many {
        let caller = make_caller(heap, root, seed, t % slots, u64::from(t));
        workers.push(new_worker(alloc, caller))?;
    }
    Ok(workers)
}

/// The root takes in all callers.
pub(crate) fn join_all(heap: &Heap, root: &mut Root, workers: Vec<Worker>)
    requires free { AreFree heap.now workers.items }
    requires of { AreOf heap.now root.old workers.items }
    ensures { HaveJoined workers.items root.old root.new }
{
    let mut left = workers;
    while let Some(w) = left.pop() {
        let Worker { caller, .. } = w;
        join(heap, root, caller);
    }
}
