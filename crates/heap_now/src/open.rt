//! A new heap.
ghost use Rattle.std.specs.Prelude.{◌≡◌, IfOk};
ghost use Rattle.heap_model.specs.Limits.{AreValid};
ghost use Rattle.heap_gate.specs.Roots.{fresh_root, opened_with};

use backend_fit::Back;
use call_parts::State;
use heap_gate::{Heap, Root};
use heap_model::{Limits, OutOfMemory};
use large_blocks::Large;
use std::alloc::Global;
use vs_headers::key_of;
use vs_layer::Vs;

/// A new heap with nothing in it, and its root. All the memory that the heap will ever use is taken here.
pub fn open_heap(
    alloc: Global,
    limits: Limits,
    seed: u64,
) -> Result<(Heap<State>, Root<State>), OutOfMemory>
    requires { AreValid limits }
    ensures { IfOk result (λ r. (r.0.opening ≡ opened_with limits seed) × (r.1 ≡ fresh_root r.0.table r.0.opening)) }
{
    let vs = Vs::new(alloc, &limits, key_of(seed))?;
    let back = Back::new(alloc, &limits)?;
    let large = Large::new(alloc, &limits)?;
    heap_gate::open(
        alloc,
        limits,
        seed,
        State::Vs(vs),
        State::Back(back),
        State::Large(large),
    )
}
