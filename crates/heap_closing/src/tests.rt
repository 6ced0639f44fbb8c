ghost use Rattle.std.specs.Prelude.{◌≡◌, IfOk};
ghost use Rattle.heap_model.specs.Limits.{AreValid};
ghost use Rattle.heap_gate.specs.Roots.{fresh_root, opened_with};

use super::*;
use backend_fit::Back;
use claim_rule::{GATE, LOCKS, MADE};
use heap_gate::{join, make_caller, open};
use heap_model::{Limits, OutOfMemory};
use large_blocks::Large;
use layout_decode::{count_blocks, next_block};
use std::alloc::Global;
use std::test::*;
use vs_layer::Vs;

// A heap with nothing in it, and its root.
fn opened(
    alloc: Global,
    limits: Limits,
    seed: u64,
) -> Result<(Heap<State>, Root<State>), OutOfMemory>
    requires { AreValid limits }
    ensures { IfOk result (λ r. (r.0.opening ≡ opened_with limits seed) × (r.1 ≡ fresh_root r.0.table r.0.opening)) }
{
    let vs = Vs::new(alloc, &limits, key_of(seed))?;
    let back = Back::new(alloc, &limits)?;
    let large = Large::new(alloc, &limits)?;
    open(
        alloc,
        limits,
        seed,
        State::Vs(vs),
        State::Back(back),
        State::Large(large),
    )
}

#[test]
fn a_heap_that_nobody_used_has_no_block(rt: HostRuntime) -> Result<(), Fail> {
    let limits = Limits {
        segments: 1,
        large_pages: 128,
        slots: 2,
        callers: 2,
    };
    let (heap, mut root) = opened(rt.alloc(), limits, 42)?;
    let a = make_caller(&heap, &mut root, 42, 0, 7);
    let b = make_caller(&heap, &mut root, 42, 1, 54);
    join(&heap, &mut root, b);
    join(&heap, &mut root, a);
    let image = close(heap, root).image;
    assert_eq!(rt; count_blocks(&image), (0, 0));
    assert!(rt; next_block(&image, 0).is_none());
    assert_eq!(rt; image.words.at(MADE as u64), 2);
    assert_eq!(rt; image.words.at(GATE as u64), 0);
    for lock in LOCKS..LOCKS + 4 {
        assert_eq!(rt; image.words.at(lock as u64), 0);
    }
    Ok(())
}
