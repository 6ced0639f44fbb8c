ghost use Rattle.std.specs.Prelude.{IfOk};
ghost use Rattle.heap_now.specs.Calls.{IsCallerOf};
ghost use Rattle.thread_calls.specs.Serving.{IsServable};

use super::*;
use heap_api::{Caller, Heap, Root, open_heap};
use heap_gate::make_caller;
use heap_model::{Call, Flags, Limits, OutOfMemory, Reply};
use std::alloc::Global;
use std::sync::Wait;
use std::test::*;

// A heap of one segment, with its caller.
#[tactic(auto, using(heap_api::proofs::Callers::fresh_is))]
fn alone(alloc: Global) -> Result<(Heap, Root, Caller), OutOfMemory>
    ensures { IfOk result (λ r. IsCallerOf r.0 r.2) }
{
    let limits = Limits {
        segments: 1,
        large_pages: 0,
        slots: 1,
        callers: 1,
    };
    let (heap, mut root) = open_heap(alloc, limits, 42)?;
    let c = make_caller(&heap, &mut root, 42, 0, 0);
    Ok((heap, root, c))
}

fn answer<R: Wait>(rt: &R, heap: &Heap, c: &mut Caller, call: Call) -> Reply
    requires caller { IsCallerOf heap.now c.old }
    requires servable { IsServable call }
    ensures { IsCallerOf heap.now c.new }
{
    serve(rt, heap, c, call)
}

#[test]
fn calls_get_replies(rt: HostRuntime) -> Result<(), Fail> {
    let (heap, _root, mut c) = alone(rt.alloc())?;
    let flags = Flags {
        zero: true,
        in_place: false,
    };
    let addr = 8256;
    let placed = answer(&rt, &heap, &mut c, Call::Alloc { n: 40, flags });
    let stored = answer(
        &rt,
        &heap,
        &mut c,
        Call::Put {
            addr,
            index: 1,
            value: 9,
        },
    );
    let loaded = answer(&rt, &heap, &mut c, Call::Get { addr, index: 1 });
    let freed = answer(&rt, &heap, &mut c, Call::Free { addr });
    let size = answer(&rt, &heap, &mut c, Call::Size { addr });
    assert_eq!(rt;
        [placed, stored, loaded, freed, size],
        [
            Reply::Address(addr),
            Reply::Done,
            Reply::Number(9),
            Reply::Done,
            Reply::NotLive
        ]
    );
    Ok(())
}

fn resize(addr: u64, n: u64, in_place: bool) -> Call
    ensures { IsServable result }
{
    let flags = Flags {
        zero: false,
        in_place,
    };
    Call::Realloc { addr, n, flags }
}

// A place of 24 bytes has room for 28, not for 400. A block of 200 bytes fits behind both blocks.
#[test]
fn blocks_change_their_sizes(rt: HostRuntime) -> Result<(), Fail> {
    let (heap, _root, mut c) = alone(rt.alloc())?;
    let flags = Flags {
        zero: false,
        in_place: false,
    };
    let first = answer(&rt, &heap, &mut c, Call::Alloc { n: 24, flags });
    let second = answer(&rt, &heap, &mut c, Call::Alloc { n: 16, flags });
    let stays = answer(&rt, &heap, &mut c, resize(8256, 28, true));
    let cannot = answer(&rt, &heap, &mut c, resize(8256, 400, true));
    let moved = answer(&rt, &heap, &mut c, resize(8256, 200, false));
    let gone = answer(&rt, &heap, &mut c, resize(8256, 200, false));
    let too_large = answer(&rt, &heap, &mut c, resize(8336, 520_193, false));
    assert_eq!(rt;
        [first, second, stays, cannot, moved, gone, too_large],
        [
            Reply::Address(8256),
            Reply::Address(8304),
            Reply::Address(8256),
            Reply::NoRoom,
            Reply::Address(8336),
            Reply::NotLive,
            Reply::NoFit
        ]
    );
    Ok(())
}

// The heap lock is given back as often as it was taken.
#[test]
fn the_depth_answers(rt: HostRuntime) -> Result<(), Fail> {
    let (heap, _root, mut c) = alone(rt.alloc())?;
    let first = answer(&rt, &heap, &mut c, Call::Lock);
    let second = answer(&rt, &heap, &mut c, Call::Lock);
    let pages = answer(&rt, &heap, &mut c, Call::Compact);
    let third = answer(&rt, &heap, &mut c, Call::Unlock);
    let fourth = answer(&rt, &heap, &mut c, Call::Unlock);
    let fifth = answer(&rt, &heap, &mut c, Call::Unlock);
    assert_eq!(rt;
        [first, second, pages, third, fourth, fifth],
        [
            Reply::Done,
            Reply::Done,
            Reply::Compacted(0),
            Reply::Done,
            Reply::Done,
            Reply::NotOwner
        ]
    );
    Ok(())
}
