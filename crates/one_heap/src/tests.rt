ghost use Rattle.std.specs.Prelude.{◌≡◌};
ghost use Rattle.heap_model.specs.declared.Call.TheVariants.{Alloc};
ghost use Rattle.serial_laws.specs.BackCalls.{plain};

use super::*;
use std::test::Fail;

const LIMITS: Limits = Limits {
    segments: 1,
    large_pages: 128,
    slots: 1,
    callers: 1,
};

const PLAIN: Flags = Flags {
    zero: false,
    in_place: false,
};

fn alloc(n: u64) -> Call
    ensures { result ≡ Alloc n plain }
{
    Call::Alloc { n, flags: PLAIN }
}

#[test]
fn serves_a_block_of_each_layer(rt: HostRuntime) -> Result<(), Fail> {
    let mut heap = OneHeap::open(rt.alloc(), LIMITS, 1)?;
    assert!(rt; heap.serve(&alloc(131_073)) == Reply::Address(8192));
    assert!(rt; heap.serve(&alloc(24)) == Reply::Address(143_424));
    assert!(rt; heap.serve(&alloc(520_193)) == Reply::Address(1_048_576));
    assert!(rt; heap.serve(&alloc(520_193)) == Reply::NoFit);
    assert!(rt; heap.serve(&Call::Size { addr: 1_048_576 }) == Reply::Number(520_193));
    assert!(rt; heap.serve(&Call::Free { addr: 12288 }) == Reply::NotLive);
    assert!(rt; heap.serve(&Call::Free { addr: 143_424 }) == Reply::Done);
    let image = heap.close();
    assert!(rt; image.limits == LIMITS);
    Ok(())
}

/// The key of the heap with seed 42, and the header word of a place of 2 granules at 8240 in it.
#[test]
fn leaves_header_words(rt: HostRuntime) -> Result<(), Fail> {
    let mut heap = OneHeap::open(rt.alloc(), LIMITS, 42)?;
    assert!(rt; heap.serve(&alloc(16)) == Reply::Address(8256));
    let image = heap.close();
    assert_eq!(rt; image.key, 0x9e37_79b9_7f4a_7c3f);
    assert_eq!(rt; image.heads.word(515), 0x9e37_78b9_7f4a_5c0d);
    Ok(())
}

/// The heap lock at two depths, a walk over two blocks, and a compaction.
#[test]
fn walks_under_the_heap_lock(rt: HostRuntime) -> Result<(), Fail> {
    let alloc_of = rt.alloc();
    let mut heap = OneHeap::open(alloc_of, LIMITS, 1)?;
    let mut replies = Vec::new(alloc_of);
    assert!(rt; heap.serve(&alloc(131_073)) == Reply::Address(8192));
    assert!(rt; heap.serve(&alloc(24)) == Reply::Address(143_424));
    heap.walk(&mut replies)?;
    assert!(rt; heap.serve(&Call::Lock) == Reply::Done);
    assert!(rt; heap.serve(&Call::Lock) == Reply::Done);
    assert!(rt; heap.serve(&Call::Compact) == Reply::Compacted(0));
    heap.walk(&mut replies)?;
    assert!(rt; heap.serve(&Call::Unlock) == Reply::Done);
    assert!(rt; heap.serve(&Call::Unlock) == Reply::Done);
    assert!(rt; heap.serve(&Call::Unlock) == Reply::NotOwner);
    assert_eq!(rt; replies.len(), 4);
    assert_eq!(rt; replies[0], Reply::NotLocked);
    assert_eq!(rt; replies[3], Reply::Walked(2));
    Ok(())
}
