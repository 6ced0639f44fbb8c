ghost use Rattle.std.specs.Prelude.{◌<◌, IfSome};
ghost use Rattle.heap_now.specs.Callers.{IsFreeCaller};

use super::*;

/// The first block of the subsegment at page 18, which has 252 of 16 bytes.
pub(super) const FIRST: u64 = 73792;

pub(super) const ALL: [u64; 4] = [u64::MAX, u64::MAX, u64::MAX, (1 << 60) - 1];

/// Which blocks of that subsegment somebody got.
#[derive(Clone, Copy, Debug, PartialEq, Eq)]
pub(super) struct Blocks {
    pub(super) bits: [u64; 4],
}

/// The word and the bit of the block at an address, or `None` where the subsegment has no block there.
pub(super) fn bit_of(addr: u64) -> Option<(usize, u64)>
    ensures { IfSome result (λ r. r.0 < 4) }
{
    let index = addr.checked_sub(FIRST)? / 16;
    if index >= 252 || addr % 16 != 0 {
        return None;
    }
    Some(((index / 64) as usize, 1 << (index % 64)))
}

/// Notes a block, and answers whether nobody got it before.
pub(super) fn note_if_new(blocks: &mut Blocks, word: usize, bit: u64) -> bool
    requires { word < 4 }
{
    let is_new = blocks.bits[word] & bit == 0;
    blocks.bits[word] |= bit;
    is_new
}

// Notes a block of the page, which nobody got before.
fn note(rt: &impl Abort, blocks: &mut Blocks, addr: u64) {
    let Some((word, bit)) = bit_of(addr) else {
        panic!(rt; "{addr} is no block of the page")
    };
    assert!(rt; note_if_new(blocks, word, bit), "{addr} was given twice");
}

// So many blocks of 16 bytes, all of the subsegment.
pub(super) fn claim(rt: &impl Abort, heap: &Heap, c: &mut Caller, blocks: &mut Blocks, many: u32)
    requires { IsFreeCaller heap.now c.old }
    ensures { IsFreeCaller heap.now c.new }
{
    for _ in 0..many {
        let addr = alloc(heap, c, 16).expect(rt, "has room");
        note(rt, blocks, addr);
    }
}

/// Makes the bucket of 16 bytes active by seventeen blocks of the variable-size layer, and takes the eighteenth, the first of the
/// subsegment. Two blocks of 127 and of 110 pages take the rest of the segment.
pub(super) fn fill(rt: &impl Abort, heap: &Heap, c: &mut Caller) -> Blocks
    requires { IsFreeCaller heap.now c.old }
    ensures { IsFreeCaller heap.now c.new }
{
    alloc_row(rt, heap, c, 16, 8256, 32, 17);
    let mut blocks = Blocks { bits: [0; 4] };
    claim(rt, heap, c, &mut blocks, 1);
    alloc_all(rt, heap, c, &[(520192, Ok(77824)), (450560, Ok(598016))]);
    blocks
}

// Where neither a block of the bucket nor a page is free, the variable-size layer serves the size, and no block of 33 pages fits.
#[test]
fn a_bucket_without_pages_falls_to_the_variable_size_layer(rt: HostRuntime) -> Result<(), Fail> {
    let (heap, _root, mut c) = alone(rt.alloc(), 0, 1, 0)?;
    let mut blocks = fill(&rt, &heap, &mut c);
    claim(&rt, &heap, &mut c, &mut blocks, 251);
    assert_eq!(rt; blocks.bits, ALL);
    alloc_all(
        &rt,
        &heap,
        &mut c,
        &[(16, Ok(8800)), (131072, Err(AllocNo::NoFit))],
    );
    Ok(())
}
