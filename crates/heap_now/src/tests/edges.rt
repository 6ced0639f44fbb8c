ghost use Rattle.heap_now.specs.Callers.{IsFreeCaller};

use super::*;

// Only where a live block begins is one freed or measured, and only once.
#[test]
fn no_live_block(rt: HostRuntime) -> Result<(), Fail> {
    let (heap, _root, mut c) = alone(rt.alloc(), 128, 1, 0)?;
    assert_eq!(rt; alloc(&heap, &mut c, 16), Ok(8256));
    refuse_all(
        &rt,
        &heap,
        &mut c,
        &[0, 8240, 8257, 8272, 1048576, 1572864, u64::MAX],
    );
    free_all(
        &rt,
        &heap,
        &mut c,
        &[(8256, Ok(())), (8256, Err(FreeNo::NotLive))],
    );
    Ok(())
}

// No call finds a block there.
fn refuse(rt: &impl Abort, heap: &Heap, c: &mut Caller, addr: u64)
    requires { IsFreeCaller heap.now c.old }
    ensures { IsFreeCaller heap.now c.new }
{
    assert_eq!(rt; free(heap, c, addr), Err(FreeNo::NotLive), "{addr}");
    assert_eq!(rt; size(heap, c, addr), Err(FreeNo::NotLive), "{addr}");
    assert_eq!(rt; get(heap, c, addr, 0), Err(WordNo::NotLive), "{addr}");
    assert_eq!(rt; put(heap, c, addr, 0, 1), Err(WordNo::NotLive), "{addr}");
}

fn refuse_all(rt: &impl Abort, heap: &Heap, c: &mut Caller, addrs: &[u64])
    requires { IsFreeCaller heap.now c.old }
    ensures { IsFreeCaller heap.now c.new }
{
    for i in 0..addrs.len() {
        refuse(rt, heap, c, addrs[i]);
    }
}

// Allocates a block, which has so many words.
fn has_words(rt: &impl Abort, heap: &Heap, c: &mut Caller, n: u64, addr: u64, words: u64)
    requires { IsFreeCaller heap.now c.old }
    ensures { IsFreeCaller heap.now c.new }
{
    assert_eq!(rt; alloc(heap, c, n), Ok(addr));
    assert_eq!(rt; size(heap, c, addr), Ok(n));
    assert_eq!(rt; get(heap, c, addr, words), Err(WordNo::Past { words }));
    assert_eq!(rt;
        put(heap, c, addr, u64::MAX, 7),
        Err(WordNo::Past { words })
    );
}

// 24 bytes are 3 words, one byte is one, and no byte is none.
#[test]
fn words_past_the_end(rt: HostRuntime) -> Result<(), Fail> {
    let (heap, _root, mut c) = alone(rt.alloc(), 0, 1, 0)?;
    has_words(&rt, &heap, &mut c, 24, 8256, 3);
    has_words(&rt, &heap, &mut c, 1, 8304, 1);
    has_words(&rt, &heap, &mut c, 0, 8336, 0);
    Ok(())
}

// A segment has 254 pages, two blocks of 127; the large area begins behind it, and 128 pages hold one block of 520,193 bytes.
#[test]
fn no_range_fits(rt: HostRuntime) -> Result<(), Fail> {
    let (heap, _root, mut c) = alone(rt.alloc(), 128, 1, 0)?;
    let no = Err(AllocNo::NoFit);
    alloc_all(
        &rt,
        &heap,
        &mut c,
        &[
            (520192, Ok(8192)),
            (520192, Ok(528384)),
            (520192, no),
            (16, no),
        ],
    );
    alloc_all(
        &rt,
        &heap,
        &mut c,
        &[(520193, Ok(1048576)), (520193, no), (u64::MAX, no)],
    );
    free_all(&rt, &heap, &mut c, &[(1048576, Ok(())), (8192, Ok(()))]);
    alloc_all(
        &rt,
        &heap,
        &mut c,
        &[(524288, Ok(1048576)), (131073, Ok(8192))],
    );
    Ok(())
}

// Allocates a block at this address, stores its last word, reads that and the first one, and frees the block. Then another has its place.
fn goes_round(rt: &impl Abort, heap: &Heap, c: &mut Caller, n: u64, addr: u64)
    requires { IsFreeCaller heap.now c.old }
    ensures { IsFreeCaller heap.now c.new }
{
    let last = n.div_ceil(8).saturating_sub(1);
    assert_eq!(rt; alloc(heap, c, n), Ok(addr));
    assert_eq!(rt; put(heap, c, addr, last, n), Ok(()));
    assert_eq!(rt; get(heap, c, addr, last), Ok(n));
    assert_eq!(rt; get(heap, c, addr, 0), Ok(0));
    assert_eq!(rt; size(heap, c, addr), Ok(n));
    assert_eq!(rt; free(heap, c, addr), Ok(()));
    refuse(rt, heap, c, addr);
    assert_eq!(rt; alloc(heap, c, n), Ok(addr));
}

// A block of the variable-size layer, one of the back end and one of the large area.
#[test]
fn each_layer_goes_round(rt: HostRuntime) -> Result<(), Fail> {
    let (heap, _root, mut c) = alone(rt.alloc(), 128, 1, 0)?;
    goes_round(&rt, &heap, &mut c, 20000, 8256);
    goes_round(&rt, &heap, &mut c, 200000, 73728);
    goes_round(&rt, &heap, &mut c, 520193, 1048576);
    Ok(())
}

// A new heap has no block: not at 0, in a header, off the granules, in its pages, in the large area, nor behind that.
#[test]
fn a_new_heap_has_no_block(rt: HostRuntime) -> Result<(), Fail> {
    let (heap, _root, mut c) = alone(rt.alloc(), 128, 1, 0)?;
    refuse_all(
        &rt,
        &heap,
        &mut c,
        &[0, 8240, 8257, 8256, 1048576, 1572864, u64::MAX],
    );
    Ok(())
}
