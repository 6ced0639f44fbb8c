ghost use Rattle.heap_now.specs.Callers.{IsFreeCaller};

use super::held::{held, hold_all, let_all_go};
use super::*;
use heap_model::ReNo;

#[tactic(auto, using(crate::proofs::Callers::free_again))]
fn realloc(
    heap: &Heap,
    c: &mut Caller,
    addr: u64,
    n: u64,
    zero: bool,
    in_place: bool,
) -> Result<u64, ReNo>
    requires { IsFreeCaller heap.now c.old }
    ensures { IsFreeCaller heap.now c.new }
{
    realloc_now(heap, c, addr, n, Flags { zero, in_place })
}

// The block goes there with n bytes, and the first of its words is still 11, its last one of `kept` 12.
fn goes(rt: &impl Abort, heap: &Heap, c: &mut Caller, from: u64, to: u64, n: u64, kept: u64)
    requires { IsFreeCaller heap.now c.old }
    ensures { IsFreeCaller heap.now c.new }
{
    assert_eq!(rt; realloc(heap, c, from, n, false, false), Ok(to));
    assert_eq!(rt; size(heap, c, to), Ok(n));
    assert_eq!(rt; get(heap, c, to, 0), Ok(11), "from {from}");
    assert_eq!(rt; get(heap, c, to, kept), Ok(12), "from {from}");
    if from != to {
        assert_eq!(rt; size(heap, c, from), Err(FreeNo::NotLive));
    }
}

// A block of n bytes there, with these two words.
fn begin(rt: &impl Abort, heap: &Heap, c: &mut Caller, n: u64, addr: u64, last: u64)
    requires { IsFreeCaller heap.now c.old }
    ensures { IsFreeCaller heap.now c.new }
{
    assert_eq!(rt; alloc(heap, c, n), Ok(addr));
    assert_eq!(rt; put(heap, c, addr, 0, 11), Ok(()));
    assert_eq!(rt; put(heap, c, addr, last, 12), Ok(()));
}

// 24 bytes are 3 words. The subsegment of 16 pages at page 2 has this block alone, and goes with it: so the back end has page 18 for
// 49 pages, behind them page 67 for 35 of another block, and page 102 for 74. The large area begins at page 256. Then the pages 2 to
// 66 are the shortest free run, and behind 49 of them 16 are left, from page 51 on.
#[test]
fn a_block_goes_up_through_the_layers_and_back(rt: HostRuntime) -> Result<(), Fail> {
    let (heap, _root, mut c) = alone(rt.alloc(), 256, 1, 0)?;
    begin(&rt, &heap, &mut c, 24, 8256, 2);
    goes(&rt, &heap, &mut c, 8256, 73728, 200000, 2);
    assert_eq!(rt; alloc(&heap, &mut c, 140000), Ok(274432));
    goes(&rt, &heap, &mut c, 73728, 417792, 300000, 2);
    goes(&rt, &heap, &mut c, 417792, 417792, 400000, 2);
    goes(&rt, &heap, &mut c, 417792, 1048576, 600000, 2);
    goes(&rt, &heap, &mut c, 1048576, 8256, 600, 2);
    goes(&rt, &heap, &mut c, 8256, 8256, 24, 2);
    goes(&rt, &heap, &mut c, 8256, 1048576, 600000, 2);
    goes(&rt, &heap, &mut c, 1048576, 8192, 200000, 2);
    goes(&rt, &heap, &mut c, 8192, 208960, 20000, 2);
    Ok(())
}

// The last word that both sizes have is kept, and none behind it is lost or made up: those that are gained are 0 where that is asked.
#[test]
fn words_that_are_gained(rt: HostRuntime) -> Result<(), Fail> {
    let (heap, _root, mut c) = alone(rt.alloc(), 256, 1, 0)?;
    begin(&rt, &heap, &mut c, 200000, 8192, 24999);
    goes(&rt, &heap, &mut c, 8192, 1048576, 600000, 24999);
    assert_eq!(rt; put(&heap, &mut c, 1048576, 25000, 13), Ok(()));
    goes(&rt, &heap, &mut c, 1048576, 8192, 200000, 24999);
    assert_eq!(rt;
        get(&heap, &mut c, 8192, 25000),
        Err(WordNo::Past { words: 25000 })
    );
    assert_eq!(rt;
        realloc(&heap, &mut c, 8192, 600000, true, false),
        Ok(1048576)
    );
    assert_eq!(rt; get(&heap, &mut c, 1048576, 24999), Ok(12));
    assert_eq!(rt; get(&heap, &mut c, 1048576, 25000), Ok(0));
    assert_eq!(rt; get(&heap, &mut c, 1048576, 74999), Ok(0));
    Ok(())
}

// Seventeen blocks of a size make its bucket due: so the bucket of 32 bytes is, and of 48 bytes behind two blocks of 16, of which the
// second one keeps the first from growing. The draws are those of `draws_pick_the_blocks_of_an_active_bucket` and the next word of
// that code, bfa4784b. A subsegment of 126 blocks of 32 bytes stands at page 18, one of 84 blocks of 48 bytes at page 19; the draws
// name the blocks 55, 9, 48, 19 and 75.
#[test]
fn a_block_goes_through_the_front_end(rt: HostRuntime) -> Result<(), Fail> {
    let (heap, _root, mut c) = alone(rt.alloc(), 256, 42, 54)?;
    alloc_row(&rt, &heap, &mut c, 32, 8256, 48, 17);
    begin(&rt, &heap, &mut c, 16, 9072, 1);
    assert_eq!(rt; alloc(&heap, &mut c, 16), Ok(9104));
    alloc_row(&rt, &heap, &mut c, 48, 9136, 64, 17);
    goes(&rt, &heap, &mut c, 9072, 75552, 32, 1);
    goes(&rt, &heap, &mut c, 75552, 75552, 20, 1);
    assert_eq!(rt; realloc(&heap, &mut c, 75552, 32, true, true), Ok(75552));
    assert_eq!(rt; get(&heap, &mut c, 75552, 3), Ok(0));
    goes(&rt, &heap, &mut c, 75552, 78320, 48, 1);
    goes(&rt, &heap, &mut c, 78320, 81920, 140000, 1);
    goes(&rt, &heap, &mut c, 81920, 75328, 32, 1);
    goes(&rt, &heap, &mut c, 75328, 1048576, 600000, 1);
    goes(&rt, &heap, &mut c, 1048576, 74400, 32, 1);
    goes(&rt, &heap, &mut c, 74400, 10224, 64, 1);
    goes(&rt, &heap, &mut c, 10224, 10224, 17, 1);
    Ok(())
}

// The block is refused that size so, and is as it was.
fn is_refused(
    rt: &impl Abort,
    heap: &Heap,
    c: &mut Caller,
    addr: u64,
    n: u64,
    in_place: bool,
    no: ReNo,
)
    requires { IsFreeCaller heap.now c.old }
    ensures { IsFreeCaller heap.now c.new }
{
    assert_eq!(rt; realloc(heap, c, addr, n, true, in_place), Err(no));
    assert_eq!(rt; size(heap, c, addr), Ok(32));
    assert_eq!(rt; get(heap, c, addr, 0), Ok(11));
    assert_eq!(rt; get(heap, c, addr, 3), Ok(12));
}

// .. sizes that no range has, and sizes for which it would have to move.
fn is_refused_each(rt: &impl Abort, heap: &Heap, c: &mut Caller, addr: u64)
    requires { IsFreeCaller heap.now c.old }
    ensures { IsFreeCaller heap.now c.new }
{
    is_refused(rt, heap, c, addr, 520193, false, ReNo::NoFit);
    is_refused(rt, heap, c, addr, u64::MAX, false, ReNo::NoFit);
    is_refused(rt, heap, c, addr, 49, true, ReNo::NoRoomInPlace);
    is_refused(rt, heap, c, addr, 200000, true, ReNo::NoRoomInPlace);
}

// 128 large pages hold no second block of 128 pages. A block of VS, and one of the front end: block 55 of its subsegment.
#[test]
fn a_refused_block_is_as_it_was(rt: HostRuntime) -> Result<(), Fail> {
    let (heap, _root, mut c) = alone(rt.alloc(), 128, 42, 54)?;
    assert_eq!(rt; alloc(&heap, &mut c, 520193), Ok(1048576));
    begin(&rt, &heap, &mut c, 32, 8256, 3);
    alloc_row(&rt, &heap, &mut c, 32, 8304, 48, 16);
    begin(&rt, &heap, &mut c, 32, 75552, 3);
    is_refused_each(&rt, &heap, &mut c, 8256);
    is_refused_each(&rt, &heap, &mut c, 75552);
    let gone = Err(ReNo::NotLive);
    assert_eq!(rt; realloc(&heap, &mut c, 8257, 16, false, false), gone);
    assert_eq!(rt; realloc(&heap, &mut c, 75584, 16, false, true), gone);
    Ok(())
}

// The other caller has the locks of all layers. A block of the front end stays without one, and one that would move is live again
// with its size.
#[test]
fn a_block_that_meets_a_lock_is_as_it_was(rt: HostRuntime) -> Result<(), Fail> {
    let (heap, _root, mut a, mut b) = two(rt.alloc(), 256, 42, 54, 1)?;
    alloc_row(&rt, &heap, &mut a, 32, 8256, 48, 17);
    begin(&rt, &heap, &mut a, 32, 75552, 3);
    let (vs, back, large) = hold_all(&rt, &heap, &mut b);
    let no = ReNo::Busy(held(What::Vs));
    is_refused(&rt, &heap, &mut a, 75552, 48, false, no);
    is_refused(&rt, &heap, &mut a, 75552, 200000, false, no);
    let no = ReNo::Busy(held(What::Large));
    is_refused(&rt, &heap, &mut a, 75552, 600000, false, no);
    assert_eq!(rt; realloc(&heap, &mut a, 75552, 25, false, false), Ok(75552));
    let no = Err(ReNo::Busy(held(What::Vs)));
    assert_eq!(rt; realloc(&heap, &mut a, 8256, 8, false, true), no);
    let_all_go(&heap, &mut b, vs, back, large);
    goes(&rt, &heap, &mut a, 75552, 1048576, 600000, 3);
    Ok(())
}
