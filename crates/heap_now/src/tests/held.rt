ghost use Rattle.std.specs.Prelude.{◌≡◌, Some};
ghost use Rattle.lfh_claims.specs.Blocks.{HasTag};
ghost use Rattle.heap_now.specs.Calls.{IsCallerOf};
ghost use Rattle.heap_now.specs.Callers.{IsFreeCaller, IsRootOf, IsInStay, MayGo, HoldsVs, HoldsBoth, HoldsAll, HasInHand};

use super::full::bit_of;
use super::walks::{compact, step};
use super::*;
use crate::frame::{enter_call, leave_call};
use backend_fit::Back;
use call_parts::{give_back, give_large, give_vs, take_back, take_large, take_vs};
use heap_gate::rest;
use heap_model::Call;
use large_blocks::Large;
use lfh_claims::{Tag, publish, tag_of, take_live};
use vs_layer::Vs;

// Enters.
#[tactic(auto, using(crate::proofs::Callers::in_stay, crate::proofs::Callers::stay_goes))]
pub(super) fn enter(rt: &impl Abort, heap: &Heap, c: &mut Caller)
    requires { IsFreeCaller heap.now c.old }
    ensures serving { IsInStay heap.now c.new }
    ensures may_go { MayGo heap.now c.new }
{
    enter_call(heap, c, Call::Stay).expect(rt, "enters");
}

// Leaves.
#[tactic(auto, using(crate::proofs::Callers::gone_free))]
pub(super) fn go_out(heap: &Heap, c: &mut Caller)
    requires { MayGo heap.now c.old }
    ensures { IsFreeCaller heap.now c.new }
{
    leave_call(heap, c);
}

// Takes the lock of the variable-size layer.
fn take_first(rt: &impl Abort, heap: &Heap, c: &mut Caller) -> Vs
    requires { IsInStay heap.now c.old }
    ensures { HoldsVs heap.now c.new result }
{
    let Ok(vs) = take_vs(heap, c) else {
        panic!(rt; "another has it")
    };
    vs
}

// Enters, and takes that lock.
fn hold_vs(rt: &impl Abort, heap: &Heap, c: &mut Caller) -> Vs
    requires { IsFreeCaller heap.now c.old }
    ensures { HoldsVs heap.now c.new result }
{
    enter(rt, heap, c);
    take_first(rt, heap, c)
}

#[tactic(auto, using(crate::proofs::Callers::vs_given))]
fn let_vs_go(heap: &Heap, c: &mut Caller, vs: Vs)
    requires { HoldsVs heap.now c.old vs }
    ensures { IsFreeCaller heap.now c.new }
{
    give_vs(heap, c, vs);
    go_out(heap, c);
}

// Takes the lock of the back end too.
fn hold_back(rt: &impl Abort, heap: &Heap, c: &mut Caller, vs: &Vs) -> Back
    requires { HoldsVs heap.now c.old vs.now }
    ensures { HoldsBoth heap.now c.new vs.now result }
{
    c.check();
    let Ok(back) = take_back(heap, c) else {
        panic!(rt; "another has it")
    };
    back
}

fn let_back_go(heap: &Heap, c: &mut Caller, vs: &Vs, back: Back)
    requires { HoldsBoth heap.now c.old vs.now back }
    ensures { HoldsVs heap.now c.new vs.now }
{
    c.check();
    give_back(heap, c, back);
}

// .. and that of the large area.
fn hold_large(rt: &impl Abort, heap: &Heap, c: &mut Caller, vs: &Vs, back: &Back) -> Large
    requires { HoldsBoth heap.now c.old vs.now back.now }
    ensures { HoldsAll heap.now c.new vs.now back.now result }
{
    c.check();
    let Ok(large) = take_large(heap, c) else {
        panic!(rt; "another has it")
    };
    large
}

fn let_large_go(heap: &Heap, c: &mut Caller, vs: &Vs, back: &Back, large: Large)
    requires { HoldsAll heap.now c.old vs.now back.now large }
    ensures { HoldsBoth heap.now c.new vs.now back.now }
{
    c.check();
    give_large(heap, c, large);
}

// Enters, and takes the locks of all layers.
pub(super) fn hold_all(rt: &impl Abort, heap: &Heap, c: &mut Caller) -> (Vs, Back, Large)
    requires { IsFreeCaller heap.now c.old }
    ensures { HoldsAll heap.now c.new result.0 result.1 result.2 }
{
    let vs = hold_vs(rt, heap, c);
    let back = hold_back(rt, heap, c, &vs);
    let large = hold_large(rt, heap, c, &vs, &back);
    (vs, back, large)
}

pub(super) fn let_all_go(heap: &Heap, c: &mut Caller, vs: Vs, back: Back, large: Large)
    requires { HoldsAll heap.now c.old vs back large }
    ensures { IsFreeCaller heap.now c.new }
{
    let_large_go(heap, c, &vs, &back, large);
    let_back_go(heap, c, &vs, back);
    let_vs_go(heap, c, vs);
}

// The second caller holds this lock.
pub(super) fn held(what: What) -> Busy {
    Busy { what, word: 2 }
}

// Each call on an address of the segment meets the lock of the variable-size layer, and in the large area that area's.
fn meet_lock(rt: &impl Abort, heap: &Heap, c: &mut Caller, addr: u64, what: What)
    requires { IsFreeCaller heap.now c.old }
    ensures { IsFreeCaller heap.now c.new }
{
    let busy = held(what);
    assert_eq!(rt; size(heap, c, addr), Err(FreeNo::Busy(busy)));
    assert_eq!(rt; free(heap, c, addr), Err(FreeNo::Busy(busy)));
    assert_eq!(rt; get(heap, c, addr, 0), Err(WordNo::Busy(busy)));
    assert_eq!(rt; put(heap, c, addr, 0, 1), Err(WordNo::Busy(busy)));
}

// A lock that another holds is met, and named with its holder. No lock is needed where no block can be.
#[test]
fn the_locks_of_the_layers_are_met(rt: HostRuntime) -> Result<(), Fail> {
    let (heap, _root, mut a, mut b) = two(rt.alloc(), 128, 1, 0, 1)?;
    let (vs, back, large) = hold_all(&rt, &heap, &mut b);
    meet_lock(&rt, &heap, &mut a, 8256, What::Vs);
    meet_lock(&rt, &heap, &mut a, 1048576, What::Large);
    free_all(
        &rt,
        &heap,
        &mut a,
        &[
            (8257, Err(FreeNo::NotLive)),
            (1572864, Err(FreeNo::NotLive)),
        ],
    );
    let_all_go(&heap, &mut b, vs, back, large);
    free_all(
        &rt,
        &heap,
        &mut a,
        &[
            (8256, Err(FreeNo::NotLive)),
            (1048576, Err(FreeNo::NotLive)),
        ],
    );
    let vs = hold_vs(&rt, &heap, &mut b);
    meet_lock(&rt, &heap, &mut a, 8256, What::Vs);
    let_vs_go(&heap, &mut b, vs);
    Ok(())
}

// No lock is needed for a block of a subsegment whose tags are stored, nor for one more of it.
fn serve_without_locks(rt: &impl Abort, heap: &Heap, c: &mut Caller, live: u64)
    requires { IsFreeCaller heap.now c.old }
    ensures { IsFreeCaller heap.now c.new }
{
    assert_eq!(rt; put(heap, c, live, 1, 7), Ok(()));
    assert_eq!(rt; get(heap, c, live, 1), Ok(7));
    assert_eq!(rt; size(heap, c, live), Ok(16));
    assert_eq!(rt; free(heap, c, live), Ok(()));
    let next = alloc(heap, c, 16).expect(rt, "takes no lock");
    assert!(rt; bit_of(next).is_some());
    assert_eq!(rt; free(heap, c, next), Ok(()));
}

// .. and the other layers are not there.
fn meet_locks(rt: &impl Abort, heap: &Heap, c: &mut Caller)
    requires { IsFreeCaller heap.now c.old }
    ensures { IsFreeCaller heap.now c.new }
{
    alloc_all(
        rt,
        heap,
        c,
        &[
            (16384, Err(AllocNo::Busy(held(What::Vs)))),
            (200000, Err(AllocNo::Busy(held(What::Back)))),
            (520193, Err(AllocNo::Busy(held(What::Large)))),
        ],
    );
    free_all(rt, heap, c, &[(8256, Err(FreeNo::Busy(held(What::Vs))))]);
}

// While the other caller has the locks of all layers, the front end still serves an active bucket.
#[test]
fn the_front_end_serves_while_all_locks_are_held(rt: HostRuntime) -> Result<(), Fail> {
    let (heap, _root, mut a, mut b) = two(rt.alloc(), 0, 1, 0, 1)?;
    let vs = hold_vs(&rt, &heap, &mut b);
    alloc_all(
        &rt,
        &heap,
        &mut a,
        &[(16, Err(AllocNo::Busy(held(What::Vs))))],
    );
    let_vs_go(&heap, &mut b, vs);
    alloc_row(&rt, &heap, &mut a, 16, 8256, 32, 17);
    let live = alloc(&heap, &mut a, 16).expect(&rt, "makes a subsegment");
    assert!(rt; bit_of(live).is_some());
    let (vs, back, large) = hold_all(&rt, &heap, &mut b);
    serve_without_locks(&rt, &heap, &mut a, live);
    meet_locks(&rt, &heap, &mut a);
    let_all_go(&heap, &mut b, vs, back, large);
    alloc_all(&rt, &heap, &mut a, &[(200000, Ok(77824))]);
    Ok(())
}

// The first block of the subsegment at page 18.
pub(super) const BLOCK: u64 = 76720;

// The tag of the page, which is the head of a subsegment of 16 bytes and slot 0.
fn read_tag(rt: &impl Abort, heap: &Heap, c: &mut Caller) -> Tag
    requires { IsInStay heap.now c.old }
    ensures tag { HasTag c.old c.new 18 (Some result) }
    ensures bucket { result.bucket ≡ 1 }
{
    let _limits = heap.limits();
    let Some(tag) = tag_of(heap, c, 18) else {
        panic!(rt; "no subsegment has the page")
    };
    if tag.bucket != 1 || tag.slot != 0 || tag.head != 18 {
        panic!(rt; "it is {tag:?}");
    }
    tag
}

// Takes the block, which is live.
fn take_block(rt: &impl Abort, heap: &Heap, c: &mut Caller)
    requires { IsInStay heap.now c.old }
    ensures { HasInHand heap.now c.new 76720 }
{
    let _limits = heap.limits();
    let tag = read_tag(rt, heap, c);
    c.check();
    let Some(size) = take_live(heap, c, tag, BLOCK) else {
        panic!(rt; "it is not live")
    };
    assert!(rt; size == 16);
}

// A caller that stays inside has the block in hand.
pub(super) fn take_in_hand(rt: &impl Abort, heap: &Heap, c: &mut Caller)
    requires { IsFreeCaller heap.now c.old }
    ensures { HasInHand heap.now c.new 76720 }
{
    enter(rt, heap, c);
    take_block(rt, heap, c);
}

// .. and makes it live again.
#[tactic(auto, using(crate::proofs::Callers::may_publish, crate::proofs::Callers::published_goes))]
pub(super) fn put_back(heap: &Heap, c: &mut Caller)
    requires { HasInHand heap.now c.old 76720 }
    ensures { IsFreeCaller heap.now c.new }
{
    let _limits = heap.limits();
    c.check();
    publish(heap, c, BLOCK, 16);
    c.check();
    rest(c);
    go_out(heap, c);
}

// A block in hand is not live for any other caller.
#[test]
fn a_block_in_hand_is_not_live(rt: HostRuntime) -> Result<(), Fail> {
    let (heap, _root, mut a, mut b) = two(rt.alloc(), 0, 42, 54, 1)?;
    alloc_row(&rt, &heap, &mut a, 16, 8256, 32, 17);
    alloc_all(&rt, &heap, &mut a, &[(16, Ok(BLOCK))]);
    take_in_hand(&rt, &heap, &mut a);
    assert_eq!(rt; free(&heap, &mut b, BLOCK), Err(FreeNo::NotLive));
    assert_eq!(rt; size(&heap, &mut b, BLOCK), Err(FreeNo::NotLive));
    put_back(&heap, &mut a);
    assert_eq!(rt; size(&heap, &mut b, BLOCK), Ok(16));
    assert_eq!(rt; free(&heap, &mut b, BLOCK), Ok(()));
    assert_eq!(rt; free(&heap, &mut a, BLOCK), Err(FreeNo::NotLive));
    Ok(())
}

// Takes the heap lock, or finds it so.
#[tactic(auto, using(crate::proofs::Locking::locked_again))]
pub(super) fn lock(rt: &impl Abort, heap: &Heap, c: &mut Caller, want: Result<(), LockNo>)
    requires { IsCallerOf heap.now c.old }
    ensures { IsCallerOf heap.now c.new }
{
    assert_eq!(rt; lock_now(heap, c), want);
}

// Gives the heap lock back once.
#[tactic(auto, using(crate::proofs::Locking::unlocked_again))]
pub(super) fn unlock(rt: &impl Abort, heap: &Heap, c: &mut Caller)
    requires { IsCallerOf heap.now c.old }
    ensures { IsCallerOf heap.now c.new }
{
    assert_eq!(rt; unlock_now(heap, c), Ok(()));
}

// Has none to give back.
#[tactic(auto, using(crate::proofs::Callers::owns_nothing))]
pub(super) fn own_nothing(rt: &impl Abort, heap: &Heap, c: &mut Caller)
    requires { IsCallerOf heap.now c.old }
    ensures { IsFreeCaller heap.now c.new }
{
    let Err(NotOwner) = unlock_now(heap, c) else {
        panic!(rt; "it owned the lock")
    };
}

// Both callers meet, and the root takes them in.
#[tactic(auto, using(crate::proofs::Callers::first_met, crate::proofs::Callers::second_met, crate::proofs::Callers::root_joined))]
pub(super) fn end(heap: &Heap, root: &mut Root, mut a: Caller, mut b: Caller)
    requires root { IsRootOf heap.now root.old }
    requires a { IsFreeCaller heap.now a }
    requires b { IsFreeCaller heap.now b }
    ensures { IsRootOf heap.now root.new }
{
    meet(heap, &mut a, &mut b);
    join(heap, root, a);
    join(heap, root, b);
}

// The gate word counts who is inside, and names the owner of the heap lock from bit 16 on.
#[test]
fn the_heap_lock_keeps_others_outside(rt: HostRuntime) -> Result<(), Fail> {
    let (heap, mut root, mut a, mut b) = two(rt.alloc(), 0, 1, 0, 1)?;
    let what = What::Gate;
    enter(&rt, &heap, &mut b);
    assert_eq!(rt; compact(&heap, &mut a), Err(Busy { what, word: 1 }));
    lock(
        &rt,
        &heap,
        &mut a,
        Err(LockNo::Busy(Busy { what, word: 1 })),
    );
    go_out(&heap, &mut b);
    lock(&rt, &heap, &mut a, Ok(()));
    lock(&rt, &heap, &mut a, Ok(()));
    let outside = Busy { what, word: 65536 };
    free_all(&rt, &heap, &mut b, &[(8192, Err(FreeNo::Busy(outside)))]);
    assert_eq!(rt; step(&heap, &mut b, 0), Err(NotLocked));
    own_nothing(&rt, &heap, &mut b);
    assert_eq!(rt; step(&heap, &mut a, 0), Ok(None));
    unlock(&rt, &heap, &mut a);
    unlock(&rt, &heap, &mut a);
    own_nothing(&rt, &heap, &mut a);
    free_all(&rt, &heap, &mut b, &[(8192, Err(FreeNo::NotLive))]);
    end(&heap, &mut root, a, b);
    Ok(())
}
