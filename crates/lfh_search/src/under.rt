//! The search of a caller that holds the back end's lock.
ghost use Rattle.std.specs.Prelude.{◌≡◌, ◌<◌, [], true, false, IfSome, IfNone};
ghost use Rattle.heap_model.specs.declared.What.TheVariants as whats;
ghost use Rattle.heap_model.specs.CallState.{Search};
ghost use Rattle.heap_gate.specs.Token.{is_out};
ghost use Rattle.lfh_claims.specs.Search.{own_slot};
ghost use Rattle.lfh_search.specs.Courses.{IsCourse};
ghost use Rattle.lfh_search.specs.Under.{IsUnder, Looked, HasSaid, HasNotSaid, HasServed, UnderSearched, IsNotServed};

use crate::course::Course;
use crate::pass::{Pass, read_all};
use crate::reading::LOSSES;
use backend_fit::Back;
use heap_gate::{Caller, Heap};
use heap_model::Stands;
use lfh_buckets::block_at;
use lfh_spans::{hint_under_back, install, install_again, set_hint};

/// What a search under the back end's lock comes to.
#[derive(Clone, Copy, Debug, PartialEq, Eq)]
pub enum Under {
    /// The block at this address is in hand.
    Claimed { addr: u64 },
    /// No block is free, and the back end has no room for a subsegment. So many claims of the call were lost.
    NoRoom { lost: u32 },
}

/// Goes on with a search under the back end's lock, of which `back` is the state. So many claims of the call were lost before. With
/// fewer than eight all subsegments of the course's bucket and the caller's slot are read. Where none has a free block, or the eighth
/// claim is lost, a subsegment is made. The subsegment of the block becomes the hint.
///
/// Where the back end has no room, NoSpan is prepared. The caller then keeps the lock, takes that of the variable-size layer too where
/// it does not hold it, and calls [`search_again`].
pub fn search_under_back<T: Stands>(
    heap: &Heap<T>,
    c: &mut Caller<T>,
    back: &mut Back,
    course: &Course,
    lost: u32,
) -> Under
    requires table { (c.old.table ≡ heap.now.table) × (c.old.opening ≡ heap.now.opening) }
    requires whole { c.old.whole ≡ true }
    requires inside { c.old.inside ≡ true }
    requires slot { own_slot c.old < 16 }
    requires course { IsCourse course.now }
    requires settled { (c.old.pending ≡ false) × (c.old.prepared ≡ []) }
    requires under { (f : Search) × IsUnder c.old back.old course.now f lost }
    requires first { HasNotSaid c.old }
    ensures { UnderSearched c.old c.new back.old back.new course.now lost result }
{
    c.check();
    match look_under_back(heap, c, back, course, lost) {
        Look::InHand { addr } => Under::Claimed { addr },
        Look::Spent { lost } => match install(heap, c, back, course.bucket, course.draw) {
            Some(addr) => Under::Claimed { addr },
            None => Under::NoRoom { lost },
        },
    }
}

/// Searches again behind NoSpan, with the lock of the variable-size layer held too: all subsegments are read once more, where fewer
/// than eight claims of the call were lost, and then a subsegment is made. `None` only where the back end still has no room: the
/// request then goes to the variable-size layer.
pub fn search_again<T: Stands>(
    heap: &Heap<T>,
    c: &mut Caller<T>,
    back: &mut Back,
    course: &Course,
    lost: u32,
) -> Option<u64>
    requires table { (c.old.table ≡ heap.now.table) × (c.old.opening ≡ heap.now.opening) }
    requires whole { c.old.whole ≡ true }
    requires inside { c.old.inside ≡ true }
    requires slot { own_slot c.old < 16 }
    requires course { IsCourse course.now }
    requires vs { is_out whats.Vs c.old.out ≡ true }
    requires under { (f : Search) × IsUnder c.old back.old course.now f lost }
    requires said { HasSaid c.old }
    ensures served { IfSome result (HasServed c.old c.new back.old back.new course.now) }
    ensures cannot_be_served { IfNone result (IsNotServed c.old c.new back.old back.new course.now) }
{
    c.check();
    match look_under_back(heap, c, back, course, lost) {
        Look::InHand { addr } => Some(addr),
        Look::Spent { .. } => install_again(heap, c, back, course.bucket, course.draw),
    }
}

/// What is found in the subsegments that are there.
#[derive(Clone, Copy, Debug, PartialEq, Eq)]
enum Look {
    /// The block at this address is in hand.
    InHand { addr: u64 },
    /// The search is spent; so many claims of the call were lost.
    Spent { lost: u32 },
}

/// Reads all subsegments of the course's bucket and the caller's slot, where fewer than eight claims of the call were lost, and stores
/// the hint where a block is claimed. Where the hint is 0 there is no subsegment, and no descriptor is looked at.
fn look_under_back<T: Stands>(
    heap: &Heap<T>,
    c: &mut Caller<T>,
    back: &Back,
    course: &Course,
    lost: u32,
) -> Look
    requires table { (c.old.table ≡ heap.now.table) × (c.old.opening ≡ heap.now.opening) }
    requires whole { c.old.whole ≡ true }
    requires inside { c.old.inside ≡ true }
    requires slot { own_slot c.old < 16 }
    requires course { IsCourse course.now }
    requires under { (f : Search) × IsUnder c.old back.now course.now f lost }
    ensures { (f : Search) → IsUnder c.old back.now course.now f lost → Looked c.old c.new back.now course.now lost result }
{
    c.check();
    if lost == LOSSES {
        return Look::Spent { lost };
    }
    let _limits = heap.limits();
    let _sound = back.region();
    let Some(_) = hint_under_back(heap, c, course.bucket) else {
        return Look::Spent { lost };
    };
    match read_all(heap, c, back, course, lost) {
        Pass::Dry { lost } => Look::Spent { lost },
        Pass::Beaten => {
            c.check();
            Look::Spent { lost: LOSSES }
        }
        Pass::Claimed { head, index } => {
            set_hint(heap, c, course.bucket, head);
            Look::InHand {
                addr: block_at(course.bucket, head, index),
            }
        }
    }
}
