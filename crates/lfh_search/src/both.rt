//! The whole search of a caller that holds the locks of the back end and of the variable-size layer from its start.
ghost use Rattle.std.specs.Prelude.{◌≡◌, ◌<◌, [], true, false, IfSome, IfNone};
ghost use Rattle.heap_model.specs.declared.What.TheVariants as whats;
ghost use Rattle.heap_model.specs.CallState.{Search};
ghost use Rattle.heap_gate.specs.Token.{is_out};
ghost use Rattle.lfh_claims.specs.Search.{own_slot};
ghost use Rattle.lfh_search.specs.Courses.{IsCourse};
ghost use Rattle.lfh_search.specs.Under.{IsUnder, HasNotSaid};
ghost use Rattle.lfh_search.specs.Both.{IsAtStart, HasBegun, HasSearchedTo, HasSearchedInVain};

use crate::course::Course;
use crate::hint::{First, search_hint_under_back};
use crate::under::{Under, search_again, search_under_back};
use backend_fit::Back;
use heap_gate::{Caller, Heap};
use heap_model::Stands;
use lfh_spans::set_hint;

/// Searches for a block of the course's bucket under the locks of the back end, of which `back` is the state, and of the variable-size
/// layer, from the hint on: in the subsegment that it names, then in all of the bucket and the caller's slot, then in one that is made.
/// Where the back end has no room for one it says so, and searches once more. It answers the address of the block, which is in hand;
/// the subsegment of the block is the hint then. `None` only where the front end cannot serve the size, so that the variable-size
/// layer does. What the caller has in hand before stays there.
pub fn search_under_both<T: Stands>(
    heap: &Heap<T>,
    c: &mut Caller<T>,
    back: &mut Back,
    course: &Course,
) -> Option<u64>
    requires table { (c.old.table ≡ heap.now.table) × (c.old.opening ≡ heap.now.opening) }
    requires whole { c.old.whole ≡ true }
    requires inside { c.old.inside ≡ true }
    requires slot { own_slot c.old < 16 }
    requires course { IsCourse course.now }
    requires vs { is_out whats.Vs c.old.out ≡ true }
    requires start { IsAtStart c.old back.old course.now }
    ensures found { IfSome result (HasSearchedTo c.old c.new back.old back.new course.now) }
    ensures cannot_be_served { IfNone result (HasSearchedInVain c.old c.new back.old back.new course.now) }
{
    c.check();
    match begin_under_back(heap, c, back, course) {
        First::Claimed(found) => Some(found.addr),
        First::Spent { lost } => go_on_under_both(heap, c, back, course, lost),
    }
}

/// The first pass: the subsegment that the hint names, which is the hint still where it has a block.
fn begin_under_back<T: Stands>(
    heap: &Heap<T>,
    c: &mut Caller<T>,
    back: &Back,
    course: &Course,
) -> First
    requires table { (c.old.table ≡ heap.now.table) × (c.old.opening ≡ heap.now.opening) }
    requires whole { c.old.whole ≡ true }
    requires inside { c.old.inside ≡ true }
    requires slot { own_slot c.old < 16 }
    requires course { IsCourse course.now }
    requires start { IsAtStart c.old back.now course.now }
    ensures { HasBegun c.old c.new back.now course.now result }
{
    c.check();
    let _sound = back.region();
    match search_hint_under_back(heap, c, course.bucket, course.draw) {
        First::Claimed(found) => {
            set_hint(heap, c, course.bucket, found.head);
            First::Claimed(found)
        }
        First::Spent { lost } => First::Spent { lost },
    }
}

/// Goes on behind the first pass, of which so many claims were lost.
fn go_on_under_both<T: Stands>(
    heap: &Heap<T>,
    c: &mut Caller<T>,
    back: &mut Back,
    course: &Course,
    lost: u32,
) -> Option<u64>
    requires table { (c.old.table ≡ heap.now.table) × (c.old.opening ≡ heap.now.opening) }
    requires whole { c.old.whole ≡ true }
    requires inside { c.old.inside ≡ true }
    requires slot { own_slot c.old < 16 }
    requires course { IsCourse course.now }
    requires vs { is_out whats.Vs c.old.out ≡ true }
    requires settled { (c.old.pending ≡ false) × (c.old.prepared ≡ []) }
    requires under { (f : Search) × IsUnder c.old back.old course.now f lost }
    requires first { HasNotSaid c.old }
    ensures found { IfSome result (HasSearchedTo c.old c.new back.old back.new course.now) }
    ensures cannot_be_served { IfNone result (HasSearchedInVain c.old c.new back.old back.new course.now) }
{
    match search_under_back(heap, c, back, course, lost) {
        Under::Claimed { addr } => Some(addr),
        Under::NoRoom { lost } => {
            c.check();
            search_again(heap, c, back, course, lost)
        }
    }
}
