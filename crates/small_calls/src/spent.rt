//! An allocation whose first pass of the front end is spent: it goes on under the lock of the back end.
ghost use Rattle.std.specs.Prelude.{◌≡◌, ℕ, List, Some, false};
ghost use Rattle.heap_model.specs.declared.Call.TheVariants as calls;
ghost use Rattle.heap_model.specs.declared.What.TheVariants as whats;
ghost use Rattle.heap_model.specs.Buckets.{bucket_of};
ghost use Rattle.heap_gate.specs.Token.{Token, is_out};
ghost use Rattle.lfh_search.specs.Courses.{IsCourse};
ghost use Rattle.small_calls.specs.GoingOn.{HasSpent, ComesUnderBack, TriesUnderBack};
ghost use Rattle.small_calls.specs.Ways.{IsSpent};
ghost use Rattle.small_calls.specs.Late.{GoesLate};

use crate::back_search::{UnderBack, serve_under_back};
use backend_fit::Back;
use call_parts::{State, take_back};
use heap_gate::{Caller, Heap};
use heap_model::Busy;
use lfh_search::Course;

/// What the search comes to that goes on.
#[derive(Drop)]
pub enum BehindSpent {
    /// Another caller has the lock.
    Busy(Busy),
    /// The block at this address is given, and so is the lock.
    Placed { addr: u64 },
    /// No block is free, and the back end has no room for a subsegment: NoSpan is prepared, and the lock is held still. So many claims
    /// of the call were lost.
    NoRoom { back: Back, lost: u32 },
}

/// Goes on with the search of an allocation of `n` bytes whose first pass is spent: takes the lock of the back end, and gives the block
/// that is found under it, or the first of a subsegment that is made, zeroed if that is asked, and then the lock. So many claims of the
/// call were lost before. What the caller held before it holds still.
pub fn go_under_back(
    heap: &Heap<State>,
    c: &mut Caller<State>,
    course: &Course,
    lost: u32,
    n: u64,
    zero: bool,
) -> BehindSpent
    requires table { (c.old.table ≡ heap.now.table) × (c.old.opening ≡ heap.now.opening) }
    requires course { IsCourse course.now }
    requires bucket { bucket_of n ≡ Some course.now.bucket }
    requires spent { (out : List ℕ) × HasSpent c.old n zero course.now.bucket course.now.draw.value lost out }
    requires free { is_out whats.Back c.old.out ≡ false }
    ensures { (out : List ℕ) (x : HasSpent c.old n zero course.now.bucket course.now.draw.value lost out) → ComesUnderBack c.old c.new course.now lost (calls.Alloc n x.asking.flags) n zero out result }
{
    let _limits = heap.limits();
    c.check();
    let back = match take_back(heap, c) {
        Ok(back) => back,
        Err(busy) => return BehindSpent::Busy(busy),
    };
    c.check();
    match serve_under_back(heap, c, back, course, lost, n, zero) {
        UnderBack::Placed { addr } => BehindSpent::Placed { addr },
        UnderBack::NoRoom { back, lost } => BehindSpent::NoRoom { back, lost },
    }
}

/// As [`go_under_back`], for an allocation that holds no lock. Behind a block it is done.
pub fn try_under_back(
    heap: &Heap<State>,
    c: &mut Caller<State>,
    course: &Course,
    lost: u32,
    n: u64,
    zero: bool,
) -> BehindSpent
    requires table { (c.old.table ≡ heap.now.table) × (c.old.opening ≡ heap.now.opening) }
    requires course { IsCourse course.now }
    requires bucket { bucket_of n ≡ Some course.now.bucket }
    requires spent { (first : Token) × IsSpent first c.old n zero course.now.bucket course.now.draw.value lost }
    ensures tries { (first : Token) → IsSpent first c.old n zero course.now.bucket course.now.draw.value lost → TriesUnderBack first c.old c.new course.now lost n zero result }
    ensures late { GoesLate c.old c.new course.now.bucket }
{
    go_under_back(heap, c, course, lost, n, zero)
}
