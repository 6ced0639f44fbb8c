//! An allocation whose first pass of the front end is spent with the lock of the variable-size layer held: it takes that of the back
//! end too.
ghost use Rattle.std.specs.Prelude.{◌≡◌, ℕ, List, Some, [], ◌∷◌};
ghost use Rattle.heap_model.specs.declared.Act.{Act};
ghost use Rattle.heap_model.specs.Buckets.{bucket_of};
ghost use Rattle.claim_rule.specs.Places.{vs_slot};
ghost use Rattle.heap_gate.specs.Token.{Token};
ghost use Rattle.call_parts.specs.Calls.{GoesOn};
ghost use Rattle.lfh_search.specs.Courses.{IsCourse};
ghost use Rattle.small_calls.specs.Ways.{KeepsVs, IsSpentUnderVs};
ghost use Rattle.small_calls.specs.GoingOn.{IsWithoutRoom, TriesWithVs, SearchesAgain, GoneOnWithVs};

use crate::no_room::BehindNoSpan;
use crate::spent::{BehindSpent, go_under_back};
use crate::under_back::hand_over_back_first;
use backend_fit::Back;
use call_parts::{State, give_vs};
use heap_gate::{Caller, Heap};
use heap_model::Busy;
use lfh_search::{Course, search_again};
use random_pick::Draw;
use vs_layer::Vs;

/// What the search comes to under both locks.
#[derive(Drop)]
pub enum WithBack {
    /// Another caller has the lock of the back end. That of the variable-size layer is given.
    Busy(Busy),
    /// The block at this address is given, and so are both locks.
    Placed { addr: u64 },
    /// No block is free, and the back end has no room for a subsegment: NoSpan is prepared, and both locks are held still. So many
    /// claims of the call were lost.
    NoRoom { vs: Vs, back: Back, lost: u32 },
}

/// Goes on with the search of an allocation of `n` bytes under both locks, gives the block that it finds, or the first of a subsegment
/// that it makes, zeroed if that is asked, and gives the locks. So many claims of the call were lost before.
pub fn try_with_vs(
    heap: &Heap<State>,
    c: &mut Caller<State>,
    vs: Vs,
    course: &Course,
    lost: u32,
    n: u64,
    zero: bool,
) -> WithBack
    requires table { (c.old.table ≡ heap.now.table) × (c.old.opening ≡ heap.now.opening) }
    requires course { IsCourse course.now }
    requires bucket { bucket_of n ≡ Some course.now.bucket }
    requires spent { (first : Token) × IsSpentUnderVs first c.old n zero course.now.bucket course.now.draw.value lost vs }
    ensures tries { (first : Token) → IsSpentUnderVs first c.old n zero course.now.bucket course.now.draw.value lost vs → TriesWithVs first c.old c.new course.now lost n zero result }
    ensures goes { (rest : List Act) × GoesOn c.old c.new rest }
{
    c.check();
    match go_under_back(heap, c, course, lost, n, zero) {
        BehindSpent::Busy(busy) => {
            give_vs(heap, c, vs);
            WithBack::Busy(busy)
        }
        BehindSpent::Placed { addr } => {
            give_vs(heap, c, vs);
            WithBack::Placed { addr }
        }
        BehindSpent::NoRoom { back, lost } => WithBack::NoRoom { vs, back, lost },
    }
}

/// Searches again behind NoSpan, which is prepared, and gives the block that it finds, zeroed if that is asked, and then both locks. It meets no
/// lock that is busy.
pub fn search_with_both(
    heap: &Heap<State>,
    c: &mut Caller<State>,
    vs: Vs,
    mut back: Back,
    course: &Course,
    lost: u32,
    n: u64,
    zero: bool,
) -> BehindNoSpan
    requires table { (c.old.table ≡ heap.now.table) × (c.old.opening ≡ heap.now.opening) }
    requires course { IsCourse course.now }
    requires bucket { bucket_of n ≡ Some course.now.bucket }
    requires no_room { (first : Token) × (before : ℕ) × IsWithoutRoom first c.old back course.now before lost n zero (vs_slot ∷ []) }
    requires vs { KeepsVs c.old vs }
    ensures { (first : Token) (before : ℕ) → IsWithoutRoom first c.old back course.now before lost n zero (vs_slot ∷ []) → SearchesAgain c.old c.new course.now.bucket n zero result }
{
    let _limits = heap.limits();
    c.check();
    match search_again(heap, c, &mut back, course, lost) {
        Some(addr) => {
            hand_over_back_first(heap, c, vs, back, addr, n, zero);
            BehindNoSpan::Placed { addr }
        }
        None => BehindNoSpan::ForVs { vs, back },
    }
}

/// As [`crate::go_on`], with the lock of the variable-size layer held before, of which `vs` is the state.
pub fn go_on_with_vs(
    heap: &Heap<State>,
    c: &mut Caller<State>,
    vs: Vs,
    bucket: u8,
    n: u64,
    zero: bool,
    lost: u32,
    draw: Draw,
) -> BehindNoSpan
    requires table { (c.old.table ≡ heap.now.table) × (c.old.opening ≡ heap.now.opening) }
    requires bucket { bucket_of n ≡ Some bucket }
    requires spent { (first : Token) × IsSpentUnderVs first c.old n zero bucket draw.value lost vs }
    ensures gone { (first : Token) → IsSpentUnderVs first c.old n zero bucket draw.value lost vs → GoneOnWithVs first c.new bucket draw.value lost n zero result }
    ensures goes { (rest : List Act) × GoesOn c.old c.new rest }
{
    let course = Course::new(bucket, draw);
    match try_with_vs(heap, c, vs, &course, lost, n, zero) {
        WithBack::Busy(busy) => BehindNoSpan::Busy(busy),
        WithBack::Placed { addr } => BehindNoSpan::Placed { addr },
        WithBack::NoRoom { vs, back, lost } => search_with_both(
            heap, c, vs, back, &course, lost, n, zero,
        ),
    }
}
