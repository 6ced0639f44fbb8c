//! An allocation for which the front end has no block, and the back end no room for a subsegment.
ghost use Rattle.std.specs.Prelude.{◌≡◌, ℕ, Some, []};
ghost use Rattle.heap_model.specs.Buckets.{bucket_of};
ghost use Rattle.heap_gate.specs.Token.{Token};
ghost use Rattle.lfh_search.specs.Courses.{IsCourse};
ghost use Rattle.small_calls.specs.GoingOn.{IsWithoutRoom, SearchesWithVs, GoneOn};
ghost use Rattle.small_calls.specs.Ways.{IsSpent};
ghost use Rattle.small_calls.specs.Late.{GoesLate};

use crate::spent::{BehindSpent, try_under_back};
use crate::under_back::hand_over_vs_first;
use backend_fit::Back;
use call_parts::{State, give_back, take_vs};
use heap_gate::{Caller, Heap};
use heap_model::Busy;
use lfh_search::{Course, search_again};
use random_pick::Draw;
use vs_layer::Vs;

/// What the search comes to behind NoSpan.
#[derive(Drop)]
pub enum BehindNoSpan {
    /// Another caller has the lock of the variable-size layer. That of the back end is given.
    Busy(Busy),
    /// The block at this address is given, and so are both locks.
    Placed { addr: u64 },
    /// The front end cannot serve the size, and the variable-size layer does. Both locks are held, that of the layer taken last.
    ForVs { vs: Vs, back: Back },
}

/// Goes on with an allocation of `n` bytes, whose NoSpan is prepared: takes the lock of the variable-size layer too, searches again, and
/// gives the block that it finds, zeroed if that is asked, and then both locks. So many claims of the call were lost before.
pub fn search_with_vs(
    heap: &Heap<State>,
    c: &mut Caller<State>,
    mut back: Back,
    course: &Course,
    lost: u32,
    n: u64,
    zero: bool,
) -> BehindNoSpan
    requires table { (c.old.table ≡ heap.now.table) × (c.old.opening ≡ heap.now.opening) }
    requires course { IsCourse course.now }
    requires bucket { bucket_of n ≡ Some course.now.bucket }
    requires no_room { (first : Token) × (before : ℕ) × IsWithoutRoom first c.old back course.now before lost n zero [] }
    ensures { (first : Token) (before : ℕ) → IsWithoutRoom first c.old back course.now before lost n zero [] → SearchesWithVs c.old c.new course.now.bucket n zero result }
{
    let _limits = heap.limits();
    c.check();
    let vs = match take_vs(heap, c) {
        Ok(vs) => vs,
        Err(busy) => {
            give_back(heap, c, back);
            return BehindNoSpan::Busy(busy);
        }
    };
    c.check();
    match search_again(heap, c, &mut back, course, lost) {
        Some(addr) => {
            hand_over_vs_first(heap, c, vs, back, addr, n, zero);
            BehindNoSpan::Placed { addr }
        }
        None => BehindNoSpan::ForVs { vs, back },
    }
}

/// Goes on with an allocation of `n` bytes whose first pass of the front end is spent, by its draw; so many claims of it were lost. It
/// holds no lock. It searches under the lock of the back end, and where no block is free and no range has the pages of a subsegment
/// once more with the lock of the variable-size layer too.
pub fn go_on(
    heap: &Heap<State>,
    c: &mut Caller<State>,
    bucket: u8,
    n: u64,
    zero: bool,
    lost: u32,
    draw: Draw,
) -> BehindNoSpan
    requires table { (c.old.table ≡ heap.now.table) × (c.old.opening ≡ heap.now.opening) }
    requires bucket { bucket_of n ≡ Some bucket }
    requires spent { (first : Token) × IsSpent first c.old n zero bucket draw.value lost }
    ensures gone { (first : Token) → IsSpent first c.old n zero bucket draw.value lost → GoneOn first c.new bucket draw.value lost n zero result }
    ensures late { GoesLate c.old c.new bucket }
{
    let course = Course::new(bucket, draw);
    match try_under_back(heap, c, &course, lost, n, zero) {
        BehindSpent::Busy(busy) => BehindNoSpan::Busy(busy),
        BehindSpent::Placed { addr } => BehindNoSpan::Placed { addr },
        BehindSpent::NoRoom { back, lost } => search_with_vs(heap, c, back, &course, lost, n, zero),
    }
}
