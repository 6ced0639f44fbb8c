//! The search of an allocation under the lock of the back end.
ghost use Rattle.std.specs.Prelude.{◌≡◌, ℕ, List, Some};
ghost use Rattle.heap_model.specs.declared.Call.TheVariants as calls;
ghost use Rattle.heap_model.specs.Buckets.{bucket_of};
ghost use Rattle.lfh_search.specs.Courses.{IsCourse};
ghost use Rattle.small_calls.specs.Under.{SearchesOn, ServesUnderBack};

use crate::under_back::hand_over_under_back;
use backend_fit::Back;
use call_parts::State;
use heap_gate::{Caller, Heap};
use lfh_search::{Course, Under, search_under_back};

/// What the search comes to.
#[derive(Drop)]
pub enum UnderBack {
    /// The block at this address is given, and so is the lock.
    Placed { addr: u64 },
    /// No block is free, and the back end has no room for a subsegment: NoSpan is prepared, and the lock is held still. So many claims
    /// of the call were lost.
    NoRoom { back: Back, lost: u32 },
}

/// Goes on with the search of an allocation of `n` bytes under the lock of the back end, which was taken last, gives the block that it
/// finds, or the first of a subsegment that it makes, zeroed if that is asked, and gives the lock back.
pub fn serve_under_back(
    heap: &Heap<State>,
    c: &mut Caller<State>,
    mut back: Back,
    course: &Course,
    lost: u32,
    n: u64,
    zero: bool,
) -> UnderBack
    requires table { (c.old.table ≡ heap.now.table) × (c.old.opening ≡ heap.now.opening) }
    requires course { IsCourse course.now }
    requires bucket { bucket_of n ≡ Some course.now.bucket }
    requires searches { (more : List ℕ) × SearchesOn c.old back course.now lost n zero more }
    ensures { (m : List ℕ) (x : SearchesOn c.old back course.now lost n zero m) → ServesUnderBack c.old c.new back course.now lost (calls.Alloc n x.flags) n zero m result }
{
    c.check();
    match search_under_back(heap, c, &mut back, course, lost) {
        Under::Claimed { addr } => {
            hand_over_under_back(heap, c, back, addr, n, zero);
            UnderBack::Placed { addr }
        }
        Under::NoRoom { lost } => UnderBack::NoRoom { back, lost },
    }
}
