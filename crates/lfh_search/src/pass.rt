//! A pass over all subsegments of a bucket and a slot, under the back end's lock.
ghost use Rattle.std.specs.Prelude.{◌≡◌, ◌+◌, ◌<◌, true};
ghost use Rattle.heap_model.specs.CallState.{Search};
ghost use Rattle.lfh_claims.specs.Search.{own_slot};
ghost use Rattle.lfh_search.specs.Courses.{IsCourse};
ghost use Rattle.lfh_search.specs.Descriptors.{head_mark};
ghost use Rattle.lfh_search.specs.Passes.{IsPassing, PassRead};

use crate::course::Course;
use crate::reading::{Reading, read_subsegment};
use backend_fit::Back;
use heap_gate::{Caller, Heap};
use heap_model::Stands;
use lane_scan::next_match;

/// The bits of a descriptor word that tell the kind, the first page of a run, the bucket and the slot.
const HEAD_MASK: u64 = 0xff_ff00_000f;

/// What a pass comes to.
#[derive(Clone, Copy, Debug, PartialEq, Eq)]
pub enum Pass {
    /// This block of the subsegment at this page is in hand.
    Claimed { head: u32, index: u16 },
    /// No block is free; so many claims of the call were lost.
    Dry { lost: u32 },
    /// The eighth claim was lost.
    Beaten,
}

/// The descriptor word of the first page of a subsegment, under the mask.
fn mark_of(bucket: u8, slot: u32) -> u64
    requires { slot < 16 }
    ensures { result ≡ head_mark bucket slot }
{
    11 + (u64::from(bucket) << 24) + (u64::from(slot) << 32)
}

/// Reads the subsegments of a bucket and the caller's slot in the order of their pages, each from the course's first word on, until
/// a block is claimed or the eighth claim is lost. So many claims of the call were lost before. The caller holds the back end's lock,
/// and `back` is its state; behind a claim it owes the hint.
pub fn read_all<T: Stands>(
    heap: &Heap<T>,
    c: &mut Caller<T>,
    back: &Back,
    course: &Course,
    lost: u32,
) -> Pass
    requires table { (c.old.table ≡ heap.now.table) × (c.old.opening ≡ heap.now.opening) }
    requires whole { c.old.whole ≡ true }
    requires inside { c.old.inside ≡ true }
    requires slot { own_slot c.old < 16 }
    requires course { IsCourse course.now }
    requires passing { (f : Search) × IsPassing c.old back.now course.now f 0 lost }
    ensures { (f : Search) → IsPassing c.old back.now course.now f 0 lost → PassRead c.old c.new back.now course.now lost result }
{
    let words = back.descs().words();
    let mark = mark_of(course.bucket, c.slot());
    let mut so_far = lost;
    let mut from = 0;
    while let Some(page) = next_match(words, HEAD_MASK, mark, from) {
        let head = page as u32;
        match read_subsegment(heap, c, course, head, so_far) {
            Reading::Dry { lost: more } => so_far = more,
            Reading::Claimed { index } => return Pass::Claimed { head, index },
            Reading::Beaten => return Pass::Beaten,
        }
        from = page + 1;
    }
    Pass::Dry { lost: so_far }
}
