//! The words of one subsegment, and the claims of blocks that they show free.
ghost use Rattle.std.specs.Prelude.{◌≡◌, ◌+◌, ◌*◌, ◌<◌, ℕ, true};
ghost use Rattle.heap_model.specs.CallState.{Search};
ghost use Rattle.lfh_claims.specs.Search.{own_slot};
ghost use Rattle.lfh_search.specs.Courses.{IsCourse};
ghost use Rattle.lfh_search.specs.Readings.{AtWord, WordRead, CanRead, SubsegmentRead};

use crate::course::{Course, behind};
use heap_gate::{Caller, Heap};
use heap_model::{Stands, WORD_BITS};
use lfh_claims::{claim, see};
use random_pick::pick;

/// How many lost claims end the search of a call.
pub const LOSSES: u32 = 8;

/// What a reading comes to.
#[derive(Clone, Copy, Debug, PartialEq, Eq)]
pub enum Reading {
    /// The block of this number is in hand.
    Claimed { index: u16 },
    /// No block is free; so many claims of the call were lost.
    Dry { lost: u32 },
    /// The eighth claim was lost.
    Beaten,
}

/// Reads a word of a subsegment until it shows no free block, a block is claimed, or the eighth claim is lost.
pub fn read_word<T: Stands>(
    heap: &Heap<T>,
    c: &mut Caller<T>,
    course: &Course,
    head: u32,
    word: u32,
    lost: u32,
) -> Reading
    requires table { (c.old.table ≡ heap.now.table) × (c.old.opening ≡ heap.now.opening) }
    requires whole { c.old.whole ≡ true }
    requires inside { c.old.inside ≡ true }
    requires there { (head < 256 * c.old.opening.limits.segments) × (word < 4) }
    requires slot { own_slot c.old < 16 }
    requires course { IsCourse course.now }
    requires at { (f : Search) × (k : ℕ) × AtWord c.old course.now f head word k lost }
    ensures { (f : Search) (k : ℕ) → AtWord c.old course.now f head word k lost → WordRead c.old c.new course.now f head k lost result }
{
    let mut so_far = lost;
    while so_far < LOSSES {
        let bits = see(heap, c, head, word);
        let Some(bit) = pick(bits, course.valid(word), course.bit) else {
            return Reading::Dry { lost: so_far };
        };
        let index = (WORD_BITS * word + u32::from(bit)) as u16;
        if claim(heap, c, head, index) {
            return Reading::Claimed { index };
        }
        so_far += 1;
    }
    Reading::Beaten
}

/// Reads the words of a subsegment that are in use, from the course's first word on, until a block is claimed or the eighth claim is
/// lost. So many claims of the call were lost before.
#[inline(always)]
pub fn read_subsegment<T: Stands>(
    heap: &Heap<T>,
    c: &mut Caller<T>,
    course: &Course,
    head: u32,
    lost: u32,
) -> Reading
    requires table { (c.old.table ≡ heap.now.table) × (c.old.opening ≡ heap.now.opening) }
    requires whole { c.old.whole ≡ true }
    requires inside { c.old.inside ≡ true }
    requires there { head < 256 * c.old.opening.limits.segments }
    requires slot { own_slot c.old < 16 }
    requires course { IsCourse course.now }
    requires can { (f : Search) × CanRead c.old course.now f head lost }
    ensures { (f : Search) → CanRead c.old course.now f head lost → SubsegmentRead c.old c.new course.now f head lost result }
{
    let mut so_far = lost;
    let mut word = course.first;
    for dry in 0..course.words {
        match read_word(heap, c, course, head, word, so_far) {
            Reading::Dry { lost: more } => so_far = more,
            found => return found,
        }
        word = behind(word, course.words);
    }
    Reading::Dry { lost: so_far }
}
