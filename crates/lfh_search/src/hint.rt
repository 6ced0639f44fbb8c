//! The first pass of a search, without a lock.
ghost use Rattle.std.specs.Prelude.{◌≡◌, ◌<◌, [], true, false};
ghost use Rattle.heap_model.specs.declared.What.TheVariants as whats;
ghost use Rattle.heap_model.specs.CallState.{not_begun};
ghost use Rattle.lfh_buckets.specs.Blocks.{IsBucket};
ghost use Rattle.heap_gate.specs.Token.{is_out};
ghost use Rattle.lfh_claims.specs.Search.{own_slot};
ghost use Rattle.lfh_search.specs.Readings.{HasHint};
ghost use Rattle.lfh_search.specs.Results.{Searches, WaitsInside};
ghost use Rattle.lfh_search.specs.Hints.{HintSearched, IsOfHint};

use crate::course::Course;
use crate::reading::{LOSSES, Reading, read_subsegment};
use heap_gate::{Caller, Heap};
use heap_model::Stands;
use lfh_buckets::block_at;
use lfh_spans::{hint_of, hint_under_back};
use random_pick::Draw;

/// A block of a subsegment, in hand.
#[derive(Clone, Copy, Debug, PartialEq, Eq)]
pub struct Found {
    /// The first page of the subsegment.
    pub head: u32,
    /// The number of the block in it.
    pub index: u16,
    pub addr: u64,
}

/// What the first pass of a search comes to.
#[derive(Clone, Copy, Debug, PartialEq, Eq)]
pub enum First {
    /// A block is in hand.
    Claimed(Found),
    /// The hint names no subsegment with a free block, or the eighth claim was lost. So many claims were lost.
    Spent { lost: u32 },
}

/// Reads the hint, and then the words of the subsegment that it names. A caller that holds the back end's lock has read the hint word
/// before, and owes no word.
#[inline(always)]
fn pass_from_hint<T: Stands>(heap: &Heap<T>, c: &mut Caller<T>, bucket: u8, draw: Draw) -> First
    requires table { (c.old.table ≡ heap.now.table) × (c.old.opening ≡ heap.now.opening) }
    requires whole { c.old.whole ≡ true }
    requires inside { c.old.inside ≡ true }
    requires waits { WaitsInside c.old }
    requires bucket { IsBucket bucket }
    requires slot { own_slot c.old < 16 }
    requires paid { is_out whats.Back c.old.out ≡ true → c.old.owes ≡ [] }
    requires hint { HasHint c.old }
    requires searches { Searches c.old bucket draw.value not_begun }
    ensures searched { HintSearched c.old c.new bucket draw.value result }
    ensures there { is_out whats.Back c.old.out ≡ true → IsOfHint c.old c.new bucket result }
{
    c.check();
    let _limits = heap.limits();
    let Some(head) = hint_of(heap, c, bucket) else {
        return First::Spent { lost: 0 };
    };
    match read_subsegment(heap, c, &Course::new(bucket, draw), head, 0) {
        Reading::Claimed { index } => First::Claimed(Found {
            head,
            index,
            addr: block_at(bucket, head, index),
        }),
        Reading::Dry { lost } => First::Spent { lost },
        Reading::Beaten => First::Spent { lost: LOSSES },
    }
}

/// Begins the search of a call: reads the hint of a bucket and the caller's slot, and then the words of the subsegment that it
/// names, and claims the block that the draw picks. It takes no lock.
///
/// A search that is spent has found the hint empty, has read every word in use of that subsegment without a free block, or has lost
/// eight claims: then it may go on under the back end's lock.
#[inline(always)]
pub fn search_hint<T: Stands>(heap: &Heap<T>, c: &mut Caller<T>, bucket: u8, draw: Draw) -> First
    requires table { (c.old.table ≡ heap.now.table) × (c.old.opening ≡ heap.now.opening) }
    requires whole { c.old.whole ≡ true }
    requires inside { c.old.inside ≡ true }
    requires waits { WaitsInside c.old }
    requires bucket { IsBucket bucket }
    requires slot { own_slot c.old < 16 }
    requires free { is_out whats.Back c.old.out ≡ false }
    requires searches { Searches c.old bucket draw.value not_begun }
    ensures { HintSearched c.old c.new bucket draw.value result }
{
    pass_from_hint(heap, c, bucket, draw)
}

/// As [`search_hint`], for the holder of the back end's lock, which owes no word: behind a claim it owes the hint.
pub fn search_hint_under_back<T: Stands>(
    heap: &Heap<T>,
    c: &mut Caller<T>,
    bucket: u8,
    draw: Draw,
) -> First
    requires table { (c.old.table ≡ heap.now.table) × (c.old.opening ≡ heap.now.opening) }
    requires whole { c.old.whole ≡ true }
    requires inside { c.old.inside ≡ true }
    requires bucket { IsBucket bucket }
    requires slot { own_slot c.old < 16 }
    requires back { is_out whats.Back c.old.out ≡ true }
    requires paid { c.old.owes ≡ [] }
    requires searches { Searches c.old bucket draw.value not_begun }
    ensures searched { HintSearched c.old c.new bucket draw.value result }
    ensures there { IsOfHint c.old c.new bucket result }
{
    c.check();
    let _word = hint_under_back(heap, c, bucket);
    pass_from_hint(heap, c, bucket, draw)
}
