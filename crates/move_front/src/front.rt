//! A block of the front end that is placed under both locks, and not given yet.
ghost use Rattle.std.specs.Prelude.{◌≡◌, [], true, IfSome, IfNone};
ghost use Rattle.lfh_buckets.specs.Blocks.{IsBucket};
ghost use Rattle.heap_gate.specs.Token.{Always, now};
ghost use Rattle.lfh_spans.specs.Subsegments.{IsBackOf};
ghost use Rattle.move_front.specs.Front.{IsToPlace, TellsVs, HoldsFront, SearchesTo, SearchesInVain};

use crate::active::{activate, check_slot};
use backend_fit::Back;
use call_parts::State;
use heap_gate::{Caller, Heap};
use lfh_search::{Course, search_under_both};
use vs_layer::Vs;

/// Where the front end has a block for a size.
#[derive(Clone, Copy, Debug, PartialEq, Eq)]
pub enum Front {
    /// The block at this address is in hand.
    Held { addr: u64 },
    /// The bucket is neither active nor due: the variable-size layer serves the size.
    Idle,
    /// No block is free, and the back end has no room for a subsegment: the variable-size layer serves the size.
    NoRoom,
}

/// Places a block of a bucket in the front end, for a call that holds the locks of the variable-size layer and of the back end, and
/// has to place one: a bucket that is due becomes active, and an active one is searched. The block is in hand then, and its size is
/// not stored yet; what the caller had in hand before stays there. No lock is given.
pub fn hold_front(
    heap: &Heap<State>,
    c: &mut Caller<State>,
    vs: &mut Vs,
    back: &mut Back,
    bucket: u8,
) -> Front
    requires table { (c.old.table ≡ heap.now.table) × (c.old.opening ≡ heap.now.opening) }
    requires bucket { IsBucket bucket }
    requires to_place { IsToPlace c.old bucket }
    requires vs { TellsVs c.old vs.old }
    requires back { IsBackOf c.old back.old }
    ensures { HoldsFront c.old c.new vs.old vs.new back.old back.new bucket result }
{
    if !activate(heap, c, vs, bucket) {
        return Front::Idle;
    }
    c.check();
    match search_active(heap, c, back, bucket) {
        Some(addr) => Front::Held { addr },
        None => Front::NoRoom,
    }
}

/// Searches an active bucket by the draw of the call.
fn search_active(
    heap: &Heap<State>,
    c: &mut Caller<State>,
    back: &mut Back,
    bucket: u8,
) -> Option<u64>
    requires table { (c.old.table ≡ heap.now.table) × (c.old.opening ≡ heap.now.opening) }
    requires bucket { IsBucket bucket }
    requires to_place { IsToPlace c.old bucket }
    requires active { Always c.old (λ s. (now s c.old).state.vs.active bucket ≡ true) }
    requires back { IsBackOf c.old back.old }
    ensures found { IfSome result (SearchesTo c.old c.new back.old back.new bucket) }
    ensures none { IfNone result (SearchesInVain c.old c.new back.old back.new bucket) }
{
    let _limits = heap.limits();
    c.check();
    check_slot(c);
    let draw = c.draw();
    let course = Course::new(bucket, draw);
    search_under_both(heap, c, back, &course)
}
