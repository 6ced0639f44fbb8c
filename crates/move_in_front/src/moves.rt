//! A block of the front end, in hand, that moves to another one, or to one of the variable-size layer where the front end has none.
ghost use Rattle.std.specs.Prelude.{◌≡◌, ◌≤◌, ℕ, List, Some, true, IfSome, IfNone};
ghost use Rattle.heap_model.specs.declared.Call.{Call as ACall};
ghost use Rattle.heap_model.specs.declared.Flags.{Flags as AFlags};
ghost use Rattle.heap_model.specs.declared.What.TheVariants as whats;
ghost use Rattle.heap_model.specs.Buckets.{bucket_of};
ghost use Rattle.heap_model.specs.State.{Place};
ghost use Rattle.heap_gate.specs.Token.{is_out};
ghost use Rattle.lfh_buckets.specs.Blocks.{IsBucket};
ghost use Rattle.backend_fit.specs.Kept.{Kept};
ghost use Rattle.vs_layer.specs.Kept.{VsKept};
ghost use Rattle.claim_rule.specs.Entries.{have_slots};
ghost use Rattle.lfh_search.specs.Under.{CannotBeServed};
ghost use Rattle.move_parts.specs.Moves.{TellsVs, TellsBack};
ghost use Rattle.move_parts.specs.Places.{IsWithout};
ghost use Rattle.move_taken.specs.Holds.{HoldsTaken, taken_place};
ghost use Rattle.move_taken.specs.Moved.{HasMovedTakenLow};
ghost use Rattle.move_to_front.specs.Moved.{TellsLow};
ghost use Rattle.move_in_front.specs.Taken.{HasTaken, MovesInFront};
ghost use Rattle.move_in_front.specs.Halfway.{HoldsBeside, HoldsTwo, HasSwappedTaken};

use backend_fit::Back;
use call_parts::State;
use heap_gate::{Caller, Heap, rest};
use lfh_claims::{Tag, clear, publish};
use move_front::{Front, hold_front};
use move_parts::move_words;
use move_taken::end_taken;
use move_to_front::hold_behind;
use stay_calls::hear;
use vs_layer::Vs;

/// What comes of a move within the front end.
#[derive(Clone, Copy, Debug, PartialEq, Eq)]
pub enum InFront {
    /// The block is at this address now: one of the front end, or of the variable-size layer where the front end has none.
    Moved { addr: u64 },
    /// The bucket is neither active nor due: the variable-size layer serves the size. Nothing has changed.
    Idle,
    /// Neither has room for the size. The old block is in hand as it was.
    NoFit,
}

/// Has a new block of the front end in hand beside the one that moves.
fn hold_beside(
    heap: &Heap<State>,
    c: &mut Caller<State>,
    vs: &mut Vs,
    back: &mut Back,
    _tag: Tag,
    n: u64,
    bucket: u8,
) -> Front
    requires size { n ≤ 16368 }
    requires bucket { bucket_of n ≡ Some bucket }
    requires table { (c.old.table ≡ heap.now.table) × (c.old.opening ≡ heap.now.opening) }
    requires taken { (addr size : ℕ) × (flags : AFlags) × (out : List ℕ) × HasTaken c.old _tag addr size n flags out × (is_out whats.Vs out ≡ true) × TellsVs c.old vs.old × (is_out whats.Back out ≡ true) × TellsBack c.old back.old }
    ensures { (addr size : ℕ) (flags : AFlags) (out : List ℕ) → HasTaken c.old _tag addr size n flags out → is_out whats.Vs out ≡ true → TellsVs c.old vs.old → is_out whats.Back out ≡ true → TellsBack c.old back.old → HoldsBeside c.old c.new flags _tag addr size n (taken_place _tag.bucket addr c.old.number) out vs.old vs.new back.old back.new bucket result }
{
    let _limits = heap.limits();
    c.check();
    match hold_front(heap, c, vs, back, bucket) {
        Front::Held { addr } => {
            c.check();
            hear(heap, c);
            c.check();
            Front::Held { addr }
        }
        Front::NoRoom => {
            c.check();
            hear(heap, c);
            c.check();
            Front::NoRoom
        }
        Front::Idle => Front::Idle,
    }
}

/// Moves the words to the new block in hand, gives it, and drops the old one.
fn swap_taken(
    heap: &Heap<State>,
    c: &mut Caller<State>,
    tag: Tag,
    addr: u64,
    size: u64,
    b: u64,
    n: u64,
    zero: bool,
)
    requires table { (c.old.table ≡ heap.now.table) × (c.old.opening ≡ heap.now.opening) }
    requires bucket { IsBucket tag.bucket }
    requires two { (call : ACall) × (p q : Place) × (out : List ℕ) × HoldsTwo c.old call tag addr size p b n q out }
    ensures swapped { (call : ACall) (p q : Place) (out : List ℕ) → HoldsTwo c.old call tag addr size p b n q out → HasSwappedTaken c.old c.new addr size b n zero }
    ensures tells { (call : ACall) (p q : Place) (out : List ℕ) (vs : VsKept) (back : Kept) → HoldsTwo c.old call tag addr size p b n q out → is_out whats.Vs out ≡ true → is_out whats.Back out ≡ true → TellsLow c.old vs back → TellsLow c.new vs back }
{
    c.check();
    move_words(heap, c, addr, size, b, n, zero);
    c.check();
    publish(heap, c, b, n);
    c.check();
    clear(heap, c, tag, addr);
    c.check();
    rest(c);
}

/// Moves the block to a new place of the variable-size layer, where the front end could not serve its bucket. Where no range is there for
/// it, nothing changes.
fn late_taken(
    heap: &Heap<State>,
    c: &mut Caller<State>,
    vs: &mut Vs,
    back: &mut Back,
    tag: Tag,
    addr: u64,
    size: u64,
    n: u64,
    bucket: u8,
    zero: bool,
) -> Option<u64>
    requires bucket { bucket_of n ≡ Some bucket }
    requires table { (c.old.table ≡ heap.now.table) × (c.old.opening ≡ heap.now.opening) }
    requires slots { have_slots c.old.opening.limits.slots c.old.roll ≡ true }
    requires moving { (flags : AFlags) × (out : List ℕ) × HoldsTaken c.old tag addr size n flags out × (is_out whats.Vs out ≡ true) × TellsVs c.old vs.old × (is_out whats.Back out ≡ true) × TellsBack c.old back.old }
    requires cannot { CannotBeServed c.old bucket }
    ensures moved { IfSome result (λ b. (flags : AFlags) (out : List ℕ) → flags.zero ≡ zero → HoldsTaken c.old tag addr size n flags out → is_out whats.Vs out ≡ true → TellsVs c.old vs.old → is_out whats.Back out ≡ true → TellsBack c.old back.old → HasMovedTakenLow c.old c.new tag addr size n flags b vs.new back.new) }
    ensures none { IfNone result (IsWithout c.old c.new n × (vs.new ≡ vs.old) × (back.new ≡ back.old)) }
{
    let _limits = heap.limits();
    c.check();
    let Some(b) = hold_behind(heap, c, vs, back, n, bucket) else {
        return None;
    };
    c.check();
    move_words(heap, c, addr, size, b, n, zero);
    c.check();
    end_taken(heap, c, tag, addr, b, n);
    Some(b)
}

/// Moves a block of the front end that its caller has taken to a new one of a bucket of the front end, and zeroes the words that it
/// gains where `zero` is asked. Where the front end has no block for it, and no room for a subsegment, it goes to a new place of the
/// variable-size layer. Both locks are held still.
pub fn move_taken_to_front(
    heap: &Heap<State>,
    c: &mut Caller<State>,
    vs: &mut Vs,
    back: &mut Back,
    tag: Tag,
    addr: u64,
    size: u64,
    n: u64,
    bucket: u8,
    zero: bool,
) -> InFront
    requires size { n ≤ 16368 }
    requires bucket { bucket_of n ≡ Some bucket }
    requires table { (c.old.table ≡ heap.now.table) × (c.old.opening ≡ heap.now.opening) }
    requires taken { (flags : AFlags) × (out : List ℕ) × HasTaken c.old tag addr size n flags out × (is_out whats.Vs out ≡ true) × TellsVs c.old vs.old × (is_out whats.Back out ≡ true) × TellsBack c.old back.old }
    ensures { (flags : AFlags) (out : List ℕ) → flags.zero ≡ zero → HasTaken c.old tag addr size n flags out → is_out whats.Vs out ≡ true → TellsVs c.old vs.old → is_out whats.Back out ≡ true → TellsBack c.old back.old → MovesInFront c.old c.new tag addr size n flags out vs.old vs.new back.old back.new result }
{
    match hold_beside(heap, c, vs, back, tag, n, bucket) {
        Front::Held { addr: b } => {
            swap_taken(heap, c, tag, addr, size, b, n, zero);
            InFront::Moved { addr: b }
        }
        Front::NoRoom => {
            match late_taken(heap, c, vs, back, tag, addr, size, n, bucket, zero) {
                Some(b) => InFront::Moved { addr: b },
                None => InFront::NoFit,
            }
        }
        Front::Idle => InFront::Idle,
    }
}
