//! A block of the front end, in hand, that is brought to its new place under the locks which that asks; where no range is there for it,
//! that is said, and it is live again.
ghost use Rattle.std.specs.Prelude.{◌≡◌, ◌≤◌, ◌∷◌, [], ℕ, List, Some, None, true};
ghost use Rattle.heap_model.specs.declared.Act.TheVariants as acts;
ghost use Rattle.heap_model.specs.declared.Flags.{Flags as AFlags};
ghost use Rattle.heap_model.specs.Buckets.{bucket_of as bucket_told};
ghost use Rattle.claim_rule.specs.Entries.{have_slots, may_prepare};
ghost use Rattle.claim_rule.specs.Places.{vs_slot, back_slot, large_slot};
ghost use Rattle.heap_gate.specs.Token.{Token, Always, now};
ghost use Rattle.lfh_claims.specs.declared.tag.Tag.{Tag as ATag};
ghost use Rattle.vs_calls.specs.Blocks.{IsForVs};
ghost use Rattle.move_parts.specs.Moves.{TellsVs, TellsBack, TellsLarge};
ghost use Rattle.move_calls.specs.Carries.{IsBringing, IsCarrying, HasBrought};
ghost use Rattle.move_calls.specs.Holds.{TellsHeld, TellsStill, slots_of};
ghost use Rattle.move_calls.specs.Moves.{Moves};

use crate::gives::give_all;
use crate::held::Held;
use backend_fit::Back;
use call_parts::State;
use heap_gate::{Caller, Heap, prepare};
use heap_model::{Act, Flags, ReNo};
use large_blocks::Large;
use lfh_buckets::bucket_of;
use lfh_claims::Tag;
use move_in_front::{InFront, move_taken_to_front};
use move_taken::laws::said_keeps;
use move_taken::{give_taken_back, move_taken_far, move_taken_low};
use vs_layer::Vs;

/// Says that no range is there for `n` bytes, and makes the block live again with its size.
fn say_none(heap: &Heap<State>, c: &mut Caller<State>, addr: u64, size: u64, n: u64)
    requires table { (c.old.table ≡ heap.now.table) × (c.old.opening ≡ heap.now.opening) }
    requires bringing { (first : Token) × (tag : ATag) × (flags : AFlags) × (out : List ℕ) × IsBringing first c.old tag addr size n flags out }
    requires may { Always c.old (λ s. may_prepare s (now s c.old) c.old.number (acts.NoFit n) ≡ true) }
    ensures brought { (first : Token) (tag : ATag) (flags : AFlags) (out : List ℕ) → IsBringing first c.old tag addr size n flags out → HasBrought first c.new addr n flags out None }
    ensures still { TellsStill c.old c.new }
{
    said_keeps();
    c.check();
    prepare(c, Act::NoFit { size: n });
    c.check();
    give_taken_back(heap, c, addr, size);
    c.check();
}

/// Brings the block to the variable-size layer or to the back end, which the front end does not serve.
fn bring_behind(
    heap: &Heap<State>,
    c: &mut Caller<State>,
    vs: &mut Vs,
    back: &mut Back,
    tag: Tag,
    addr: u64,
    size: u64,
    n: u64,
    flags: Flags,
) -> Option<u64>
    requires size { n ≤ 520192 }
    requires table { (c.old.table ≡ heap.now.table) × (c.old.opening ≡ heap.now.opening) }
    requires slots { have_slots c.old.opening.limits.slots c.old.roll ≡ true }
    requires bringing { (first : Token) × IsBringing first c.old tag addr size n flags (back_slot ∷ vs_slot ∷ []) × TellsVs c.old vs.old × TellsBack c.old back.old }
    requires bucket { n ≤ 131072 → IsForVs c.old n }
    ensures { (first : Token) → IsBringing first c.old tag addr size n flags (back_slot ∷ vs_slot ∷ []) → TellsVs c.old vs.old → TellsBack c.old back.old → HasBrought first c.new addr n flags (back_slot ∷ vs_slot ∷ []) result × TellsVs c.new vs.new × TellsBack c.new back.new }
{
    match move_taken_low(heap, c, vs, back, tag, addr, size, n, flags.zero) {
        Some(b) => Some(b),
        None => {
            say_none(heap, c, addr, size, n);
            None
        }
    }
}

/// Asks the front end first, for a size of this bucket.
fn bring_in_front(
    heap: &Heap<State>,
    c: &mut Caller<State>,
    vs: &mut Vs,
    back: &mut Back,
    tag: Tag,
    addr: u64,
    size: u64,
    n: u64,
    bucket: u8,
    flags: Flags,
) -> Option<u64>
    requires bucket { bucket_told n ≡ Some bucket }
    requires table { (c.old.table ≡ heap.now.table) × (c.old.opening ≡ heap.now.opening) }
    requires slots { have_slots c.old.opening.limits.slots c.old.roll ≡ true }
    requires carrying { (first : Token) × IsCarrying first c.old tag addr size n flags (back_slot ∷ vs_slot ∷ []) × TellsVs c.old vs.old × TellsBack c.old back.old }
    ensures { (first : Token) → IsCarrying first c.old tag addr size n flags (back_slot ∷ vs_slot ∷ []) → TellsVs c.old vs.old → TellsBack c.old back.old → HasBrought first c.new addr n flags (back_slot ∷ vs_slot ∷ []) result × TellsVs c.new vs.new × TellsBack c.new back.new }
{
    match move_taken_to_front(heap, c, vs, back, tag, addr, size, n, bucket, flags.zero) {
        InFront::Moved { addr: b } => Some(b),
        InFront::NoFit => {
            say_none(heap, c, addr, size, n);
            None
        }
        InFront::Idle => bring_behind(heap, c, vs, back, tag, addr, size, n, flags),
    }
}

/// Brings the block to a place of at most 520,192 bytes: to the front end where the bucket of the size is active or due, else to the
/// variable-size layer or to the back end. Their locks are held still.
pub(crate) fn bring_low(
    heap: &Heap<State>,
    c: &mut Caller<State>,
    vs: &mut Vs,
    back: &mut Back,
    tag: Tag,
    addr: u64,
    size: u64,
    n: u64,
    flags: Flags,
) -> Option<u64>
    requires size { n ≤ 520192 }
    requires table { (c.old.table ≡ heap.now.table) × (c.old.opening ≡ heap.now.opening) }
    requires slots { have_slots c.old.opening.limits.slots c.old.roll ≡ true }
    requires carrying { (first : Token) × IsCarrying first c.old tag addr size n flags (back_slot ∷ vs_slot ∷ []) × TellsVs c.old vs.old × TellsBack c.old back.old }
    ensures { (first : Token) → IsCarrying first c.old tag addr size n flags (back_slot ∷ vs_slot ∷ []) → TellsVs c.old vs.old → TellsBack c.old back.old → HasBrought first c.new addr n flags (back_slot ∷ vs_slot ∷ []) result × TellsVs c.new vs.new × TellsBack c.new back.new }
{
    match bucket_of(n) {
        Some(bucket) => bring_in_front(heap, c, vs, back, tag, addr, size, n, bucket, flags),
        None => bring_behind(heap, c, vs, back, tag, addr, size, n, flags),
    }
}

/// Brings the block to the large area, whose lock is held still.
pub(crate) fn bring_far(
    heap: &Heap<State>,
    c: &mut Caller<State>,
    large: &mut Large,
    tag: Tag,
    addr: u64,
    size: u64,
    n: u64,
    flags: Flags,
) -> Option<u64>
    requires size { 520193 ≤ n }
    requires table { (c.old.table ≡ heap.now.table) × (c.old.opening ≡ heap.now.opening) }
    requires slots { have_slots c.old.opening.limits.slots c.old.roll ≡ true }
    requires bringing { (first : Token) × IsBringing first c.old tag addr size n flags (large_slot ∷ []) × TellsLarge c.old large.old }
    ensures { (first : Token) → IsBringing first c.old tag addr size n flags (large_slot ∷ []) → TellsLarge c.old large.old → HasBrought first c.new addr n flags (large_slot ∷ []) result × TellsLarge c.new large.new }
{
    match move_taken_far(heap, c, large, tag, addr, size, n, flags.zero) {
        Some(b) => Some(b),
        None => {
            say_none(heap, c, addr, size, n);
            None
        }
    }
}

/// Ends the call, but for leaving, by what came of the block: all locks are given back.
pub(crate) fn end_brought(
    heap: &Heap<State>,
    c: &mut Caller<State>,
    held: Held,
    brought: Option<u64>,
) -> Result<u64, ReNo>
    requires table { c.old.table ≡ heap.now.table }
    requires brought { (first : Token) × (addr n : ℕ) × (flags : AFlags) × HasBrought first c.old addr n flags (slots_of held) brought × TellsHeld c.old held }
    ensures { (first : Token) (addr n : ℕ) (flags : AFlags) → HasBrought first c.old addr n flags (slots_of held) brought → Moves first c.new addr n flags result }
{
    give_all(heap, c, held);
    match brought {
        Some(b) => Ok(b),
        None => Err(ReNo::NoFit),
    }
}
