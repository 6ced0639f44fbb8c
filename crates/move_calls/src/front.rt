//! A block of the front end that was taken, as it has to move.
ghost use Rattle.std.specs.Prelude.{◌≡◌, ◌≤◌, ◌∷◌, ℕ, [], false};
ghost use Rattle.heap_model.specs.declared.Call.TheVariants as calls;
ghost use Rattle.heap_model.specs.declared.What.TheVariants as whats;
ghost use Rattle.claim_rule.specs.Places.{vs_slot, back_slot, large_slot};
ghost use Rattle.heap_gate.specs.Token.{Token};
ghost use Rattle.call_parts.specs.Calls.{IsServing};
ghost use Rattle.stay_calls.specs.Stays.{IsTakenToMove};
ghost use Rattle.move_parts.specs.Moves.{TellsVs, TellsBack, TellsLarge};
ghost use Rattle.move_calls.specs.Carries.{IsCarrying};
ghost use Rattle.move_calls.specs.Moves.{Moves};

use crate::brings::{bring_far, bring_low, end_brought};
use crate::carries::{back_too, end_met, end_met_under, large_too, listen_too, vs_too};
use crate::held::Held;
use backend_fit::Back;
use call_parts::State;
use heap_gate::{Caller, Heap};
use heap_model::{Flags, MOST_PAGED, ReNo};
use large_blocks::Large;
use lfh_claims::Tag;
use move_in_front::laws::taken_has;
use vs_layer::Vs;

/// Moves the block to another one of the front end, to the variable-size layer or to the back end.
fn move_low(
    heap: &Heap<State>,
    c: &mut Caller<State>,
    mut vs: Vs,
    mut back: Back,
    tag: Tag,
    addr: u64,
    size: u64,
    n: u64,
    flags: Flags,
) -> Result<u64, ReNo>
    requires size { n ≤ 520192 }
    requires table { (c.old.table ≡ heap.now.table) × (c.old.opening ≡ heap.now.opening) }
    requires carrying { (first : Token) × IsCarrying first c.old tag addr size n flags (back_slot ∷ vs_slot ∷ []) × TellsVs c.old vs × TellsBack c.old back }
    ensures { (first : Token) → IsCarrying first c.old tag addr size n flags (back_slot ∷ vs_slot ∷ []) → Moves first c.new addr n flags result }
{
    listen_too(heap, c);
    let brought = bring_low(heap, c, &mut vs, &mut back, tag, addr, size, n, flags);
    end_brought(heap, c, Held::Low(vs, back), brought)
}

/// Moves the block to the large area.
fn move_far(
    heap: &Heap<State>,
    c: &mut Caller<State>,
    mut large: Large,
    tag: Tag,
    addr: u64,
    size: u64,
    n: u64,
    flags: Flags,
) -> Result<u64, ReNo>
    requires size { 520193 ≤ n }
    requires table { (c.old.table ≡ heap.now.table) × (c.old.opening ≡ heap.now.opening) }
    requires carrying { (first : Token) × IsCarrying first c.old tag addr size n flags (large_slot ∷ []) × TellsLarge c.old large }
    ensures { (first : Token) → IsCarrying first c.old tag addr size n flags (large_slot ∷ []) → Moves first c.new addr n flags result }
{
    listen_too(heap, c);
    let brought = bring_far(heap, c, &mut large, tag, addr, size, n, flags);
    end_brought(heap, c, Held::Large(large), brought)
}

/// Goes on under the lock of the variable-size layer, to take that of the back end.
fn move_under_vs(
    heap: &Heap<State>,
    c: &mut Caller<State>,
    vs: Vs,
    tag: Tag,
    addr: u64,
    size: u64,
    n: u64,
    flags: Flags,
) -> Result<u64, ReNo>
    requires size { n ≤ 520192 }
    requires table { (c.old.table ≡ heap.now.table) × (c.old.opening ≡ heap.now.opening) }
    requires carrying { (first : Token) × IsCarrying first c.old tag addr size n flags (vs_slot ∷ []) × TellsVs c.old vs }
    ensures { (first : Token) → IsCarrying first c.old tag addr size n flags (vs_slot ∷ []) → Moves first c.new addr n flags result }
{
    match back_too(heap, c) {
        Ok(back) => move_low(heap, c, vs, back, tag, addr, size, n, flags),
        Err(busy) => {
            end_met_under(heap, c, vs, addr, size, busy);
            Err(ReNo::Busy(busy))
        }
    }
}

/// Takes the lock of the large area, and moves the block there.
fn move_to_large(
    heap: &Heap<State>,
    c: &mut Caller<State>,
    tag: Tag,
    addr: u64,
    size: u64,
    n: u64,
    flags: Flags,
) -> Result<u64, ReNo>
    requires size { 520193 ≤ n }
    requires table { (c.old.table ≡ heap.now.table) × (c.old.opening ≡ heap.now.opening) }
    requires carrying { (first : Token) × IsCarrying first c.old tag addr size n flags [] }
    ensures { (first : Token) → IsCarrying first c.old tag addr size n flags [] → Moves first c.new addr n flags result }
{
    match large_too(heap, c) {
        Ok(large) => move_far(heap, c, large, tag, addr, size, n, flags),
        Err(busy) => {
            end_met(heap, c, addr, size, busy);
            Err(ReNo::Busy(busy))
        }
    }
}

/// Takes the locks that the size asks, and moves the block.
fn move_carried(
    heap: &Heap<State>,
    c: &mut Caller<State>,
    tag: Tag,
    addr: u64,
    size: u64,
    n: u64,
    flags: Flags,
) -> Result<u64, ReNo>
    requires table { (c.old.table ≡ heap.now.table) × (c.old.opening ≡ heap.now.opening) }
    requires carrying { (first : Token) × IsCarrying first c.old tag addr size n flags [] }
    ensures { (first : Token) → IsCarrying first c.old tag addr size n flags [] → Moves first c.new addr n flags result }
{
    if n > MOST_PAGED {
        return move_to_large(heap, c, tag, addr, size, n, flags);
    }
    match vs_too(heap, c) {
        Ok(vs) => move_under_vs(heap, c, vs, tag, addr, size, n, flags),
        Err(busy) => {
            end_met(heap, c, addr, size, busy);
            Err(ReNo::Busy(busy))
        }
    }
}

/// Moves the block, which is in hand. Where a lock is busy, or no range is there, it is live again with its size.
pub(crate) fn move_from_front(
    heap: &Heap<State>,
    c: &mut Caller<State>,
    tag: Tag,
    addr: u64,
    size: u64,
    n: u64,
    flags: Flags,
) -> Result<u64, ReNo>
    requires table { (c.old.table ≡ heap.now.table) × (c.old.opening ≡ heap.now.opening) }
    requires may { flags.in_place ≡ false }
    requires taken { (first : Token) × IsServing first (calls.Realloc addr n flags) [] × IsTakenToMove first c.old addr tag size n }
    ensures { (first : Token) → IsServing first (calls.Realloc addr n flags) [] → IsTakenToMove first c.old addr tag size n → Moves first c.new addr n flags result }
{
    taken_has();
    c.check();
    move_carried(heap, c, tag, addr, size, n, flags)
}
