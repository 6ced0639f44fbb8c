//! A block of the front end that is given under the lock of the back end.
ghost use Rattle.std.specs.Prelude.{◌≡◌, ◌≤◌, ◌++◌, ℕ, List, [], ◌∷◌, false};
ghost use Rattle.heap_model.specs.declared.Act.TheVariants.{Give, GiveLock};
ghost use Rattle.heap_model.specs.declared.What.TheVariants as whats;
ghost use Rattle.heap_model.specs.Shape.{zeroing};
ghost use Rattle.claim_rule.specs.Places.{vs_slot, back_slot};
ghost use Rattle.heap_gate.specs.Token.{is_out};
ghost use Rattle.lfh_spans.specs.Subsegments.{IsBackOf};
ghost use Rattle.small_calls.specs.Fronts.{HasRoomFor};
ghost use Rattle.call_parts.specs.Entries.{HasEnded};
ghost use Rattle.small_calls.specs.Ways.{KeepsVs};
ghost use Rattle.small_calls.specs.Under.{IsGivenUnderBack};

use crate::front::hand_over_front;
use backend_fit::Back;
use call_parts::{State, give_back, give_vs};
use heap_gate::{Caller, Heap};
use vs_layer::Vs;

/// Gives the block of the front end in hand with `n` bytes, whose words are 0 then if that is asked, and then the lock of the back
/// end, which was taken last. No word is owed.
pub fn hand_over_under_back(
    heap: &Heap<State>,
    c: &mut Caller<State>,
    back: Back,
    addr: u64,
    n: u64,
    zero: bool,
)
    requires table { (c.old.table ≡ heap.now.table) × (c.old.opening ≡ heap.now.opening) }
    requires size { n ≤ 16368 }
    requires one { HasRoomFor c.old n addr }
    requires lock { (more : List ℕ) × (c.old.out ≡ back_slot ∷ more) × (is_out whats.Back more ≡ false) }
    requires paid { c.old.owes ≡ [] }
    requires back { IsBackOf c.old back }
    ensures { (more : List ℕ) → c.old.out ≡ back_slot ∷ more → IsGivenUnderBack c.old c.new addr n zero more }
{
    c.check();
    hand_over_front(heap, c, addr, n, zero);
    c.check();
    give_back(heap, c, back);
}

/// As [`hand_over_under_back`], and then gives the lock of the variable-size layer, which was taken before that of the back end.
pub fn hand_over_back_first(
    heap: &Heap<State>,
    c: &mut Caller<State>,
    vs: Vs,
    back: Back,
    addr: u64,
    n: u64,
    zero: bool,
)
    requires table { (c.old.table ≡ heap.now.table) × (c.old.opening ≡ heap.now.opening) }
    requires size { n ≤ 16368 }
    requires one { HasRoomFor c.old n addr }
    requires locks { c.old.out ≡ back_slot ∷ vs_slot ∷ [] }
    requires paid { c.old.owes ≡ [] }
    requires back { IsBackOf c.old back }
    requires vs { KeepsVs c.old vs }
    ensures { HasEnded c.old c.new (zeroing zero addr n ++ Give addr n ∷ GiveLock whats.Back ∷ GiveLock whats.Vs ∷ []) [] }
{
    hand_over_under_back(heap, c, back, addr, n, zero);
    give_vs(heap, c, vs);
}

/// As [`hand_over_back_first`], where the lock of the back end was taken first, and is given last.
pub fn hand_over_vs_first(
    heap: &Heap<State>,
    c: &mut Caller<State>,
    vs: Vs,
    back: Back,
    addr: u64,
    n: u64,
    zero: bool,
)
    requires table { (c.old.table ≡ heap.now.table) × (c.old.opening ≡ heap.now.opening) }
    requires size { n ≤ 16368 }
    requires one { HasRoomFor c.old n addr }
    requires locks { c.old.out ≡ vs_slot ∷ back_slot ∷ [] }
    requires paid { c.old.owes ≡ [] }
    requires back { IsBackOf c.old back }
    requires vs { KeepsVs c.old vs }
    ensures { HasEnded c.old c.new (zeroing zero addr n ++ Give addr n ∷ GiveLock whats.Vs ∷ GiveLock whats.Back ∷ []) [] }
{
    c.check();
    hand_over_front(heap, c, addr, n, zero);
    c.check();
    give_vs(heap, c, vs);
    give_back(heap, c, back);
}
