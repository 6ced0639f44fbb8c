//! The locks of a move whose block is in hand: each is tried once, and where one is busy the block is live again.
ghost use Rattle.std.specs.Prelude.{◌≡◌, ◌∷◌, [], ℕ, List, false, true, IfOk, IfErr};
ghost use Rattle.heap_model.specs.declared.Flags.{Flags as AFlags};
ghost use Rattle.heap_model.specs.declared.What.{What as AWhat};
ghost use Rattle.heap_model.specs.declared.What.TheVariants as whats;
ghost use Rattle.claim_rule.specs.Entries.{have_slots};
ghost use Rattle.claim_rule.specs.Places.{vs_slot, back_slot, large_slot};
ghost use Rattle.heap_gate.specs.Token.{Token, is_out};
ghost use Rattle.lfh_claims.specs.declared.tag.Tag.{Tag as ATag};
ghost use Rattle.move_parts.specs.Moves.{TellsVs, TellsBack, TellsLarge};
ghost use Rattle.move_calls.specs.Carries.{IsCarrying, HasMetCarrying};
ghost use Rattle.move_calls.specs.Holds.{TellsStill};
ghost use Rattle.move_calls.specs.Moves.{IsForNew, IsInTheWay};

use crate::gives::give_all;
use crate::held::Held;
use backend_fit::Back;
use call_parts::{State, take_back, take_large, take_vs};
use heap_gate::{Caller, Heap};
use heap_model::Busy;
use large_blocks::Large;
use move_in_front::laws::{lock_keeps, look_keeps, miss_keeps};
use move_taken::give_taken_back;
use stay_calls::hear;
use vs_layer::Vs;

/// Takes the lock of the variable-size layer.
pub(crate) fn vs_too(heap: &Heap<State>, c: &mut Caller<State>) -> Result<Vs, Busy>
    requires table { c.old.table ≡ heap.now.table }
    requires carrying { (first : Token) × (tag : ATag) × (addr size n : ℕ) × (flags : AFlags) × (out : List ℕ) × IsCarrying first c.old tag addr size n flags out × (is_out whats.Vs out ≡ false) }
    ensures ok { IfOk result (λ vs. (first : Token) (tag : ATag) (addr size n : ℕ) (flags : AFlags) (out : List ℕ) → IsCarrying first c.old tag addr size n flags out → IsCarrying first c.new tag addr size n flags (vs_slot ∷ out)) }
    ensures tells { IfOk result (λ vs. TellsVs c.new vs) }
    ensures busy { IfErr result (λ b. (first : Token) (tag : ATag) (addr size n : ℕ) (flags : AFlags) (out : List ℕ) → IsCarrying first c.old tag addr size n flags out → HasMetCarrying first c.new tag addr size n flags out whats.Vs b) }
    ensures still { TellsStill c.old c.new }
{
    lock_keeps();
    miss_keeps();
    c.check();
    let taken = take_vs(heap, c);
    c.check();
    taken
}

/// Takes the lock of the back end.
pub(crate) fn back_too(heap: &Heap<State>, c: &mut Caller<State>) -> Result<Back, Busy>
    requires table { c.old.table ≡ heap.now.table }
    requires carrying { (first : Token) × (tag : ATag) × (addr size n : ℕ) × (flags : AFlags) × (out : List ℕ) × IsCarrying first c.old tag addr size n flags out × (is_out whats.Back out ≡ false) }
    ensures ok { IfOk result (λ back. (first : Token) (tag : ATag) (addr size n : ℕ) (flags : AFlags) (out : List ℕ) → IsCarrying first c.old tag addr size n flags out → IsCarrying first c.new tag addr size n flags (back_slot ∷ out)) }
    ensures tells { IfOk result (λ back. TellsBack c.new back) }
    ensures busy { IfErr result (λ b. (first : Token) (tag : ATag) (addr size n : ℕ) (flags : AFlags) (out : List ℕ) → IsCarrying first c.old tag addr size n flags out → HasMetCarrying first c.new tag addr size n flags out whats.Back b) }
    ensures still { TellsStill c.old c.new }
{
    lock_keeps();
    miss_keeps();
    c.check();
    let taken = take_back(heap, c);
    c.check();
    taken
}

/// Takes the lock of the large area.
pub(crate) fn large_too(heap: &Heap<State>, c: &mut Caller<State>) -> Result<Large, Busy>
    requires table { c.old.table ≡ heap.now.table }
    requires carrying { (first : Token) × (tag : ATag) × (addr size n : ℕ) × (flags : AFlags) × (out : List ℕ) × IsCarrying first c.old tag addr size n flags out × (is_out whats.Large out ≡ false) }
    ensures ok { IfOk result (λ large. (first : Token) (tag : ATag) (addr size n : ℕ) (flags : AFlags) (out : List ℕ) → IsCarrying first c.old tag addr size n flags out → IsCarrying first c.new tag addr size n flags (large_slot ∷ out)) }
    ensures tells { IfOk result (λ large. TellsLarge c.new large) }
    ensures busy { IfErr result (λ b. (first : Token) (tag : ATag) (addr size n : ℕ) (flags : AFlags) (out : List ℕ) → IsCarrying first c.old tag addr size n flags out → HasMetCarrying first c.new tag addr size n flags out whats.Large b) }
    ensures still { TellsStill c.old c.new }
{
    lock_keeps();
    miss_keeps();
    c.check();
    let taken = take_large(heap, c);
    c.check();
    taken
}

/// One load, behind which each caller that is known has a slot of the heap.
pub(crate) fn listen_too(heap: &Heap<State>, c: &mut Caller<State>)
    requires table { c.old.table ≡ heap.now.table }
    requires carrying { (first : Token) × (tag : ATag) × (addr size n : ℕ) × (flags : AFlags) × (out : List ℕ) × IsCarrying first c.old tag addr size n flags out }
    ensures carrying { (first : Token) (tag : ATag) (addr size n : ℕ) (flags : AFlags) (out : List ℕ) → IsCarrying first c.old tag addr size n flags out → IsCarrying first c.new tag addr size n flags out }
    ensures still { TellsStill c.old c.new }
    ensures slots { have_slots c.new.opening.limits.slots c.new.roll ≡ true }
{
    look_keeps();
    c.check();
    hear(heap, c);
    c.check();
}

/// Makes the block live again behind a lock that is busy, where the caller has no lock.
pub(crate) fn end_met(heap: &Heap<State>, c: &mut Caller<State>, addr: u64, size: u64, busy: Busy)
    requires table { (c.old.table ≡ heap.now.table) × (c.old.opening ≡ heap.now.opening) }
    requires met { (first : Token) × (tag : ATag) × (n : ℕ) × (flags : AFlags) × (what : AWhat) × HasMetCarrying first c.old tag addr size n flags [] what busy × IsForNew n what }
    ensures { (first : Token) (tag : ATag) (n : ℕ) (flags : AFlags) (what : AWhat) → HasMetCarrying first c.old tag addr size n flags [] what busy → IsForNew n what → IsInTheWay first c.new addr n flags busy }
{
    let _busy = busy;
    give_taken_back(heap, c, addr, size);
}

/// .. where it has that of the variable-size layer, which it gives back
pub(crate) fn end_met_under(
    heap: &Heap<State>,
    c: &mut Caller<State>,
    vs: Vs,
    addr: u64,
    size: u64,
    busy: Busy,
)
    requires table { (c.old.table ≡ heap.now.table) × (c.old.opening ≡ heap.now.opening) }
    requires met { (first : Token) × (tag : ATag) × (n : ℕ) × (flags : AFlags) × (what : AWhat) × HasMetCarrying first c.old tag addr size n flags (vs_slot ∷ []) what busy × IsForNew n what × TellsVs c.old vs }
    ensures { (first : Token) (tag : ATag) (n : ℕ) (flags : AFlags) (what : AWhat) → HasMetCarrying first c.old tag addr size n flags (vs_slot ∷ []) what busy → IsForNew n what → IsInTheWay first c.new addr n flags busy }
{
    let _busy = busy;
    c.check();
    give_taken_back(heap, c, addr, size);
    give_all(heap, c, Held::Vs(vs));
}
