//! The locks of a move, given back with their states.
ghost use Rattle.std.specs.Prelude.{◌≡◌, ℕ, List, ◌∷◌, [], false};
ghost use Rattle.heap_model.specs.declared.What.TheVariants as whats;
ghost use Rattle.claim_rule.specs.Places.{vs_slot, back_slot, large_slot};
ghost use Rattle.heap_gate.specs.Token.{is_out};
ghost use Rattle.call_parts.specs.Entries.{HasEnded};
ghost use Rattle.move_parts.specs.Moves.{TellsVs, TellsBack, TellsLarge};
ghost use Rattle.move_calls.specs.Holds.{IsResting, HasPut, IsHolding, gives_of};

use crate::held::Held;
use backend_fit::Back;
use call_parts::{State, give_back, give_large, give_vs};
use heap_gate::{Caller, Heap};
use large_blocks::Large;
use vs_layer::Vs;

/// Gives the lock of the variable-size layer back, which was taken last.
fn put_vs(heap: &Heap<State>, c: &mut Caller<State>, vs: Vs)
    requires table { c.old.table ≡ heap.now.table }
    requires resting { (more : List ℕ) × IsResting c.old (vs_slot ∷ more) × (is_out whats.Vs more ≡ false) }
    requires tells { TellsVs c.old vs }
    ensures { (more : List ℕ) → IsResting c.old (vs_slot ∷ more) → HasPut c.old c.new whats.Vs more }
{
    c.check();
    give_vs(heap, c, vs);
    c.check();
}

/// Gives the lock of the back end back, which was taken last.
fn put_back(heap: &Heap<State>, c: &mut Caller<State>, back: Back)
    requires table { c.old.table ≡ heap.now.table }
    requires resting { (more : List ℕ) × IsResting c.old (back_slot ∷ more) × (is_out whats.Back more ≡ false) }
    requires tells { TellsBack c.old back }
    ensures { (more : List ℕ) → IsResting c.old (back_slot ∷ more) → HasPut c.old c.new whats.Back more }
{
    c.check();
    give_back(heap, c, back);
    c.check();
}

/// Gives the lock of the large area back, which was taken last.
fn put_large(heap: &Heap<State>, c: &mut Caller<State>, large: Large)
    requires table { c.old.table ≡ heap.now.table }
    requires resting { (more : List ℕ) × IsResting c.old (large_slot ∷ more) × (is_out whats.Large more ≡ false) }
    requires tells { TellsLarge c.old large }
    ensures { (more : List ℕ) → IsResting c.old (large_slot ∷ more) → HasPut c.old c.new whats.Large more }
{
    c.check();
    give_large(heap, c, large);
    c.check();
}

/// Gives those of the variable-size layer and of the back end back.
fn give_low(heap: &Heap<State>, c: &mut Caller<State>, vs: Vs, back: Back)
    requires table { c.old.table ≡ heap.now.table }
    requires holding { IsHolding c.old (Held.Low vs back) }
    ensures { HasEnded c.old c.new (gives_of (Held.Low vs back)) [] }
{
    put_back(heap, c, back);
    put_vs(heap, c, vs);
}

/// .. and that of the large area first.
fn give_low_and_large(heap: &Heap<State>, c: &mut Caller<State>, vs: Vs, back: Back, large: Large)
    requires table { c.old.table ≡ heap.now.table }
    requires holding { IsHolding c.old (Held.LowThenLarge vs back large) }
    ensures { HasEnded c.old c.new (gives_of (Held.LowThenLarge vs back large)) [] }
{
    put_large(heap, c, large);
    give_low(heap, c, vs, back);
}

/// Gives that of the variable-size layer back, and that of the large area behind it.
fn give_vs_and_large(heap: &Heap<State>, c: &mut Caller<State>, large: Large, vs: Vs)
    requires table { c.old.table ≡ heap.now.table }
    requires holding { IsHolding c.old (Held.LargeThenVs large vs) }
    ensures { HasEnded c.old c.new (gives_of (Held.LargeThenVs large vs)) [] }
{
    put_vs(heap, c, vs);
    put_large(heap, c, large);
}

/// .. and that of the back end first.
fn give_all_three(heap: &Heap<State>, c: &mut Caller<State>, large: Large, vs: Vs, back: Back)
    requires table { c.old.table ≡ heap.now.table }
    requires holding { IsHolding c.old (Held.LargeThenLow large vs back) }
    ensures { HasEnded c.old c.new (gives_of (Held.LargeThenLow large vs back)) [] }
{
    put_back(heap, c, back);
    give_vs_and_large(heap, c, large, vs);
}

/// Gives all locks that are held back, behind what is prepared, the last one first.
pub fn give_all(heap: &Heap<State>, c: &mut Caller<State>, held: Held)
    requires table { c.old.table ≡ heap.now.table }
    requires holding { IsHolding c.old held }
    ensures { HasEnded c.old c.new (gives_of held) [] }
{
    match held {
        Held::Vs(vs) => put_vs(heap, c, vs),
        Held::Low(vs, back) => give_low(heap, c, vs, back),
        Held::LowThenLarge(vs, back, large) => give_low_and_large(heap, c, vs, back, large),
        Held::Large(large) => put_large(heap, c, large),
        Held::LargeThenVs(large, vs) => give_vs_and_large(heap, c, large, vs),
        Held::LargeThenLow(large, vs, back) => give_all_three(heap, c, large, vs, back),
    }
}
