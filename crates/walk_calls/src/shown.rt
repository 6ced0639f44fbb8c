//! That the words of the table show the heap, which a caller knows behind a load.
ghost use Rattle.std.specs.Prelude.{◌≡◌, ◌<◌, ℕ, [], true, None};
ghost use mathlib.Core.Option.{none};
ghost use Rattle.atomic_table.specs.Table.{step};
ghost use Rattle.claim_rule.specs.Plays.{number_of};
ghost use Rattle.claim_rule.specs.Rule.{IsReady};
ghost use Rattle.heap_gate.specs.Token.{Always, now};
ghost use Rattle.heap_gate.specs.Calls.{Runs, Stands as Standing, stance};
ghost use Rattle.walk_calls.specs.Words.{heard_words, IsKnownFor, HasWords};

use atomic_table::Play;
use call_parts::State;
use claim_rule::{Carried, MADE, View};
use heap_gate::{Caller, Heap, Prepared};
use heap_model::Stands;
use std::marker::{Brand, PhantomData};
use step_parts::{Seating, Table};

/// A load that tells it.
pub struct HearsWords<E> {
    carried: PhantomData<E>,
}

impl<T, E: Carried> Play<Option<T>, View> for HearsWords<E> {
    ghost use Rattle.walk_calls.specs.Words.{heard_words};

    ghost then = { heard_words E.entries };
}

// The entries are those of the caller, for the proof alone.
fn hear_by<T: Stands, E: Carried>(top: &Table<T>, place: &mut Seating<T>, _prepared: &Prepared)
    requires table { (place.old.table_id ≡ top.now.table_id) × (5 < top.now.table_id.words) }
    requires ready { IsReady (number_of place.old.me.0.role) place.old.me.0 E.entries }
    ensures table { place.new.table_id ≡ place.old.table_id }
    ensures told { (n : ℕ) × heard_words E.entries (step top.now.table_id.slots 0 0 0 none) place.old.me n place.new.me }
{
    top.load::<HearsWords<E>>(place, MADE);
}

/// One load, behind which the caller knows that the heap is sound, and that the words of the table show it where nobody holds the lock of
/// the back end: a proof may rest on it.
pub fn hear_words(heap: &Heap<State>, c: &mut Caller<State>)
    requires table { c.old.table ≡ heap.now.table }
    requires whole { c.old.whole ≡ true }
    ensures runs { Runs c.old c.new [] }
    ensures stands { Standing c.new (stance c.old) }
    ensures sound { Always c.new (λ s. IsKnownFor c.new.opening (now s c.new)) }
    ensures words { Always c.new (λ s. (now s c.new).state.gate.locks.back ≡ None → HasWords c.new.opening.limits (now s c.new)) }
{
    hear_by::<State, Brand>(&heap.table.shared, &mut c.place, &c.prepared);
    c.prepared.clear();
    c.pending = false;
}
