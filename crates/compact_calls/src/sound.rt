//! That the heap is sound, which a caller knows behind a load.
ghost use Rattle.std.specs.Prelude.{◌≡◌, ◌<◌, ℕ, [], true};
ghost use mathlib.Core.Option.{none};
ghost use Rattle.atomic_table.specs.Table.{step};
ghost use Rattle.claim_rule.specs.Plays.{number_of};
ghost use Rattle.claim_rule.specs.Rule.{IsReady};
ghost use Rattle.heap_gate.specs.Token.{Always, now};
ghost use Rattle.heap_gate.specs.Calls.{Runs, Stands as Standing, stance};
ghost use Rattle.compact_calls.specs.Sound.{heard_sound, IsSoundFor};

use atomic_table::Play;
use call_parts::State;
use claim_rule::{Carried, MADE, View};
use heap_gate::{Caller, Heap, Prepared};
use heap_model::Stands;
use std::marker::{Brand, PhantomData};
use step_parts::{Seating, Table};

/// A load that tells it.
pub struct HearsSound<E> {
    carried: PhantomData<E>,
}

impl<T, E: Carried> Play<Option<T>, View> for HearsSound<E> {
    ghost use Rattle.compact_calls.specs.Sound.{heard_sound};

    ghost then = { heard_sound E.entries };
}

// The entries are those of the caller, for the proof alone.
fn hear_by<T: Stands, E: Carried>(top: &Table<T>, place: &mut Seating<T>, _prepared: &Prepared)
    requires table { (place.old.table_id ≡ top.now.table_id) × (5 < top.now.table_id.words) }
    requires ready { IsReady (number_of place.old.me.0.role) place.old.me.0 E.entries }
    ensures table { place.new.table_id ≡ place.old.table_id }
    ensures told { (n : ℕ) × heard_sound E.entries (step top.now.table_id.slots 0 0 0 none) place.old.me n place.new.me }
{
    top.load::<HearsSound<E>>(place, MADE);
}

/// One load, behind which the caller knows that the heap is sound: a proof may rest on it.
pub fn hear_sound(heap: &Heap<State>, c: &mut Caller<State>)
    requires table { c.old.table ≡ heap.now.table }
    requires whole { c.old.whole ≡ true }
    ensures runs { Runs c.old c.new [] }
    ensures stands { Standing c.new (stance c.old) }
    ensures sound { Always c.new (λ s. IsSoundFor c.new.opening.limits (now s c.new)) }
{
    hear_by::<State, Brand>(&heap.table.shared, &mut c.place, &c.prepared);
    c.prepared.clear();
    c.pending = false;
}
