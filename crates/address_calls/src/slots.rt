//! That each caller has a slot of the heap, which a caller knows behind a load.
ghost use Rattle.std.specs.Prelude.{◌≡◌, ◌<◌, ℕ, [], true};
ghost use mathlib.Core.Option.{none};
ghost use Rattle.atomic_table.specs.Table.{step};
ghost use Rattle.claim_rule.specs.Entries.{have_slots};
ghost use Rattle.claim_rule.specs.Plays.{number_of};
ghost use Rattle.claim_rule.specs.Rule.{IsReady};
ghost use Rattle.heap_gate.specs.Calls.{Runs, Stands as Standing, stance};
ghost use Rattle.address_calls.specs.Slots.{heard_slots};

use atomic_table::Play;
use call_parts::State;
use claim_rule::{Carried, MADE, View};
use heap_gate::{Caller, Heap, Prepared};
use heap_model::Stands;
use std::marker::{Brand, PhantomData};
use step_parts::{Seating, Table};

/// A load that tells it.
pub struct HearsSlots<E> {
    carried: PhantomData<E>,
}

impl<T, E: Carried> Play<Option<T>, View> for HearsSlots<E> {
    ghost use Rattle.address_calls.specs.Slots.{heard_slots};

    ghost then = { heard_slots E.entries };
}

// The entries are those of the caller, for the proof alone.
fn hear_by<T: Stands, E: Carried>(top: &Table<T>, place: &mut Seating<T>, _prepared: &Prepared)
    requires table { (place.old.table_id ≡ top.now.table_id) × (5 < top.now.table_id.words) }
    requires ready { IsReady (number_of place.old.me.0.role) place.old.me.0 E.entries }
    ensures table { place.new.table_id ≡ place.old.table_id }
    ensures told { (n : ℕ) × heard_slots E.entries (step top.now.table_id.slots 0 0 0 none) place.old.me n place.new.me }
{
    top.load::<HearsSlots<E>>(place, MADE);
}

/// One load, behind which each caller that the list knows of has a slot of the heap.
pub(crate) fn hear_slots(heap: &Heap<State>, c: &mut Caller<State>)
    requires table { c.old.table ≡ heap.now.table }
    requires whole { c.old.whole ≡ true }
    ensures runs { Runs c.old c.new [] }
    ensures stands { Standing c.new (stance c.old) }
    ensures slots { have_slots c.new.opening.limits.slots c.new.roll ≡ true }
{
    hear_by::<State, Brand>(&heap.table.shared, &mut c.place, &c.prepared);
    c.prepared.clear();
    c.pending = false;
}
