//! That each entry that a caller has seen is of a caller that it knows of, which has a slot of the heap: so it is behind a load.
ghost use Rattle.std.specs.Prelude.{◌≡◌, ◌<◌, ℕ, [], true, length};
ghost use mathlib.Core.Option.{none};
ghost use Rattle.atomic_table.specs.Table.{step};
ghost use Rattle.claim_rule.specs.Entries.{have_slots, is_named};
ghost use Rattle.claim_rule.specs.Plays.{number_of};
ghost use Rattle.claim_rule.specs.Rule.{IsReady};
ghost use Rattle.heap_gate.specs.Calls.{Runs, Stands as Standing, stance};
ghost use Rattle.stay_calls.specs.Heard.{heard_callers};

use atomic_table::Play;
use call_parts::State;
use claim_rule::{Carried, MADE, View};
use heap_gate::{Caller, Heap, Prepared};
use heap_model::Stands;
use std::marker::{Brand, PhantomData};
use step_parts::{Seating, Table};

/// A load that tells it.
pub struct HearsCallers<E> {
    carried: PhantomData<E>,
}

impl<T, E: Carried> Play<Option<T>, View> for HearsCallers<E> {
    ghost use Rattle.stay_calls.specs.Heard.{heard_callers};

    ghost then = { heard_callers E.entries };
}

// The entries are those of the caller, for the proof alone.
fn hear_by<T: Stands, E: Carried>(top: &Table<T>, place: &mut Seating<T>, _prepared: &Prepared)
    requires table { (place.old.table_id ≡ top.now.table_id) × (5 < top.now.table_id.words) }
    requires ready { IsReady (number_of place.old.me.0.role) place.old.me.0 E.entries }
    ensures table { place.new.table_id ≡ place.old.table_id }
    ensures told { (n : ℕ) × heard_callers E.entries (step top.now.table_id.slots 0 0 0 none) place.old.me n place.new.me }
{
    top.load::<HearsCallers<E>>(place, MADE);
}

/// One load, behind which a caller knows that each entry that it has seen is of a caller that it knows of, and that each of these has
/// a slot of the heap.
pub fn hear(heap: &Heap<State>, c: &mut Caller<State>)
    requires table { c.old.table ≡ heap.now.table }
    requires whole { c.old.whole ≡ true }
    ensures runs { Runs c.old c.new [] }
    ensures stands { Standing c.new (stance c.old) }
    ensures slots { have_slots c.new.opening.limits.slots c.new.roll ≡ true }
    ensures names { is_named (length c.new.roll) c.new.seen ≡ true }
{
    hear_by::<State, Brand>(&heap.table.shared, &mut c.place, &c.prepared);
    c.prepared.clear();
    c.pending = false;
}
