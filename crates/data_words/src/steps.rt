//! The two steps on a table, with the entries that they carry.
ghost use Rattle.std.specs.Prelude.{◌≡◌, ◌<◌};
ghost use mathlib.Core.Option.{none};
ghost use Rattle.atomic_table.specs.Table.{step};
ghost use Rattle.heap_model.specs.State.{Setting};
ghost use Rattle.claim_rule.specs.Entries.{IsSettingOf};
ghost use Rattle.claim_rule.specs.Places.{data_at, data_count};
ghost use Rattle.claim_rule.specs.Plays.{number_of};
ghost use Rattle.claim_rule.specs.Rule.{IsReady, ready_after};
ghost use Rattle.lock_steps.specs.Data.{IsInside, loaded, stored};

use claim_rule::Carried;
use heap_gate::Prepared;
use heap_model::Stands;
use lock_steps::steps::{load_data_as, store_data_as};
use step_parts::{Seating, Table, Target};

// The entries are those of the caller, and the number of the word that of its argument, for the proof alone.
pub(crate) fn load_by<T: Stands, B: Target, E: Carried>(
    top: &Table<T>,
    place: &mut Seating<T>,
    _prepared: &Prepared,
    _word: u64,
    at: usize,
) -> u64
    requires table { (place.old.table_id ≡ top.now.table_id) × (at < top.now.table_id.words) }
    requires word { at ≡ data_at top.now.key.limits B.number }
    requires there { B.number < data_count top.now.key.limits }
    requires ready { IsReady (number_of place.old.me.0.role) place.old.me.0 E.entries }
    requires may { (s : Setting) → IsSettingOf place.old.me.0.opening place.old.me.0.roll s → IsInside (ready_after s place.old.me.0 E.entries) (number_of place.old.me.0.role) }
    ensures table { place.new.table_id ≡ place.old.table_id }
    ensures told { loaded E.entries B.number (step top.now.table_id.slots at 0 0 none) place.old.me result place.new.me }
{
    load_data_as::<T, B, E>(top, place, at)
}

pub(crate) fn store_by<T: Stands, B: Target, E: Carried>(
    top: &Table<T>,
    place: &mut Seating<T>,
    _prepared: &Prepared,
    _word: u64,
    at: usize,
    value: u64,
)
    requires table { (place.old.table_id ≡ top.now.table_id) × (at < top.now.table_id.words) }
    requires word { at ≡ data_at top.now.key.limits B.number }
    requires there { B.number < data_count top.now.key.limits }
    requires ready { IsReady (number_of place.old.me.0.role) place.old.me.0 E.entries }
    requires may { (s : Setting) → IsSettingOf place.old.me.0.opening place.old.me.0.roll s → IsInside (ready_after s place.old.me.0 E.entries) (number_of place.old.me.0.role) }
    ensures table { place.new.table_id ≡ place.old.table_id }
    ensures told { stored E.entries B.number (step top.now.table_id.slots at value 0 none) place.old.me value place.new.me }
{
    store_data_as::<T, B, E>(top, place, at, value);
}
