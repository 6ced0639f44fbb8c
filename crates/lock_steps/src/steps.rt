//! Each step of these kinds on a table, with the entries that it carries.
ghost use Rattle.heap_model.specs.State.{Setting};
ghost use Rattle.claim_rule.specs.Places.{data_at, data_count, lock_at};
ghost use Rattle.claim_rule.specs.Entries.{IsSettingOf};
ghost use Rattle.claim_rule.specs.Plays.{number_of, Adds};
ghost use Rattle.std.specs.Prelude.{◌≡◌, ℕ, ◌+◌, ◌<◌, List, ◌∷◌, Some, None, Option};
ghost use Rattle.lock_steps.specs.Data.{IsInside, loaded, stored};
ghost use mathlib.Core.Option.{none};
ghost use Rattle.atomic_table.specs.Table.{step, Me};
ghost use Rattle.heap_model.specs.declared.Act.TheVariants as acts;
ghost use Rattle.heap_model.specs.History.{configuration_of};
ghost use Rattle.claim_rule.specs.declared.views.View.{View as AView};
ghost use Rattle.claim_rule.specs.Rule.{IsReady, ready_after};
ghost use Rattle.claim_rule.specs.Home.{HasSlot, slot_of, Tells};
ghost use Rattle.lock_steps.specs.Locks.{IsPaid, MayTake, MayGiveBack, took};

use crate::plays::{Gives, LoadsData, StoresData, Takes};
use claim_rule::Carried;
use heap_model::Stands;
use step_parts::{Guards, Seating, Table, Target};

/// Takes the lock whose word this is, and its state out of its slot. None where another caller has it.
pub fn take_as<T: Stands, G: Guards, E: Carried>(
    top: &Table<T>,
    place: &mut Seating<T>,
    word: usize,
    slot: usize,
    tag: u64,
) -> (u64, Option<T>)
    requires table { (place.old.table_id ≡ top.now.table_id) × (5 < top.now.table_id.words) }
    requires lock { HasSlot G.what × (word ≡ lock_at G.what) × (slot ≡ slot_of G.what) }
    requires tag { tag ≡ number_of place.old.me.0.role + 1 }
    requires ready { IsReady (number_of place.old.me.0.role) place.old.me.0 E.entries }
    requires may { (s : Setting) → IsSettingOf place.old.me.0.opening place.old.me.0.roll s → MayTake (ready_after s place.old.me.0 E.entries) (number_of place.old.me.0.role) G.what }
    ensures table { place.new.table_id ≡ place.old.table_id }
    ensures told { (at : Me (Option T) AView) × took T.stands G.what E.entries (step top.now.table_id.slots word 0 tag none) place.old.me result.0 at × (place.new.me.0 ≡ at.0) }
    ensures free { result.0 ≡ 0 → (t : T) × (result.1 ≡ Some t) × (place.new.me.1 ≡ (slot_of G.what, None) ∷ place.old.me.1) × ((s : Setting) → IsSettingOf place.new.me.0.opening place.new.me.0.roll s → Tells G.what place.new.me.0.opening (configuration_of s place.new.me.0.seen).state (T.stands t)) }
    ensures busy { (result.0 ≡ 0 → ⊥) → (result.1 ≡ None) × (place.new.me.1 ≡ place.old.me.1) }
{
    let found = top.compare_exchange::<Takes<G, E>>(place, word, 0, tag);
    if found == 0 {
        (found, top.exchange(place, slot, None))
    } else {
        (found, None)
    }
}

/// Puts the state into its slot and gives the lock back.
pub fn give_as<T: Stands + Drop, G: Guards, E: Carried>(
    top: &Table<T>,
    place: &mut Seating<T>,
    word: usize,
    slot: usize,
    state: T,
)
    requires table { (place.old.table_id ≡ top.now.table_id) × (5 < top.now.table_id.words) }
    requires lock { HasSlot G.what × (word ≡ lock_at G.what) × (slot ≡ slot_of G.what) }
    requires out { (more : List (ℕ × Option T)) × (place.old.me.1 ≡ (slot_of G.what, None) ∷ more) }
    requires paid { IsPaid G.what place.old.me.0.owes }
    requires ready { IsReady (number_of place.old.me.0.role) place.old.me.0 E.entries }
    requires may { (s : Setting) → IsSettingOf place.old.me.0.opening place.old.me.0.roll s → MayGiveBack (ready_after s place.old.me.0 E.entries) (number_of place.old.me.0.role) G.what × Tells G.what place.old.me.0.opening (ready_after s place.old.me.0 E.entries).state (T.stands state) }
    ensures table { place.new.table_id ≡ place.old.table_id }
    ensures told { Adds E.entries (acts.GiveLock G.what) place.old.me place.new.me × (place.new.me.0.owes ≡ place.old.me.0.owes) }
    ensures slot { (more : List (ℕ × Option T)) → place.old.me.1 ≡ (slot_of G.what, None) ∷ more → place.new.me.1 ≡ more }
{
    let _empty = top.exchange(place, slot, Some(state));
    top.store::<Gives<G, E>>(place, word, 0);
}

/// A data word is loaded.
pub fn load_data_as<T: Stands, B: Target, E: Carried>(
    top: &Table<T>,
    place: &mut Seating<T>,
    word: usize,
) -> u64
    requires table { (place.old.table_id ≡ top.now.table_id) × (word < top.now.table_id.words) }
    requires word { word ≡ data_at top.now.key.limits B.number }
    requires there { B.number < data_count top.now.key.limits }
    requires ready { IsReady (number_of place.old.me.0.role) place.old.me.0 E.entries }
    requires may { (s : Setting) → IsSettingOf place.old.me.0.opening place.old.me.0.roll s → IsInside (ready_after s place.old.me.0 E.entries) (number_of place.old.me.0.role) }
    ensures table { place.new.table_id ≡ place.old.table_id }
    ensures told { loaded E.entries B.number (step top.now.table_id.slots word 0 0 none) place.old.me result place.new.me }
{
    top.load::<LoadsData<B, E>>(place, word)
}

/// A data word is stored.
pub fn store_data_as<T: Stands, B: Target, E: Carried>(
    top: &Table<T>,
    place: &mut Seating<T>,
    word: usize,
    value: u64,
)
    requires table { (place.old.table_id ≡ top.now.table_id) × (word < top.now.table_id.words) }
    requires word { word ≡ data_at top.now.key.limits B.number }
    requires there { B.number < data_count top.now.key.limits }
    requires ready { IsReady (number_of place.old.me.0.role) place.old.me.0 E.entries }
    requires may { (s : Setting) → IsSettingOf place.old.me.0.opening place.old.me.0.roll s → IsInside (ready_after s place.old.me.0 E.entries) (number_of place.old.me.0.role) }
    ensures table { place.new.table_id ≡ place.old.table_id }
    ensures told { stored E.entries B.number (step top.now.table_id.slots word value 0 none) place.old.me value place.new.me }
{
    top.store::<StoresData<B, E>>(place, word, value);
}
