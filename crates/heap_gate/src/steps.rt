//! Each step of a caller on the table, with the entries that it carries.
ghost use Rattle.std.specs.Prelude.{◌≡◌, ℕ, ◌+◌, ◌*◌, ◌<◌, ◌∷◌, [], List, Some, None, Option};
ghost use mathlib.Core.Option.{none};
ghost use Rattle.atomic_table.specs.Table.{step, Me};
ghost use Rattle.heap_model.specs.State.{Setting};
ghost use Rattle.heap_model.specs.declared.Act.TheVariants as acts;
ghost use Rattle.heap_model.specs.History.{configuration_of};
ghost use Rattle.claim_rule.specs.declared.views.View.{View as AView};
ghost use Rattle.claim_rule.specs.Entries.{IsSettingOf};
ghost use Rattle.claim_rule.specs.Rule.{IsReady, ready_after};
ghost use Rattle.claim_rule.specs.Steps.{MayPass, MayGoOut, MayTryLock, MayGiveUp};
ghost use Rattle.claim_rule.specs.Entries.{entry};
ghost use Rattle.claim_rule.specs.Plays.{looked, entered, left, locked, unlocked, number_of, Adds, Goes};
ghost use Rattle.look_steps.specs.Denials.{MayDeny, denied_left};
ghost use Rattle.claim_rule.specs.Home.{HasSlot, slot_of, Tells};
ghost use Rattle.lock_steps.specs.Locks.{IsPaid, MayTake, MayGiveBack, took};
ghost use Rattle.claim_rule.specs.Places.{lock_at};

use crate::noted::Noted;
use claim_rule::{Carried, Enters, GATE, Leaves, Locks, Looks, MADE, Unlocks};
use heap_model::{Act, Entry, Stands, What};
use lock_steps::steps::{give_as, take_as};
use look_steps::steps::{deny_give_as, deny_leave_as};
use std::marker::Model;
use step_parts::{Guards, Seating, Table, Target};

/// The entries that a caller has prepared: for the proof alone, so that they cost nothing.
pub type Prepared = Noted<Slip>;

/// A prepared entry.
#[derive(Clone, Copy)]
pub struct Slip {
    pub entry: Entry,
}

impl Model for Slip {
    ghost use Rattle.heap_model.specs.declared.Entry.{Entry};

    ghost Value = { Entry };

    ghost view = { λ s. s.entry };

    ghost inverse = { λ e. record { entry = e } };
}

impl Default for Slip {
    fn default() -> Self {
        Slip {
            entry: Entry {
                caller: 0,
                act: Act::Enter,
            },
        }
    }
}

// The entries are those of the caller, for the proof alone.
pub(crate) fn look_as<T: Stands, E: Carried>(
    top: &Table<T>,
    place: &mut Seating<T>,
    _prepared: &Prepared,
)
    requires table { (place.old.table_id ≡ top.now.table_id) × (5 < top.now.table_id.words) }
    requires ready { IsReady (number_of place.old.me.0.role) place.old.me.0 E.entries }
    ensures table { place.new.table_id ≡ place.old.table_id }
    ensures told { (n : ℕ) × looked E.entries (step top.now.table_id.slots 0 0 0 none) place.old.me n place.new.me }
{
    top.load::<Looks<E>>(place, MADE);
}

#[inline(always)]
pub(crate) fn enter_as<T: Stands, E: Carried>(
    top: &Table<T>,
    place: &mut Seating<T>,
    _prepared: &Prepared,
) -> u64
    requires table { (place.old.table_id ≡ top.now.table_id) × (5 < top.now.table_id.words) }
    requires ready { IsReady (number_of place.old.me.0.role) place.old.me.0 E.entries }
    requires may { (s : Setting) → IsSettingOf place.old.me.0.opening place.old.me.0.roll s → MayPass (ready_after s place.old.me.0 E.entries) (number_of place.old.me.0.role) }
    ensures table { place.new.table_id ≡ place.old.table_id }
    ensures told { entered E.entries (step top.now.table_id.slots 1 1 0 none) place.old.me result place.new.me }
{
    top.fetch_add::<Enters<E>>(place, GATE, 1)
}

#[inline(always)]
pub(crate) fn leave_as<T: Stands, E: Carried>(
    top: &Table<T>,
    place: &mut Seating<T>,
    _prepared: &Prepared,
)
    requires table { (place.old.table_id ≡ top.now.table_id) × (5 < top.now.table_id.words) }
    requires ready { IsReady (number_of place.old.me.0.role) place.old.me.0 E.entries }
    requires may { (s : Setting) → IsSettingOf place.old.me.0.opening place.old.me.0.roll s → MayGoOut (ready_after s place.old.me.0 E.entries) (number_of place.old.me.0.role) }
    ensures table { place.new.table_id ≡ place.old.table_id }
    ensures told { (n : ℕ) × left E.entries (step top.now.table_id.slots 1 1 0 none) place.old.me n place.new.me }
{
    top.fetch_sub::<Leaves<E>>(place, GATE, 1);
}

pub(crate) fn lock_as<T: Stands, E: Carried>(
    top: &Table<T>,
    place: &mut Seating<T>,
    _prepared: &Prepared,
    tag: u64,
) -> u64
    requires table { (place.old.table_id ≡ top.now.table_id) × (5 < top.now.table_id.words) }
    requires tag { tag ≡ 65536 * (number_of place.old.me.0.role + 1) }
    requires ready { IsReady (number_of place.old.me.0.role) place.old.me.0 E.entries }
    requires may { (s : Setting) → IsSettingOf place.old.me.0.opening place.old.me.0.roll s → MayTryLock (ready_after s place.old.me.0 E.entries) (number_of place.old.me.0.role) }
    ensures table { place.new.table_id ≡ place.old.table_id }
    ensures told { locked E.entries (step top.now.table_id.slots 1 0 tag none) place.old.me result place.new.me }
{
    top.compare_exchange::<Locks<E>>(place, GATE, 0, tag)
}

pub(crate) fn unlock_as<T: Stands, E: Carried>(
    top: &Table<T>,
    place: &mut Seating<T>,
    _prepared: &Prepared,
    tag: u64,
)
    requires table { (place.old.table_id ≡ top.now.table_id) × (5 < top.now.table_id.words) }
    requires tag { tag ≡ 65536 * (number_of place.old.me.0.role + 1) }
    requires ready { IsReady (number_of place.old.me.0.role) place.old.me.0 E.entries }
    requires may { (s : Setting) → IsSettingOf place.old.me.0.opening place.old.me.0.roll s → MayGiveUp (ready_after s place.old.me.0 E.entries) (number_of place.old.me.0.role) }
    ensures table { place.new.table_id ≡ place.old.table_id }
    ensures told { (n : ℕ) × unlocked E.entries (step top.now.table_id.slots 1 tag 0 none) place.old.me n place.new.me }
{
    top.fetch_sub::<Unlocks<E>>(place, GATE, tag);
}

// The lock is that of the caller's argument, for the proof alone.
pub(crate) fn take_by<T: Stands, G: Guards, E: Carried>(
    top: &Table<T>,
    place: &mut Seating<T>,
    _prepared: &Prepared,
    _what: What,
    word: usize,
    slot: usize,
    tag: u64,
) -> (u64, Option<T>)
    requires table { (place.old.table_id ≡ top.now.table_id) × (5 < top.now.table_id.words) }
    requires lock { HasSlot G.what × (word ≡ lock_at G.what) × (slot ≡ slot_of G.what) }
    requires tag { tag ≡ number_of place.old.me.0.role + 1 }
    requires ready { IsReady (number_of place.old.me.0.role) place.old.me.0 E.entries }
    requires may { (s : Setting) → IsSettingOf place.old.me.0.opening place.old.me.0.roll s → MayTake (ready_after s place.old.me.0 E.entries) (number_of place.old.me.0.role) G.what }
    ensures table { place.new.table_id ≡ place.old.table_id }
    ensures told { (at : Me (Option T) AView) × took T.stands G.what E.entries (step top.now.table_id.slots word 0 tag none) place.old.me result.0 at × (place.new.me.0 ≡ at.0) }
    ensures free { result.0 ≡ 0 → (t : T) × (result.1 ≡ Some t) × (place.new.me.1 ≡ (slot_of G.what, None) ∷ place.old.me.1) × ((s : Setting) → IsSettingOf place.new.me.0.opening place.new.me.0.roll s → Tells G.what place.new.me.0.opening (configuration_of s place.new.me.0.seen).state (T.stands t)) }
    ensures busy { (result.0 ≡ 0 → ⊥) → (result.1 ≡ None) × (place.new.me.1 ≡ place.old.me.1) }
{
    take_as::<T, G, E>(top, place, word, slot, tag)
}

pub(crate) fn give_by<T: Stands + Drop, G: Guards, E: Carried>(
    top: &Table<T>,
    place: &mut Seating<T>,
    _prepared: &Prepared,
    _what: What,
    word: usize,
    slot: usize,
    state: T,
)
    requires table { (place.old.table_id ≡ top.now.table_id) × (5 < top.now.table_id.words) }
    requires lock { HasSlot G.what × (word ≡ lock_at G.what) × (slot ≡ slot_of G.what) }
    requires out { (more : List (ℕ × Option T)) × (place.old.me.1 ≡ (slot_of G.what, None) ∷ more) }
    requires paid { IsPaid G.what place.old.me.0.owes }
    requires ready { IsReady (number_of place.old.me.0.role) place.old.me.0 E.entries }
    requires may { (s : Setting) → IsSettingOf place.old.me.0.opening place.old.me.0.roll s → MayGiveBack (ready_after s place.old.me.0 E.entries) (number_of place.old.me.0.role) G.what × Tells G.what place.old.me.0.opening (ready_after s place.old.me.0 E.entries).state (T.stands state) }
    ensures table { place.new.table_id ≡ place.old.table_id }
    ensures told { Adds E.entries (acts.GiveLock G.what) place.old.me place.new.me × (place.new.me.0.owes ≡ place.old.me.0.owes) }
    ensures slot { (more : List (ℕ × Option T)) → place.old.me.1 ≡ (slot_of G.what, None) ∷ more → place.new.me.1 ≡ more }
{
    give_as::<T, G, E>(top, place, word, slot, state);
}

// .. with the word that no live block has an address. The address is that of the caller's argument, for the proof alone.
pub(crate) fn deny_give_by<T: Stands + Drop, G: Guards, B: Target, E: Carried>(
    top: &Table<T>,
    place: &mut Seating<T>,
    _prepared: &Prepared,
    _what: What,
    _addr: u64,
    word: usize,
    slot: usize,
    state: T,
)
    requires table { (place.old.table_id ≡ top.now.table_id) × (5 < top.now.table_id.words) }
    requires lock { HasSlot G.what × (word ≡ lock_at G.what) × (slot ≡ slot_of G.what) }
    requires out { (more : List (ℕ × Option T)) × (place.old.me.1 ≡ (slot_of G.what, None) ∷ more) }
    requires paid { IsPaid G.what place.old.me.0.owes }
    requires ready { IsReady (number_of place.old.me.0.role) place.old.me.0 E.entries }
    requires may { (s : Setting) → IsSettingOf place.old.me.0.opening place.old.me.0.roll s → MayGiveBack (ready_after s place.old.me.0 E.entries) (number_of place.old.me.0.role) G.what × Tells G.what place.old.me.0.opening (ready_after s place.old.me.0 E.entries).state (T.stands state) }
    requires none { (s : Setting) → IsSettingOf place.old.me.0.opening place.old.me.0.roll s → MayDeny top.now.key.limits (ready_after s place.old.me.0 E.entries) (number_of place.old.me.0.role) B.number }
    ensures table { place.new.table_id ≡ place.old.table_id }
    ensures told { Goes (number_of place.old.me.0.role) place.old.me.0 place.new.me.0 E.entries (entry (number_of place.old.me.0.role) (acts.NotLive B.number) ∷ entry (number_of place.old.me.0.role) (acts.GiveLock G.what) ∷ []) × (place.new.me.0.owes ≡ place.old.me.0.owes) }
    ensures slot { (more : List (ℕ × Option T)) → place.old.me.1 ≡ (slot_of G.what, None) ∷ more → place.new.me.1 ≡ more }
{
    deny_give_as::<T, G, B, E>(top, place, word, slot, state);
}

pub(crate) fn deny_leave_by<T: Stands, B: Target, E: Carried>(
    top: &Table<T>,
    place: &mut Seating<T>,
    _prepared: &Prepared,
    _addr: u64,
)
    requires table { (place.old.table_id ≡ top.now.table_id) × (5 < top.now.table_id.words) }
    requires ready { IsReady (number_of place.old.me.0.role) place.old.me.0 E.entries }
    requires may { (s : Setting) → IsSettingOf place.old.me.0.opening place.old.me.0.roll s → MayGoOut (ready_after s place.old.me.0 E.entries) (number_of place.old.me.0.role) }
    requires none { (s : Setting) → IsSettingOf place.old.me.0.opening place.old.me.0.roll s → MayDeny top.now.key.limits (ready_after s place.old.me.0 E.entries) (number_of place.old.me.0.role) B.number }
    ensures table { place.new.table_id ≡ place.old.table_id }
    ensures told { (r : ℕ) × denied_left E.entries B.number (step top.now.table_id.slots 1 1 0 none) place.old.me r place.new.me }
{
    deny_leave_as::<T, B, E>(top, place);
}
