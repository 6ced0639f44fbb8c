//! Each step of these kinds on a table, with the entries that it carries.
ghost use Rattle.heap_model.specs.State.{Setting};
ghost use Rattle.claim_rule.specs.Places.{size_at, word_at_page, hint_at, active_at, tag_at, lock_at};
ghost use Rattle.look_steps.specs.Denials.{MayDeny, denied, denied_left};
ghost use Rattle.claim_rule.specs.Steps.{MayGoOut};
ghost use Rattle.claim_rule.specs.Entries.{entry, IsSettingOf};
ghost use Rattle.claim_rule.specs.Plays.{Goes, number_of};
ghost use Rattle.look_steps.specs.Looks.{looked_bits, looked_size, looked_hint, looked_tag, asked_active};
ghost use Rattle.std.specs.Prelude.{◌/◌, [], ◌≡◌, ℕ, ◌+◌, ◌*◌, ◌<◌, ◌≤◌, List, ◌∷◌, Some, None, Option};
ghost use mathlib.Core.Option.{none};
ghost use Rattle.atomic_table.specs.Table.{step};
ghost use Rattle.heap_model.specs.declared.Act.TheVariants as acts;
ghost use Rattle.claim_rule.specs.Rule.{IsReady, ready_after};
ghost use Rattle.claim_rule.specs.Home.{HasSlot, slot_of, Tells};
ghost use Rattle.lock_steps.specs.Locks.{IsPaid, MayGiveBack};

use crate::plays::{
    AsksActive, Denies, DeniesGiving, DeniesLeaving, LooksBits, LooksHint, LooksSize, LooksTag,
};
use claim_rule::Carried;
use heap_model::Stands;
use step_parts::{Guards, Seating, Table, Target};

/// Reads an active word.
pub fn ask_active_as<T: Stands, B: Target, E: Carried>(
    top: &Table<T>,
    place: &mut Seating<T>,
    word: usize,
) -> u64
    requires table { (place.old.table_id ≡ top.now.table_id) × (word < top.now.table_id.words) }
    requires word { word ≡ active_at B.number }
    requires bucket { B.number < 128 }
    requires ready { IsReady (number_of place.old.me.0.role) place.old.me.0 E.entries }
    ensures table { place.new.table_id ≡ place.old.table_id }
    ensures told { asked_active E.entries B.number (step top.now.table_id.slots word 0 0 none) place.old.me result place.new.me }
{
    top.load::<AsksActive<B, E>>(place, word)
}

/// Reads a word of a bitmap without an entry.
pub fn look_bits_as<T: Stands, B: Target, E: Carried>(
    top: &Table<T>,
    place: &mut Seating<T>,
    word: usize,
) -> u64
    requires table { (place.old.table_id ≡ top.now.table_id) × (word < top.now.table_id.words) }
    requires word { word ≡ word_at_page top.now.key.limits B.head B.index }
    requires part { (B.index < 4) × (B.head < 256 * top.now.key.limits.segments) }
    requires ready { IsReady (number_of place.old.me.0.role) place.old.me.0 E.entries }
    ensures table { place.new.table_id ≡ place.old.table_id }
    ensures told { looked_bits E.entries B.head B.index (step top.now.table_id.slots word 0 0 none) place.old.me result place.new.me }
{
    top.load::<LooksBits<B, E>>(place, word)
}

/// Reads a size word without an entry.
pub fn look_size_as<T: Stands, B: Target, E: Carried>(
    top: &Table<T>,
    place: &mut Seating<T>,
    word: usize,
) -> u64
    requires table { (place.old.table_id ≡ top.now.table_id) × (word < top.now.table_id.words) }
    requires word { word ≡ size_at top.now.key.limits B.number }
    requires part { B.number / 16 < 65536 * top.now.key.limits.segments }
    requires ready { IsReady (number_of place.old.me.0.role) place.old.me.0 E.entries }
    ensures table { place.new.table_id ≡ place.old.table_id }
    ensures told { looked_size E.entries B.number (step top.now.table_id.slots word 0 0 none) place.old.me result place.new.me }
{
    top.load::<LooksSize<B, E>>(place, word)
}

/// Reads a hint without an entry.
pub fn look_hint_as<T: Stands, B: Target, E: Carried>(
    top: &Table<T>,
    place: &mut Seating<T>,
    word: usize,
) -> u64
    requires table { (place.old.table_id ≡ top.now.table_id) × (word < top.now.table_id.words) }
    requires word { word ≡ hint_at B.bucket B.slot }
    requires part { (1 ≤ B.bucket) × (B.bucket ≤ 128) × (B.slot < 16) }
    requires ready { IsReady (number_of place.old.me.0.role) place.old.me.0 E.entries }
    ensures table { place.new.table_id ≡ place.old.table_id }
    ensures told { looked_hint E.entries B.bucket B.slot (step top.now.table_id.slots word 0 0 none) place.old.me result place.new.me }
{
    top.load::<LooksHint<B, E>>(place, word)
}

/// Reads a tag.
pub fn look_tag_as<T: Stands, B: Target, E: Carried>(
    top: &Table<T>,
    place: &mut Seating<T>,
    word: usize,
) -> u64
    requires table { (place.old.table_id ≡ top.now.table_id) × (word < top.now.table_id.words) }
    requires word { word ≡ tag_at B.number }
    requires part { B.number < 256 * top.now.key.limits.segments }
    requires ready { IsReady (number_of place.old.me.0.role) place.old.me.0 E.entries }
    ensures table { place.new.table_id ≡ place.old.table_id }
    ensures told { looked_tag E.entries B.number (step top.now.table_id.slots word 0 0 none) place.old.me result place.new.me }
{
    top.load::<LooksTag<B, E>>(place, word)
}

/// Says with a load of a word that no live block has an address.
pub fn deny_as<T: Stands, B: Target, E: Carried>(
    top: &Table<T>,
    place: &mut Seating<T>,
    word: usize,
)
    requires table { (place.old.table_id ≡ top.now.table_id) × (word < top.now.table_id.words) }
    requires ready { IsReady (number_of place.old.me.0.role) place.old.me.0 E.entries }
    requires may { (s : Setting) → IsSettingOf place.old.me.0.opening place.old.me.0.roll s → MayDeny top.now.key.limits (ready_after s place.old.me.0 E.entries) (number_of place.old.me.0.role) B.number }
    ensures table { place.new.table_id ≡ place.old.table_id }
    ensures told { (r : ℕ) × denied E.entries B.number (step top.now.table_id.slots word 0 0 none) place.old.me r place.new.me }
{
    top.load::<Denies<B, E>>(place, word);
}

/// Puts the state into its slot, and gives the lock back with the word that no live block has an address.
pub fn deny_give_as<T: Stands + Drop, G: Guards, B: Target, E: Carried>(
    top: &Table<T>,
    place: &mut Seating<T>,
    word: usize,
    slot: usize,
    state: T,
)
    requires table { (place.old.table_id ≡ top.now.table_id) × (5 < top.now.table_id.words) }
    requires lock { HasSlot G.what × (word ≡ lock_at G.what) × (slot ≡ slot_of G.what) }
    requires out { (more : List (ℕ × Option T)) × (place.old.me.1 ≡ (slot_of G.what, None) ∷ more) }
    requires paid { IsPaid G.what place.old.me.0.owes }
    requires ready { IsReady (number_of place.old.me.0.role) place.old.me.0 E.entries }
    requires may { (s : Setting) → IsSettingOf place.old.me.0.opening place.old.me.0.roll s → MayGiveBack (ready_after s place.old.me.0 E.entries) (number_of place.old.me.0.role) G.what × Tells G.what place.old.me.0.opening (ready_after s place.old.me.0 E.entries).state (T.stands state) }
    requires none { (s : Setting) → IsSettingOf place.old.me.0.opening place.old.me.0.roll s → MayDeny top.now.key.limits (ready_after s place.old.me.0 E.entries) (number_of place.old.me.0.role) B.number }
    ensures table { place.new.table_id ≡ place.old.table_id }
    ensures told { Goes (number_of place.old.me.0.role) place.old.me.0 place.new.me.0 E.entries (entry (number_of place.old.me.0.role) (acts.NotLive B.number) ∷ entry (number_of place.old.me.0.role) (acts.GiveLock G.what) ∷ []) × (place.new.me.0.owes ≡ place.old.me.0.owes) }
    ensures slot { (more : List (ℕ × Option T)) → place.old.me.1 ≡ (slot_of G.what, None) ∷ more → place.new.me.1 ≡ more }
{
    let _empty = top.exchange(place, slot, Some(state));
    top.store::<DeniesGiving<G, B, E>>(place, word, 0);
}

/// Leaves with the word that no live block has an address.
pub fn deny_leave_as<T: Stands, B: Target, E: Carried>(top: &Table<T>, place: &mut Seating<T>)
    requires table { (place.old.table_id ≡ top.now.table_id) × (1 < top.now.table_id.words) }
    requires ready { IsReady (number_of place.old.me.0.role) place.old.me.0 E.entries }
    requires may { (s : Setting) → IsSettingOf place.old.me.0.opening place.old.me.0.roll s → MayGoOut (ready_after s place.old.me.0 E.entries) (number_of place.old.me.0.role) }
    requires none { (s : Setting) → IsSettingOf place.old.me.0.opening place.old.me.0.roll s → MayDeny top.now.key.limits (ready_after s place.old.me.0 E.entries) (number_of place.old.me.0.role) B.number }
    ensures table { place.new.table_id ≡ place.old.table_id }
    ensures told { (r : ℕ) × denied_left E.entries B.number (step top.now.table_id.slots 1 1 0 none) place.old.me r place.new.me }
{
    top.fetch_sub::<DeniesLeaving<B, E>>(place, 1, 1);
}
