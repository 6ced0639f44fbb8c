//! Each step of these kinds on a table, with the entries that it carries.
ghost use Rattle.heap_model.specs.declared.What.TheVariants as whats;
ghost use Rattle.heap_model.specs.State.{holds, is_caller, Setting};
ghost use Rattle.claim_rule.specs.Shown.{lfh_spans, tag_word, hint_word};
ghost use Rattle.claim_rule.specs.Places.{bitmap_at, bit_of_block, hint_at, active_at, tag_at};
ghost use Rattle.span_steps.specs.Installs.{IsReserving, MayInstall, installed};
ghost use Rattle.claim_rule.specs.Entries.{IsSettingOf};
ghost use Rattle.claim_rule.specs.Plays.{number_of};
ghost use Rattle.span_steps.specs.Retires.{MayRetire, retired};
ghost use Rattle.std.specs.Prelude.{◌≡◌, ◌*◌, ◌<◌, ◌≤◌, true};
ghost use Rattle.span_steps.specs.Stores.{MayActivate, activated, owed_zero, paid_off, put_word};
ghost use mathlib.Core.Option.{none};
ghost use Rattle.atomic_table.specs.Table.{step};
ghost use Rattle.claim_rule.specs.Rule.{IsReady, ready_after};

use crate::plays::{Activates, ClearsTag, InstallsSpan, PutsHint, PutsTag, RetiresSpan};
use claim_rule::Carried;
use heap_model::Stands;
use step_parts::{Seating, Table, Target};

/// A bucket becomes active.
pub fn activate_as<T: Stands, B: Target, E: Carried>(
    top: &Table<T>,
    place: &mut Seating<T>,
    word: usize,
)
    requires table { (place.old.table_id ≡ top.now.table_id) × (word < top.now.table_id.words) }
    requires word { word ≡ active_at B.number }
    requires bucket { B.number < 128 }
    requires ready { IsReady (number_of place.old.me.0.role) place.old.me.0 E.entries }
    requires may { (s : Setting) → IsSettingOf place.old.me.0.opening place.old.me.0.roll s → MayActivate s (ready_after s place.old.me.0 E.entries) (number_of place.old.me.0.role) B.number }
    ensures table { place.new.table_id ≡ place.old.table_id }
    ensures told { activated E.entries B.number (step top.now.table_id.slots word 1 0 none) place.old.me 1 place.new.me }
{
    top.store::<Activates<B, E>>(place, word, 1);
}

/// A tag is stored under the back end's lock.
pub fn put_tag_as<T: Stands, B: Target, E: Carried>(
    top: &Table<T>,
    place: &mut Seating<T>,
    word: usize,
    value: u64,
)
    requires table { (place.old.table_id ≡ top.now.table_id) × (word < top.now.table_id.words) }
    requires word { word ≡ tag_at B.number }
    requires page { B.number < 256 * top.now.key.limits.segments }
    requires ready { IsReady (number_of place.old.me.0.role) place.old.me.0 E.entries }
    requires may { (s : Setting) → IsSettingOf place.old.me.0.opening place.old.me.0.roll s → (holds (ready_after s place.old.me.0 E.entries).state.gate (number_of place.old.me.0.role) whats.Back ≡ true) × (tag_word (lfh_spans (ready_after s place.old.me.0 E.entries).state.back.area) B.number ≡ value) }
    ensures table { place.new.table_id ≡ place.old.table_id }
    ensures told { put_word E.entries (paid_off (tag_at B.number)) (step top.now.table_id.slots word value 0 none) place.old.me value place.new.me }
{
    top.store::<PutsTag<B, E>>(place, word, value);
}

/// A hint is stored under the back end's lock.
pub fn put_hint_as<T: Stands, B: Target, E: Carried>(
    top: &Table<T>,
    place: &mut Seating<T>,
    word: usize,
    value: u64,
)
    requires table { (place.old.table_id ≡ top.now.table_id) × (word < top.now.table_id.words) }
    requires word { word ≡ hint_at B.bucket B.slot }
    requires bucket { (1 ≤ B.bucket) × (B.bucket ≤ 128) × (B.slot < 16) }
    requires ready { IsReady (number_of place.old.me.0.role) place.old.me.0 E.entries }
    requires may { (s : Setting) → IsSettingOf place.old.me.0.opening place.old.me.0.roll s → (holds (ready_after s place.old.me.0 E.entries).state.gate (number_of place.old.me.0.role) whats.Back ≡ true) × (hint_word (ready_after s place.old.me.0 E.entries).state.back.area (ready_after s place.old.me.0 E.entries).now.span_history B.bucket B.slot ≡ value) }
    ensures table { place.new.table_id ≡ place.old.table_id }
    ensures told { put_word E.entries (paid_off (hint_at B.bucket B.slot)) (step top.now.table_id.slots word value 0 none) place.old.me value place.new.me }
{
    top.store::<PutsHint<B, E>>(place, word, value);
}

/// Clears a tag under the back end's lock, for the owner of the heap lock.
pub fn clear_tag_as<T: Stands, B: Target, E: Carried>(
    top: &Table<T>,
    place: &mut Seating<T>,
    word: usize,
)
    requires table { (place.old.table_id ≡ top.now.table_id) × (word < top.now.table_id.words) }
    requires word { word ≡ tag_at B.number }
    requires page { B.number < 256 * top.now.key.limits.segments }
    requires ready { IsReady (number_of place.old.me.0.role) place.old.me.0 E.entries }
    requires may { (s : Setting) → IsSettingOf place.old.me.0.opening place.old.me.0.roll s → (holds (ready_after s place.old.me.0 E.entries).state.gate (number_of place.old.me.0.role) whats.Back ≡ true) × (is_caller (number_of place.old.me.0.role) (ready_after s place.old.me.0 E.entries).state.gate.owner ≡ true) }
    ensures table { place.new.table_id ≡ place.old.table_id }
    ensures told { put_word E.entries (owed_zero (tag_at B.number)) (step top.now.table_id.slots word 0 0 none) place.old.me 0 place.new.me }
{
    top.store::<ClearsTag<B, E>>(place, word, 0);
}

/// Makes a subsegment and claims its first block by one step.
pub fn install_as<T: Stands, B: Target, R: Carried, E: Carried>(
    top: &Table<T>,
    place: &mut Seating<T>,
    word: usize,
    bit: u64,
) -> u64
    requires table { (place.old.table_id ≡ top.now.table_id) × (word < top.now.table_id.words) }
    requires word { word ≡ bitmap_at top.now.key.limits B.head B.index }
    requires bit { bit ≡ bit_of_block B.index }
    requires slot { B.slot < 16 }
    requires reserve { IsReserving (number_of place.old.me.0.role) R.entries }
    requires ready { IsReady (number_of place.old.me.0.role) place.old.me.0 E.entries }
    requires may { (s : Setting) → IsSettingOf place.old.me.0.opening place.old.me.0.roll s → MayInstall s (ready_after s place.old.me.0 E.entries) (number_of place.old.me.0.role) R.entries B.head B.number B.bucket B.slot B.index B.hint place.old.me.0.owes }
    ensures table { place.new.table_id ≡ place.old.table_id }
    ensures told { installed E.entries R.entries B.head B.number B.bucket B.slot B.index B.hint (step top.now.table_id.slots word bit 0 none) place.old.me result place.new.me }
{
    top.fetch_or::<InstallsSpan<B, R, E>>(place, word, bit)
}

/// Gives a subsegment without places back, and stores the hint of its bucket and slot, by one step.
pub fn retire_as<T: Stands, B: Target, E: Carried>(
    top: &Table<T>,
    place: &mut Seating<T>,
    word: usize,
    value: u64,
)
    requires table { (place.old.table_id ≡ top.now.table_id) × (word < top.now.table_id.words) }
    requires word { word ≡ hint_at B.bucket B.slot }
    requires bucket { (1 ≤ B.bucket) × (B.bucket ≤ 128) × (B.slot < 16) }
    requires ready { IsReady (number_of place.old.me.0.role) place.old.me.0 E.entries }
    requires may { (s : Setting) → IsSettingOf place.old.me.0.opening place.old.me.0.roll s → MayRetire s (ready_after s place.old.me.0 E.entries) (number_of place.old.me.0.role) B.head B.number B.bucket B.slot value place.old.me.0.owes }
    ensures table { place.new.table_id ≡ place.old.table_id }
    ensures told { retired E.entries B.head B.number B.bucket B.slot (step top.now.table_id.slots word value 0 none) place.old.me value place.new.me }
{
    top.store::<RetiresSpan<B, E>>(place, word, value);
}
