//! The steps on a table, with the entries that they carry. What is passed beside the words is for the proof alone.
ghost use Rattle.std.specs.Prelude.{◌≡◌, ◌*◌, ◌<◌, ◌≤◌, true};
ghost use mathlib.Core.Option.{none};
ghost use Rattle.atomic_table.specs.Table.{step};
ghost use Rattle.heap_model.specs.State.{holds, is_caller, Setting};
ghost use Rattle.heap_model.specs.declared.What.TheVariants as whats;
ghost use Rattle.claim_rule.specs.Entries.{IsSettingOf};
ghost use Rattle.claim_rule.specs.Places.{bitmap_at, bit_of_block, hint_at, tag_at};
ghost use Rattle.claim_rule.specs.Plays.{number_of};
ghost use Rattle.claim_rule.specs.Rule.{IsReady, ready_after};
ghost use Rattle.claim_rule.specs.Shown.{lfh_spans, tag_word, hint_word};
ghost use Rattle.block_steps.specs.Searches.{MayHint, hinted};
ghost use Rattle.look_steps.specs.Looks.{looked_hint, looked_tag};
ghost use Rattle.span_steps.specs.Installs.{IsReserving, MayInstall, installed};
ghost use Rattle.span_steps.specs.Retires.{MayRetire, retired};
ghost use Rattle.span_steps.specs.Stores.{owed_zero, paid_off, put_word};

use block_steps::steps::hint_as;
use claim_rule::Carried;
use heap_gate::Prepared;
use heap_model::Stands;
use look_steps::steps::{look_hint_as, look_tag_as};
use span_steps::steps::{clear_tag_as, install_as, put_hint_as, put_tag_as, retire_as};
use step_parts::{Seating, Table, Target};

/// A subsegment that a step is about: its pages, its bucket and slot.
#[derive(Clone, Copy)]
pub struct Subsegment {
    pub head: u32,
    pub pages: u32,
    pub bucket: u8,
    pub slot: u32,
}

pub(crate) fn hint_by<T: Stands, B: Target, E: Carried>(
    top: &Table<T>,
    place: &mut Seating<T>,
    _prepared: &Prepared,
    _bucket: u8,
    _slot: u32,
    word: usize,
) -> u64
    requires table { (place.old.table_id ≡ top.now.table_id) × (word < top.now.table_id.words) }
    requires word { word ≡ hint_at B.bucket B.slot }
    requires bucket { (1 ≤ B.bucket) × (B.bucket ≤ 128) × (B.slot < 16) }
    requires ready { IsReady (number_of place.old.me.0.role) place.old.me.0 E.entries }
    requires may { (s : Setting) → IsSettingOf place.old.me.0.opening place.old.me.0.roll s → MayHint s (ready_after s place.old.me.0 E.entries) (number_of place.old.me.0.role) B.bucket B.slot place.old.me.0.owes }
    ensures table { place.new.table_id ≡ place.old.table_id }
    ensures told { hinted E.entries B.bucket B.slot (step top.now.table_id.slots word 0 0 none) place.old.me result place.new.me }
{
    hint_as::<T, B, E>(top, place, word)
}

pub(crate) fn look_hint_by<T: Stands, B: Target, E: Carried>(
    top: &Table<T>,
    place: &mut Seating<T>,
    _prepared: &Prepared,
    _bucket: u8,
    _slot: u32,
    word: usize,
) -> u64
    requires table { (place.old.table_id ≡ top.now.table_id) × (word < top.now.table_id.words) }
    requires word { word ≡ hint_at B.bucket B.slot }
    requires part { (1 ≤ B.bucket) × (B.bucket ≤ 128) × (B.slot < 16) }
    requires ready { IsReady (number_of place.old.me.0.role) place.old.me.0 E.entries }
    ensures table { place.new.table_id ≡ place.old.table_id }
    ensures told { looked_hint E.entries B.bucket B.slot (step top.now.table_id.slots word 0 0 none) place.old.me result place.new.me }
{
    look_hint_as::<T, B, E>(top, place, word)
}

pub(crate) fn look_tag_by<T: Stands, B: Target, E: Carried>(
    top: &Table<T>,
    place: &mut Seating<T>,
    _prepared: &Prepared,
    _page: u32,
    word: usize,
) -> u64
    requires table { (place.old.table_id ≡ top.now.table_id) × (word < top.now.table_id.words) }
    requires word { word ≡ tag_at B.number }
    requires part { B.number < 256 * top.now.key.limits.segments }
    requires ready { IsReady (number_of place.old.me.0.role) place.old.me.0 E.entries }
    ensures table { place.new.table_id ≡ place.old.table_id }
    ensures told { looked_tag E.entries B.number (step top.now.table_id.slots word 0 0 none) place.old.me result place.new.me }
{
    look_tag_as::<T, B, E>(top, place, word)
}

pub(crate) fn put_hint_by<T: Stands, B: Target, E: Carried>(
    top: &Table<T>,
    place: &mut Seating<T>,
    _prepared: &Prepared,
    _bucket: u8,
    _slot: u32,
    word: usize,
    value: u64,
)
    requires table { (place.old.table_id ≡ top.now.table_id) × (word < top.now.table_id.words) }
    requires word { word ≡ hint_at B.bucket B.slot }
    requires bucket { (1 ≤ B.bucket) × (B.bucket ≤ 128) × (B.slot < 16) }
    requires ready { IsReady (number_of place.old.me.0.role) place.old.me.0 E.entries }
    requires may { (s : Setting) → IsSettingOf place.old.me.0.opening place.old.me.0.roll s → (holds (ready_after s place.old.me.0 E.entries).state.gate (number_of place.old.me.0.role) whats.Back ≡ true) × (hint_word (ready_after s place.old.me.0 E.entries).state.back.area (ready_after s place.old.me.0 E.entries).now.span_history B.bucket B.slot ≡ value) }
    ensures table { place.new.table_id ≡ place.old.table_id }
    ensures told { put_word E.entries (paid_off (hint_at B.bucket B.slot)) (step top.now.table_id.slots word value 0 none) place.old.me value place.new.me }
{
    put_hint_as::<T, B, E>(top, place, word, value);
}

pub(crate) fn put_tag_by<T: Stands, B: Target, E: Carried>(
    top: &Table<T>,
    place: &mut Seating<T>,
    _prepared: &Prepared,
    _page: u32,
    word: usize,
    value: u64,
)
    requires table { (place.old.table_id ≡ top.now.table_id) × (word < top.now.table_id.words) }
    requires word { word ≡ tag_at B.number }
    requires page { B.number < 256 * top.now.key.limits.segments }
    requires ready { IsReady (number_of place.old.me.0.role) place.old.me.0 E.entries }
    requires may { (s : Setting) → IsSettingOf place.old.me.0.opening place.old.me.0.roll s → (holds (ready_after s place.old.me.0 E.entries).state.gate (number_of place.old.me.0.role) whats.Back ≡ true) × (tag_word (lfh_spans (ready_after s place.old.me.0 E.entries).state.back.area) B.number ≡ value) }
    ensures table { place.new.table_id ≡ place.old.table_id }
    ensures told { put_word E.entries (paid_off (tag_at B.number)) (step top.now.table_id.slots word value 0 none) place.old.me value place.new.me }
{
    put_tag_as::<T, B, E>(top, place, word, value);
}

pub(crate) fn clear_tag_by<T: Stands, B: Target, E: Carried>(
    top: &Table<T>,
    place: &mut Seating<T>,
    _prepared: &Prepared,
    _page: u32,
    word: usize,
)
    requires table { (place.old.table_id ≡ top.now.table_id) × (word < top.now.table_id.words) }
    requires word { word ≡ tag_at B.number }
    requires page { B.number < 256 * top.now.key.limits.segments }
    requires ready { IsReady (number_of place.old.me.0.role) place.old.me.0 E.entries }
    requires may { (s : Setting) → IsSettingOf place.old.me.0.opening place.old.me.0.roll s → (holds (ready_after s place.old.me.0 E.entries).state.gate (number_of place.old.me.0.role) whats.Back ≡ true) × (is_caller (number_of place.old.me.0.role) (ready_after s place.old.me.0 E.entries).state.gate.owner ≡ true) }
    ensures table { place.new.table_id ≡ place.old.table_id }
    ensures told { put_word E.entries (owed_zero (tag_at B.number)) (step top.now.table_id.slots word 0 0 none) place.old.me 0 place.new.me }
{
    clear_tag_as::<T, B, E>(top, place, word);
}

pub(crate) fn install_by<T: Stands, B: Target, R: Carried, E: Carried>(
    top: &Table<T>,
    place: &mut Seating<T>,
    _prepared: &Prepared,
    _subsegment: Subsegment,
    _index: u16,
    _hint: u64,
    _number: u32,
    _reserved: u32,
    word: usize,
    bit: u64,
) -> u64
    requires table { (place.old.table_id ≡ top.now.table_id) × (word < top.now.table_id.words) }
    requires word { word ≡ bitmap_at top.now.key.limits B.head B.index }
    requires bit { bit ≡ bit_of_block B.index }
    requires slot { B.slot < 16 }
    requires reserve { IsReserving (number_of place.old.me.0.role) R.entries }
    requires ready { IsReady (number_of place.old.me.0.role) place.old.me.0 E.entries }
    requires may { (s : Setting) → IsSettingOf place.old.me.0.opening place.old.me.0.roll s → MayInstall s (ready_after s place.old.me.0 E.entries) (number_of place.old.me.0.role) R.entries B.head B.number B.bucket B.slot B.index B.hint place.old.me.0.owes }
    ensures table { place.new.table_id ≡ place.old.table_id }
    ensures told { installed E.entries R.entries B.head B.number B.bucket B.slot B.index B.hint (step top.now.table_id.slots word bit 0 none) place.old.me result place.new.me }
{
    install_as::<T, B, R, E>(top, place, word, bit)
}

pub(crate) fn retire_by<T: Stands, B: Target, E: Carried>(
    top: &Table<T>,
    place: &mut Seating<T>,
    _prepared: &Prepared,
    _subsegment: Subsegment,
    word: usize,
    value: u64,
)
    requires table { (place.old.table_id ≡ top.now.table_id) × (word < top.now.table_id.words) }
    requires word { word ≡ hint_at B.bucket B.slot }
    requires bucket { (1 ≤ B.bucket) × (B.bucket ≤ 128) × (B.slot < 16) }
    requires ready { IsReady (number_of place.old.me.0.role) place.old.me.0 E.entries }
    requires may { (s : Setting) → IsSettingOf place.old.me.0.opening place.old.me.0.roll s → MayRetire s (ready_after s place.old.me.0 E.entries) (number_of place.old.me.0.role) B.head B.number B.bucket B.slot value place.old.me.0.owes }
    ensures table { place.new.table_id ≡ place.old.table_id }
    ensures told { retired E.entries B.head B.number B.bucket B.slot (step top.now.table_id.slots word value 0 none) place.old.me value place.new.me }
{
    retire_as::<T, B, E>(top, place, word, value);
}
