//! Each step on the table, with the entries that it carries. Arguments whose names begin with `_` are for the proof alone.
ghost use mir.Syntax.{w64};
ghost use mathlib.Core.Option.{none};
ghost use Rattle.std.specs.Prelude.{◌≡◌, ◌+◌, ◌*◌, ◌/◌, ◌<◌};
ghost use Rattle.std.specs.Int.{bit_not};
ghost use Rattle.atomic_table.specs.Table.{step};
ghost use Rattle.heap_model.specs.Buckets.{block_address};
ghost use Rattle.heap_model.specs.State.{Setting};
ghost use Rattle.claim_rule.specs.Entries.{IsSettingOf};
ghost use Rattle.claim_rule.specs.Places.{active_at, bitmap_at, bit_of_block, size_at, tag_at, word_at_page};
ghost use Rattle.claim_rule.specs.Plays.{number_of};
ghost use Rattle.claim_rule.specs.Rule.{IsReady, ready_after};
ghost use Rattle.step_parts.specs.Claims.{MayClaim, IsUnder};
ghost use Rattle.block_steps.specs.Claims.{claimed};
ghost use Rattle.block_steps.specs.Blocks.{MayClear, MayPublish, MayAsk, cleared, published, taken_block, sized};
ghost use Rattle.block_steps.specs.Searches.{MaySee, saw};
ghost use Rattle.span_steps.specs.Stores.{MayActivate, activated};
ghost use Rattle.look_steps.specs.Looks.{looked_bits, looked_size, looked_tag, asked_active};

use crate::tag::Tag;
use block_steps::steps::{claim_as, clear_as, publish_as, see_as, size_as, take_block_as};
use claim_rule::Carried;
use heap_gate::Prepared;
use heap_model::Stands;
use look_steps::steps::{ask_active_as, look_bits_as, look_size_as, look_tag_as};
use span_steps::steps::activate_as;
use step_parts::{Seating, Table, Target};

pub(crate) fn see_by<T: Stands, B: Target, E: Carried>(
    top: &Table<T>,
    place: &mut Seating<T>,
    _prepared: &Prepared,
    _number: u32,
    _head: u32,
    _word: u32,
    at: usize,
) -> u64
    requires table { (place.old.table_id ≡ top.now.table_id) × (at < top.now.table_id.words) }
    requires word { at ≡ word_at_page top.now.key.limits B.head B.index }
    requires few { B.index < 4 }
    requires ready { IsReady (number_of place.old.me.0.role) place.old.me.0 E.entries }
    requires may { (s : Setting) → IsSettingOf place.old.me.0.opening place.old.me.0.roll s → MaySee s (ready_after s place.old.me.0 E.entries) (number_of place.old.me.0.role) B.head B.bucket B.slot B.index }
    ensures table { place.new.table_id ≡ place.old.table_id }
    ensures told { saw E.entries B.head B.index (step top.now.table_id.slots at 0 0 none) place.old.me result place.new.me }
{
    see_as::<T, B, E>(top, place, at)
}

pub(crate) fn claim_by<T: Stands, B: Target, E: Carried>(
    top: &Table<T>,
    place: &mut Seating<T>,
    _prepared: &Prepared,
    _number: u32,
    _head: u32,
    _index: u16,
    at: usize,
    bit: u64,
) -> u64
    requires table { (place.old.table_id ≡ top.now.table_id) × (at < top.now.table_id.words) }
    requires word { at ≡ bitmap_at top.now.key.limits B.head B.index }
    requires bit { bit ≡ bit_of_block B.index }
    requires slot { B.slot < 16 }
    requires ready { IsReady (number_of place.old.me.0.role) place.old.me.0 E.entries }
    requires may { (s : Setting) → IsSettingOf place.old.me.0.opening place.old.me.0.roll s → MayClaim s (ready_after s place.old.me.0 E.entries) (number_of place.old.me.0.role) B.head B.bucket B.slot B.index × IsUnder (ready_after s place.old.me.0 E.entries) (number_of place.old.me.0.role) B.bucket B.slot B.back B.hint place.old.me.0.owes }
    ensures table { place.new.table_id ≡ place.old.table_id }
    ensures told { claimed E.entries B.head B.bucket B.slot B.index B.back B.hint (step top.now.table_id.slots at bit 0 none) place.old.me result place.new.me }
{
    claim_as::<T, B, E>(top, place, at, bit)
}

pub(crate) fn publish_by<T: Stands, B: Target, E: Carried>(
    top: &Table<T>,
    place: &mut Seating<T>,
    _prepared: &Prepared,
    _addr: u64,
    _size: u64,
    at: usize,
    value: u64,
)
    requires table { (place.old.table_id ≡ top.now.table_id) × (at < top.now.table_id.words) }
    requires word { at ≡ size_at top.now.key.limits B.number }
    requires value { value ≡ B.size + 1 }
    requires ready { IsReady (number_of place.old.me.0.role) place.old.me.0 E.entries }
    requires may { (s : Setting) → IsSettingOf place.old.me.0.opening place.old.me.0.roll s → MayPublish s (ready_after s place.old.me.0 E.entries) (number_of place.old.me.0.role) B.number B.size }
    ensures table { place.new.table_id ≡ place.old.table_id }
    ensures told { published E.entries B.number B.size (step top.now.table_id.slots at value 0 none) place.old.me value place.new.me }
{
    publish_as::<T, B, E>(top, place, at, value);
}

pub(crate) fn take_by<T: Stands, B: Target, E: Carried>(
    top: &Table<T>,
    place: &mut Seating<T>,
    _prepared: &Prepared,
    _tag: Tag,
    _addr: u64,
    at: usize,
) -> u64
    requires table { (place.old.table_id ≡ top.now.table_id) × (at < top.now.table_id.words) }
    requires word { at ≡ size_at top.now.key.limits B.number }
    requires ready { IsReady (number_of place.old.me.0.role) place.old.me.0 E.entries }
    requires may { (s : Setting) → IsSettingOf place.old.me.0.opening place.old.me.0.roll s → MayAsk (ready_after s place.old.me.0 E.entries) (number_of place.old.me.0.role) B.head B.bucket B.slot B.number }
    ensures table { place.new.table_id ≡ place.old.table_id }
    ensures told { taken_block E.entries B.head B.bucket B.number (step top.now.table_id.slots at 0 0 none) place.old.me result place.new.me }
{
    take_block_as::<T, B, E>(top, place, at)
}

pub(crate) fn size_by<T: Stands, B: Target, E: Carried>(
    top: &Table<T>,
    place: &mut Seating<T>,
    _prepared: &Prepared,
    _tag: Tag,
    _addr: u64,
    at: usize,
) -> u64
    requires table { (place.old.table_id ≡ top.now.table_id) × (at < top.now.table_id.words) }
    requires word { at ≡ size_at top.now.key.limits B.number }
    requires ready { IsReady (number_of place.old.me.0.role) place.old.me.0 E.entries }
    requires may { (s : Setting) → IsSettingOf place.old.me.0.opening place.old.me.0.roll s → MayAsk (ready_after s place.old.me.0 E.entries) (number_of place.old.me.0.role) B.head B.bucket B.slot B.number }
    ensures table { place.new.table_id ≡ place.old.table_id }
    ensures told { sized E.entries B.number (step top.now.table_id.slots at 0 0 none) place.old.me result place.new.me }
{
    size_as::<T, B, E>(top, place, at)
}

pub(crate) fn clear_by<T: Stands, B: Target, E: Carried>(
    top: &Table<T>,
    place: &mut Seating<T>,
    _prepared: &Prepared,
    _tag: Tag,
    _index: u16,
    at: usize,
    others: u64,
) -> u64
    requires table { (place.old.table_id ≡ top.now.table_id) × (at < top.now.table_id.words) }
    requires word { at ≡ bitmap_at top.now.key.limits B.head B.index }
    requires others { others ≡ bit_not w64 (bit_of_block B.index) }
    requires ready { IsReady (number_of place.old.me.0.role) place.old.me.0 E.entries }
    requires may { (s : Setting) → IsSettingOf place.old.me.0.opening place.old.me.0.roll s → MayClear s (ready_after s place.old.me.0 E.entries) (number_of place.old.me.0.role) B.head B.bucket B.slot B.index }
    ensures table { place.new.table_id ≡ place.old.table_id }
    ensures told { cleared E.entries (block_address B.bucket B.head B.index) (step top.now.table_id.slots at others 0 none) place.old.me result place.new.me }
{
    clear_as::<T, B, E>(top, place, at, others)
}

pub(crate) fn activate_by<T: Stands, B: Target, E: Carried>(
    top: &Table<T>,
    place: &mut Seating<T>,
    _prepared: &Prepared,
    _bucket: u8,
    at: usize,
)
    requires table { (place.old.table_id ≡ top.now.table_id) × (at < top.now.table_id.words) }
    requires word { at ≡ active_at B.number }
    requires bucket { B.number < 128 }
    requires ready { IsReady (number_of place.old.me.0.role) place.old.me.0 E.entries }
    requires may { (s : Setting) → IsSettingOf place.old.me.0.opening place.old.me.0.roll s → MayActivate s (ready_after s place.old.me.0 E.entries) (number_of place.old.me.0.role) B.number }
    ensures table { place.new.table_id ≡ place.old.table_id }
    ensures told { activated E.entries B.number (step top.now.table_id.slots at 1 0 none) place.old.me 1 place.new.me }
{
    activate_as::<T, B, E>(top, place, at);
}

pub(crate) fn active_by<T: Stands, B: Target, E: Carried>(
    top: &Table<T>,
    place: &mut Seating<T>,
    _prepared: &Prepared,
    _bucket: u8,
    at: usize,
) -> u64
    requires table { (place.old.table_id ≡ top.now.table_id) × (at < top.now.table_id.words) }
    requires word { at ≡ active_at B.number }
    requires bucket { B.number < 128 }
    requires ready { IsReady (number_of place.old.me.0.role) place.old.me.0 E.entries }
    ensures table { place.new.table_id ≡ place.old.table_id }
    ensures told { asked_active E.entries B.number (step top.now.table_id.slots at 0 0 none) place.old.me result place.new.me }
{
    ask_active_as::<T, B, E>(top, place, at)
}

pub(crate) fn tag_by<T: Stands, B: Target, E: Carried>(
    top: &Table<T>,
    place: &mut Seating<T>,
    _prepared: &Prepared,
    _page: u32,
    at: usize,
) -> u64
    requires table { (place.old.table_id ≡ top.now.table_id) × (at < top.now.table_id.words) }
    requires word { at ≡ tag_at B.number }
    requires page { B.number < 256 * top.now.key.limits.segments }
    requires ready { IsReady (number_of place.old.me.0.role) place.old.me.0 E.entries }
    ensures table { place.new.table_id ≡ place.old.table_id }
    ensures told { looked_tag E.entries B.number (step top.now.table_id.slots at 0 0 none) place.old.me result place.new.me }
{
    look_tag_as::<T, B, E>(top, place, at)
}

pub(crate) fn bits_by<T: Stands, B: Target, E: Carried>(
    top: &Table<T>,
    place: &mut Seating<T>,
    _prepared: &Prepared,
    _head: u32,
    _word: u32,
    at: usize,
) -> u64
    requires table { (place.old.table_id ≡ top.now.table_id) × (at < top.now.table_id.words) }
    requires word { at ≡ word_at_page top.now.key.limits B.head B.index }
    requires part { (B.index < 4) × (B.head < 256 * top.now.key.limits.segments) }
    requires ready { IsReady (number_of place.old.me.0.role) place.old.me.0 E.entries }
    ensures table { place.new.table_id ≡ place.old.table_id }
    ensures told { looked_bits E.entries B.head B.index (step top.now.table_id.slots at 0 0 none) place.old.me result place.new.me }
{
    look_bits_as::<T, B, E>(top, place, at)
}

pub(crate) fn look_size_by<T: Stands, B: Target, E: Carried>(
    top: &Table<T>,
    place: &mut Seating<T>,
    _prepared: &Prepared,
    _addr: u64,
    at: usize,
) -> u64
    requires table { (place.old.table_id ≡ top.now.table_id) × (at < top.now.table_id.words) }
    requires word { at ≡ size_at top.now.key.limits B.number }
    requires part { B.number / 16 < 65536 * top.now.key.limits.segments }
    requires ready { IsReady (number_of place.old.me.0.role) place.old.me.0 E.entries }
    ensures table { place.new.table_id ≡ place.old.table_id }
    ensures told { looked_size E.entries B.number (step top.now.table_id.slots at 0 0 none) place.old.me result place.new.me }
{
    look_size_as::<T, B, E>(top, place, at)
}
