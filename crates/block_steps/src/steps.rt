//! Each step of these kinds on a table, with the entries that it carries.
ghost use mir.Syntax.{w64};
ghost use Rattle.std.specs.Int.{bit_not};
ghost use Rattle.heap_model.specs.Buckets.{block_address};
ghost use Rattle.heap_model.specs.State.{Setting};
ghost use Rattle.claim_rule.specs.Places.{bitmap_at, bit_of_block, size_at, word_at_page, hint_at};
ghost use Rattle.step_parts.specs.Claims.{MayClaim, IsUnder};
ghost use Rattle.block_steps.specs.Claims.{claimed};
ghost use Rattle.block_steps.specs.Blocks.{MayClear, MayPublish, MayAsk, cleared, published, taken_block, sized};
ghost use Rattle.claim_rule.specs.Entries.{IsSettingOf};
ghost use Rattle.claim_rule.specs.Plays.{number_of};
ghost use Rattle.std.specs.Prelude.{◌≡◌, ◌+◌, ◌<◌, ◌≤◌};
ghost use Rattle.block_steps.specs.Searches.{MaySee, MayHint, saw, hinted};
ghost use mathlib.Core.Option.{none};
ghost use Rattle.atomic_table.specs.Table.{step};
ghost use Rattle.claim_rule.specs.Rule.{IsReady, ready_after};

use crate::plays::{AsksSize, ClaimsBlock, Clears, Hints, Publishes, Sees, TakesBlock};
use claim_rule::Carried;
use heap_model::Stands;
use step_parts::{Seating, Table, Target};

/// A caller claims the block that its search has picked, or another has it.
pub fn claim_as<T: Stands, B: Target, E: Carried>(
    top: &Table<T>,
    place: &mut Seating<T>,
    word: usize,
    bit: u64,
) -> u64
    requires table { (place.old.table_id ≡ top.now.table_id) × (word < top.now.table_id.words) }
    requires word { word ≡ bitmap_at top.now.key.limits B.head B.index }
    requires bit { bit ≡ bit_of_block B.index }
    requires slot { B.slot < 16 }
    requires ready { IsReady (number_of place.old.me.0.role) place.old.me.0 E.entries }
    requires may { (s : Setting) → IsSettingOf place.old.me.0.opening place.old.me.0.roll s → MayClaim s (ready_after s place.old.me.0 E.entries) (number_of place.old.me.0.role) B.head B.bucket B.slot B.index × IsUnder (ready_after s place.old.me.0 E.entries) (number_of place.old.me.0.role) B.bucket B.slot B.back B.hint place.old.me.0.owes }
    ensures table { place.new.table_id ≡ place.old.table_id }
    ensures told { claimed E.entries B.head B.bucket B.slot B.index B.back B.hint (step top.now.table_id.slots word bit 0 none) place.old.me result place.new.me }
{
    top.fetch_or::<ClaimsBlock<B, E>>(place, word, bit)
}

/// A caller gives the bit of a block in its hand back.
pub fn clear_as<T: Stands, B: Target, E: Carried>(
    top: &Table<T>,
    place: &mut Seating<T>,
    word: usize,
    others: u64,
) -> u64
    requires table { (place.old.table_id ≡ top.now.table_id) × (word < top.now.table_id.words) }
    requires word { word ≡ bitmap_at top.now.key.limits B.head B.index }
    requires others { others ≡ bit_not w64 (bit_of_block B.index) }
    requires ready { IsReady (number_of place.old.me.0.role) place.old.me.0 E.entries }
    requires may { (s : Setting) → IsSettingOf place.old.me.0.opening place.old.me.0.roll s → MayClear s (ready_after s place.old.me.0 E.entries) (number_of place.old.me.0.role) B.head B.bucket B.slot B.index }
    ensures table { place.new.table_id ≡ place.old.table_id }
    ensures told { cleared E.entries (block_address B.bucket B.head B.index) (step top.now.table_id.slots word others 0 none) place.old.me result place.new.me }
{
    top.fetch_and::<Clears<B, E>>(place, word, others)
}

/// A block in hand becomes live.
pub fn publish_as<T: Stands, B: Target, E: Carried>(
    top: &Table<T>,
    place: &mut Seating<T>,
    word: usize,
    value: u64,
)
    requires table { (place.old.table_id ≡ top.now.table_id) × (word < top.now.table_id.words) }
    requires word { word ≡ size_at top.now.key.limits B.number }
    requires value { value ≡ B.size + 1 }
    requires ready { IsReady (number_of place.old.me.0.role) place.old.me.0 E.entries }
    requires may { (s : Setting) → IsSettingOf place.old.me.0.opening place.old.me.0.roll s → MayPublish s (ready_after s place.old.me.0 E.entries) (number_of place.old.me.0.role) B.number B.size }
    ensures table { place.new.table_id ≡ place.old.table_id }
    ensures told { published E.entries B.number B.size (step top.now.table_id.slots word value 0 none) place.old.me value place.new.me }
{
    top.store::<Publishes<B, E>>(place, word, value);
}

/// A live block is taken in hand, or none is there.
pub fn take_block_as<T: Stands, B: Target, E: Carried>(
    top: &Table<T>,
    place: &mut Seating<T>,
    word: usize,
) -> u64
    requires table { (place.old.table_id ≡ top.now.table_id) × (word < top.now.table_id.words) }
    requires word { word ≡ size_at top.now.key.limits B.number }
    requires ready { IsReady (number_of place.old.me.0.role) place.old.me.0 E.entries }
    requires may { (s : Setting) → IsSettingOf place.old.me.0.opening place.old.me.0.roll s → MayAsk (ready_after s place.old.me.0 E.entries) (number_of place.old.me.0.role) B.head B.bucket B.slot B.number }
    ensures table { place.new.table_id ≡ place.old.table_id }
    ensures told { taken_block E.entries B.head B.bucket B.number (step top.now.table_id.slots word 0 0 none) place.old.me result place.new.me }
{
    top.swap::<TakesBlock<B, E>>(place, word, 0)
}

/// The size of a live block is read, or none is there.
pub fn size_as<T: Stands, B: Target, E: Carried>(
    top: &Table<T>,
    place: &mut Seating<T>,
    word: usize,
) -> u64
    requires table { (place.old.table_id ≡ top.now.table_id) × (word < top.now.table_id.words) }
    requires word { word ≡ size_at top.now.key.limits B.number }
    requires ready { IsReady (number_of place.old.me.0.role) place.old.me.0 E.entries }
    requires may { (s : Setting) → IsSettingOf place.old.me.0.opening place.old.me.0.roll s → MayAsk (ready_after s place.old.me.0 E.entries) (number_of place.old.me.0.role) B.head B.bucket B.slot B.number }
    ensures table { place.new.table_id ≡ place.old.table_id }
    ensures told { sized E.entries B.number (step top.now.table_id.slots word 0 0 none) place.old.me result place.new.me }
{
    top.load::<AsksSize<B, E>>(place, word)
}

/// A word of a bitmap is read.
pub fn see_as<T: Stands, B: Target, E: Carried>(
    top: &Table<T>,
    place: &mut Seating<T>,
    word: usize,
) -> u64
    requires table { (place.old.table_id ≡ top.now.table_id) × (word < top.now.table_id.words) }
    requires word { word ≡ word_at_page top.now.key.limits B.head B.index }
    requires few { B.index < 4 }
    requires ready { IsReady (number_of place.old.me.0.role) place.old.me.0 E.entries }
    requires may { (s : Setting) → IsSettingOf place.old.me.0.opening place.old.me.0.roll s → MaySee s (ready_after s place.old.me.0 E.entries) (number_of place.old.me.0.role) B.head B.bucket B.slot B.index }
    ensures table { place.new.table_id ≡ place.old.table_id }
    ensures told { saw E.entries B.head B.index (step top.now.table_id.slots word 0 0 none) place.old.me result place.new.me }
{
    top.load::<Sees<B, E>>(place, word)
}

/// A hint is read, before a search.
pub fn hint_as<T: Stands, B: Target, E: Carried>(
    top: &Table<T>,
    place: &mut Seating<T>,
    word: usize,
) -> u64
    requires table { (place.old.table_id ≡ top.now.table_id) × (word < top.now.table_id.words) }
    requires word { word ≡ hint_at B.bucket B.slot }
    requires bucket { (1 ≤ B.bucket) × (B.bucket ≤ 128) × (B.slot < 16) }
    requires ready { IsReady (number_of place.old.me.0.role) place.old.me.0 E.entries }
    requires may { (s : Setting) → IsSettingOf place.old.me.0.opening place.old.me.0.roll s → MayHint s (ready_after s place.old.me.0 E.entries) (number_of place.old.me.0.role) B.bucket B.slot place.old.me.0.owes }
    ensures table { place.new.table_id ≡ place.old.table_id }
    ensures told { hinted E.entries B.bucket B.slot (step top.now.table_id.slots word 0 0 none) place.old.me result place.new.me }
{
    top.load::<Hints<B, E>>(place, word)
}
