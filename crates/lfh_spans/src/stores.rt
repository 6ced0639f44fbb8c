//! Steps of a caller on words of subsegments, each or all of a kind: a word looked at, tags stored and cleared, a subsegment made
//! and given up.
ghost use Rattle.std.specs.Prelude.{◌≡◌, ◌+◌, ◌*◌, ◌<◌, ◌≤◌, ◌∷◌, [], true, false, length, Some, None, if◌then◌else◌, ◌==◌};
ghost use Rattle.heap_model.specs.declared.Act.TheVariants.{Unspan};
ghost use Rattle.heap_model.specs.declared.What.TheVariants as whats;
ghost use Rattle.claim_rule.specs.Entries.{entry};
ghost use Rattle.claim_rule.specs.Places.{hint_at, tag_at};
ghost use Rattle.look_steps.specs.Looks.{IsHintWord, IsTagWord};
ghost use Rattle.span_steps.specs.Installs.{MayInstall, owed_tags};
ghost use Rattle.span_steps.specs.Retires.{MayRetire, owed_by_retire};
ghost use Rattle.span_steps.specs.Stores.{owed_zero, paid_off};
ghost use Rattle.claim_rule.specs.Shown.{hint_word};
ghost use Rattle.lfh_buckets.specs.Blocks.{IsBucket};
ghost use Rattle.heap_gate.specs.Token.{Always, now, is_out};
ghost use Rattle.heap_gate.specs.Calls.{Runs, Stands as Standing, stance};
ghost use Rattle.lfh_spans.specs.Stores.{AreTagged, HasMade, paid_tags, reserving_in};

use crate::steps::{
    Subsegment, clear_tag_by, install_by, look_hint_by, look_tag_by, put_hint_by, put_tag_by,
    retire_by,
};
use heap_gate::{Caller, Heap, Told};
use heap_model::Stands;
use std::marker::Brand;
use table_words::{bitmap_at, hint_at, tag_at};

/// The first page that a hint names.
pub fn named(word: u64) -> Option<u32>
    requires { word < 4294967296 }
    ensures { result ≡ (if word == 0 then None else Some word) }
{
    if word == 0 { None } else { Some(word as u32) }
}

/// Loads a hint, with no entry.
pub fn look_hint<T: Stands>(heap: &Heap<T>, c: &mut Caller<T>, bucket: u8, slot: u32) -> u64
    requires table { (c.old.table ≡ heap.now.table) × (c.old.opening ≡ heap.now.opening) }
    requires whole { c.old.whole ≡ true }
    requires bucket { IsBucket bucket }
    requires slot { slot < 16 }
    ensures runs { Runs c.old c.new [] }
    ensures stands { Standing c.new (stance c.old) }
    ensures word { Always c.new (λ s. IsHintWord (now s c.new) c.old.number bucket slot c.old.owes result) }
    ensures small { result < 256 * c.new.opening.limits.segments }
    ensures known { c.old.number < length c.old.roll }
{
    let limits = heap.limits();
    let at = hint_at(bucket, slot as u8) as usize;
    let word = look_hint_by::<T, Brand, Brand>(
        &heap.table.shared,
        &mut c.place,
        &c.prepared,
        bucket,
        slot,
        at,
    );
    c.prepared.clear();
    c.pending = false;
    word
}

/// Stores the hint of a bucket and a slot.
pub fn put_hint<T: Stands>(heap: &Heap<T>, c: &mut Caller<T>, bucket: u8, slot: u32, head: u32)
    requires table { (c.old.table ≡ heap.now.table) × (c.old.opening ≡ heap.now.opening) }
    requires whole { c.old.whole ≡ true }
    requires bucket { IsBucket bucket }
    requires slot { slot < 16 }
    requires held { is_out whats.Back c.old.out ≡ true }
    requires head { Always c.old (λ s. hint_word (now s c.old).state.back.area (now s c.old).now.span_history bucket slot ≡ head) }
    ensures runs { Runs c.old c.new [] }
    ensures stands { Standing c.new (record (stance c.old) { owes = paid_off (hint_at bucket slot) c.old.owes }) }
{
    let at = hint_at(bucket, slot as u8) as usize;
    let value = u64::from(head);
    put_hint_by::<T, Brand, Brand>(
        &heap.table.shared,
        &mut c.place,
        &c.prepared,
        bucket,
        slot,
        at,
        value,
    );
    c.prepared.clear();
    c.pending = false;
}

/// Loads the tag of a page.
pub fn look_tag<T: Stands>(heap: &Heap<T>, c: &mut Caller<T>, page: u32) -> u64
    requires table { (c.old.table ≡ heap.now.table) × (c.old.opening ≡ heap.now.opening) }
    requires whole { c.old.whole ≡ true }
    requires page { page < 256 * c.old.opening.limits.segments }
    ensures runs { Runs c.old c.new [] }
    ensures stands { Standing c.new (stance c.old) }
    ensures word { Always c.new (λ s. IsTagWord (now s c.new) c.old.number page c.old.owes result) }
{
    let limits = heap.limits();
    let at = tag_at(&limits, page) as usize;
    let word = look_tag_by::<T, Brand, Brand>(
        &heap.table.shared,
        &mut c.place,
        &c.prepared,
        page,
        at,
    );
    c.prepared.clear();
    c.pending = false;
    word
}

/// Makes a subsegment with the claim of its first block: its tags and its hint are owed then.
pub fn make<T: Stands>(
    heap: &Heap<T>,
    c: &mut Caller<T>,
    at: Subsegment,
    index: u16,
    hint: u64,
    reserved: u32,
)
    requires table { (c.old.table ≡ heap.now.table) × (c.old.opening ≡ heap.now.opening) }
    requires whole { c.old.whole ≡ true }
    requires inside { c.old.inside ≡ true }
    requires slot { at.slot < 16 }
    requires there { at.head < 256 * c.old.opening.limits.segments }
    requires index { index < 256 }
    requires may { Always c.old (λ s. MayInstall s (now s c.old) c.old.number (reserving_in c.old.number reserved at.head) at.head at.pages at.bucket at.slot index hint c.old.owes) }
    ensures { HasMade c.old c.new (reserving_in c.old.number reserved at.head) at.head at.pages at.bucket at.slot index hint }
{
    let limits = heap.limits();
    let word = bitmap_at(&limits, at.head, u32::from(index) / 64) as usize;
    let bit = 1u64 << (index % 64);
    install_by::<T, Brand, Brand, Brand>(
        &heap.table.shared,
        &mut c.place,
        &c.prepared,
        at,
        index,
        hint,
        c.number,
        reserved,
        word,
        bit,
    );
    c.prepared.clear();
    c.pending = false;
    c.free = Told::of(&false);
}

/// Stores the tag of a page.
fn put_tag<T: Stands>(heap: &Heap<T>, c: &mut Caller<T>, page: u32, tag: u64)
    requires table { (c.old.table ≡ heap.now.table) × (c.old.opening ≡ heap.now.opening) }
    requires whole { c.old.whole ≡ true }
    requires held { is_out whats.Back c.old.out ≡ true }
    requires page { page < 256 * c.old.opening.limits.segments }
    requires tag { Always c.old (λ s. AreTagged (now s c.old) page 1 tag) }
    ensures runs { Runs c.old c.new [] }
    ensures stands { Standing c.new (record (stance c.old) { owes = paid_off (tag_at page) c.old.owes }) }
{
    let limits = heap.limits();
    let at = tag_at(&limits, page) as usize;
    put_tag_by::<T, Brand, Brand>(&heap.table.shared, &mut c.place, &c.prepared, page, at, tag);
    c.prepared.clear();
    c.pending = false;
}

/// Stores the tags of a subsegment's pages, from the last on.
pub fn tag_pages<T: Stands>(heap: &Heap<T>, c: &mut Caller<T>, at: Subsegment)
    requires table { (c.old.table ≡ heap.now.table) × (c.old.opening ≡ heap.now.opening) }
    requires whole { c.old.whole ≡ true }
    requires ready { (c.old.pending ≡ false) × (c.old.prepared ≡ []) }
    requires held { is_out whats.Back c.old.out ≡ true }
    requires few { (at.head + at.pages ≤ 256 * c.old.opening.limits.segments) × (at.slot < 16) }
    requires tags { Always c.old (λ s. AreTagged (now s c.old) at.head at.pages (1 + 256 * at.bucket + 65536 * at.slot + 4294967296 * at.head)) }
    ensures runs { Runs c.old c.new [] }
    ensures stands { Standing c.new (record (stance c.old) { owes = paid_tags at.head at.pages c.old.owes }) }
{
    c.check();
    let _bounds = heap.limits();
    let tag = 1
        + 256 * u64::from(at.bucket)
        + 65536 * u64::from(at.slot)
        + 4_294_967_296 * u64::from(at.head);
    for done in 0..at.pages {
        let page = at.head + (at.pages - 1 - done);
        put_tag(heap, c, page, tag);
    }
}

/// Clears the tag of a page, for the owner of the heap lock.
fn clear_tag<T: Stands>(heap: &Heap<T>, c: &mut Caller<T>, page: u32)
    requires table { (c.old.table ≡ heap.now.table) × (c.old.opening ≡ heap.now.opening) }
    requires whole { c.old.whole ≡ true }
    requires held { is_out whats.Back c.old.out ≡ true }
    requires owner { (c.old.depth == 0) ≡ false }
    requires page { page < 256 * c.old.opening.limits.segments }
    ensures runs { Runs c.old c.new [] }
    ensures stands { Standing c.new (record (stance c.old) { owes = owed_zero (tag_at page) c.old.owes }) }
{
    let limits = heap.limits();
    let at = tag_at(&limits, page) as usize;
    clear_tag_by::<T, Brand, Brand>(&heap.table.shared, &mut c.place, &c.prepared, page, at);
    c.prepared.clear();
    c.pending = false;
}

/// Clears the tags of a subsegment's pages, from the first on, for the owner of the heap lock.
pub fn clear_tags<T: Stands>(heap: &Heap<T>, c: &mut Caller<T>, at: Subsegment)
    requires table { (c.old.table ≡ heap.now.table) × (c.old.opening ≡ heap.now.opening) }
    requires whole { c.old.whole ≡ true }
    requires ready { (c.old.pending ≡ false) × (c.old.prepared ≡ []) }
    requires held { is_out whats.Back c.old.out ≡ true }
    requires owner { (c.old.depth == 0) ≡ false }
    requires few { at.head + at.pages ≤ 256 * c.old.opening.limits.segments }
    ensures runs { Runs c.old c.new [] }
    ensures stands { Standing c.new (record (stance c.old) { owes = owed_tags at.head at.pages c.old.owes }) }
{
    c.check();
    let _bounds = heap.limits();
    for cleared in 0..at.pages {
        clear_tag(heap, c, at.head + cleared);
    }
}

/// Gives up a subsegment whose tags are cleared, with the store of the hint.
pub fn give_up<T: Stands>(heap: &Heap<T>, c: &mut Caller<T>, at: Subsegment, hint: u64)
    requires table { (c.old.table ≡ heap.now.table) × (c.old.opening ≡ heap.now.opening) }
    requires whole { c.old.whole ≡ true }
    requires bucket { IsBucket at.bucket }
    requires slot { at.slot < 16 }
    requires may { Always c.old (λ s. MayRetire s (now s c.old) c.old.number at.head at.pages at.bucket at.slot hint c.old.owes) }
    ensures runs { Runs c.old c.new (entry c.old.number (Unspan at.head) ∷ []) }
    ensures stands { Standing c.new (record (stance c.old) { owes = owed_by_retire at.bucket at.slot at.head at.pages c.old.owes }) }
{
    let word = hint_at(at.bucket, at.slot as u8) as usize;
    retire_by::<T, Brand, Brand>(
        &heap.table.shared,
        &mut c.place,
        &c.prepared,
        at,
        word,
        hint,
    );
    c.prepared.clear();
    c.pending = false;
}
