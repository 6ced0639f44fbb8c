//! Subsegments of the low-fragmentation front end: their hints, and how the holder of the back end's lock makes one or gives one
//! back.
//!
//! A hint is the first page of a subsegment of a bucket and a slot, from which searches begin. A new subsegment is shown by the
//! exchange that claims its first block, and then its tags and its hint are stored; a subsegment that goes back has its tags
//! cleared before the hint moves on. All words of a subsegment are stored under the back end's lock.
#![tactic(auto)]

mod search;
mod steps;
mod stores;

ghost use Rattle.std.specs.Prelude.{◌≡◌, ◌<◌, ◌∷◌, [], true, false, length, IfSome, IfNone};
ghost use Rattle.heap_model.specs.declared.Act.TheVariants.{NoSpan, Unspan};
ghost use Rattle.heap_model.specs.declared.Kind.TheVariants as kinds;
ghost use Rattle.heap_model.specs.declared.What.TheVariants as whats;
ghost use Rattle.heap_model.specs.Legal.{may};
ghost use Rattle.heap_model.specs.Search.{span_at};
ghost use Rattle.claim_rule.specs.Entries.{entry};
ghost use Rattle.claim_rule.specs.Places.{hint_at};
ghost use Rattle.claim_rule.specs.Shown.{hint_word};
ghost use Rattle.block_steps.specs.Searches.{MayHint};
ghost use Rattle.span_steps.specs.Stores.{paid_off};
ghost use Rattle.backend_fit.specs.Kept.{area_of};
ghost use Rattle.lfh_buckets.specs.Blocks.{IsBucket};
ghost use Rattle.heap_gate.specs.Token.{Always, now, is_out};
ghost use Rattle.heap_gate.specs.Calls.{Runs, Stands as Standing, stance, with_prepared};
ghost use Rattle.lfh_spans.specs.Hints.{own_slot, FindsHint, FindsNoHint, ReadsHint};
ghost use Rattle.lfh_spans.specs.Subsegments.{IsBackOf, MayMake, HasInstalled, HasNoRoom};

use backend_fit::Back;
use heap_gate::{Caller, Heap, prepare};
use heap_model::{Act, Mark, Stands};
use lfh_buckets::{block_at, pages};
use random_pick::Draw;
use search::{left_behind, own_block};
use std::marker::Brand;
use steps::{Subsegment, hint_by};
use stores::{clear_tags, give_up, look_hint, look_tag, make, named, put_hint, tag_pages};
use table_words::hint_at;

/// The hint of a bucket and of the caller's slot, with which a search of the caller begins. `None` exactly where the word that
/// was read is 0.
pub fn hint_of<T: Stands>(heap: &Heap<T>, c: &mut Caller<T>, bucket: u8) -> Option<u32>
    requires table { (c.old.table ≡ heap.now.table) × (c.old.opening ≡ heap.now.opening) }
    requires whole { c.old.whole ≡ true }
    requires bucket { IsBucket bucket }
    requires slot { own_slot c.old < 16 }
    requires may { Always c.old (λ s. MayHint s (now s c.old) c.old.number bucket (own_slot c.old) c.old.owes) }
    ensures found { IfSome result (FindsHint c.old c.new bucket) }
    ensures none { IfNone result (FindsNoHint c.old c.new bucket) }
{
    let _bounds = heap.limits();
    let slot = c.slot();
    let at = hint_at(bucket, slot as u8) as usize;
    let word = hint_by::<T, Brand, Brand>(
        &heap.table.shared,
        &mut c.place,
        &c.prepared,
        bucket,
        slot,
        at,
    );
    c.prepared.clear();
    c.pending = false;
    named(word)
}

/// The hint as the holder of the back end's lock reads it, with no entry. `None` exactly where the word that was read is 0.
pub fn hint_under_back<T: Stands>(heap: &Heap<T>, c: &mut Caller<T>, bucket: u8) -> Option<u32>
    requires table { (c.old.table ≡ heap.now.table) × (c.old.opening ≡ heap.now.opening) }
    requires whole { c.old.whole ≡ true }
    requires bucket { IsBucket bucket }
    requires slot { own_slot c.old < 16 }
    requires back { is_out whats.Back c.old.out ≡ true }
    ensures { ReadsHint c.old c.new bucket result }
{
    let _bounds = heap.limits();
    c.check();
    let slot = c.slot();
    named(look_hint(heap, c, bucket, slot))
}

/// Stores the hint of a bucket and of the caller's slot, under the back end's lock: the subsegment in which the caller has just
/// made a place.
pub fn set_hint<T: Stands>(heap: &Heap<T>, c: &mut Caller<T>, bucket: u8, head: u32)
    requires table { (c.old.table ≡ heap.now.table) × (c.old.opening ≡ heap.now.opening) }
    requires whole { c.old.whole ≡ true }
    requires bucket { IsBucket bucket }
    requires slot { own_slot c.old < 16 }
    requires back { is_out whats.Back c.old.out ≡ true }
    requires head { Always c.old (λ s. hint_word (now s c.old).state.back.area (now s c.old).now.span_history bucket (own_slot c.old) ≡ head) }
    ensures runs { Runs c.old c.new [] }
    ensures stands { Standing c.new (record (stance c.old) { owes = paid_off (hint_at bucket (own_slot c.old)) c.old.owes }) }
{
    let slot = c.slot();
    put_hint(heap, c, bucket, slot, head);
}

/// Makes a subsegment for the caller's bucket and slot, under the back end's lock, claims the block that the draw picks in it,
/// and stores its tags and its hint. It answers the address of the block, which is in hand. Where the back end has no room it
/// answers `None`, and prepares NoSpan: this is the first such answer in the call.
pub fn install<T: Stands>(
    heap: &Heap<T>,
    c: &mut Caller<T>,
    back: &mut Back,
    bucket: u8,
    draw: Draw,
) -> Option<u64>
    requires table { (c.old.table ≡ heap.now.table) × (c.old.opening ≡ heap.now.opening) }
    requires room { length c.old.prepared < 16 }
    requires whole { c.old.whole ≡ true }
    requires inside { c.old.inside ≡ true }
    requires bucket { IsBucket bucket }
    requires slot { own_slot c.old < 16 }
    requires held { is_out whats.Back c.old.out ≡ true }
    requires paid { c.old.owes ≡ [] }
    requires back { IsBackOf c.old back.old }
    requires may { Always c.old (λ s. MayMake s (now s c.old) c.old.number bucket draw.value) }
    requires first { Always c.old (λ s. ((now s c.old).now.calls c.old.number).no_span ≡ false) }
    ensures made { IfSome result (HasInstalled c.old c.new back.old bucket draw.value) }
    ensures none { IfNone result (HasNoRoom back.old back.new bucket) }
    ensures prepared { IfNone result (c.new ≡ with_prepared c.old (NoSpan bucket)) }
    ensures back { IsBackOf c.new back.new }
{
    c.check();
    match install_again(heap, c, back, bucket, draw) {
        Some(addr) => Some(addr),
        None => {
            prepare(c, Act::NoSpan { bucket });
            None
        }
    }
}

/// As `install`, in a call that has answered `None` before: `None` leaves the caller as it was.
pub fn install_again<T: Stands>(
    heap: &Heap<T>,
    c: &mut Caller<T>,
    back: &mut Back,
    bucket: u8,
    draw: Draw,
) -> Option<u64>
    requires table { (c.old.table ≡ heap.now.table) × (c.old.opening ≡ heap.now.opening) }
    requires whole { c.old.whole ≡ true }
    requires inside { c.old.inside ≡ true }
    requires bucket { IsBucket bucket }
    requires slot { own_slot c.old < 16 }
    requires held { is_out whats.Back c.old.out ≡ true }
    requires paid { c.old.owes ≡ [] }
    requires back { IsBackOf c.old back.old }
    requires may { Always c.old (λ s. MayMake s (now s c.old) c.old.number bucket draw.value) }
    ensures made { IfSome result (HasInstalled c.old c.new back.old bucket draw.value) }
    ensures none { IfNone result (HasNoRoom back.old back.new bucket) }
    ensures same { IfNone result (c.new ≡ c.old) }
    ensures back { IsBackOf c.new back.new }
{
    c.check();
    let _bounds = heap.limits();
    let reserved = back.region().reserved();
    let slot = c.slot();
    let pages = pages(bucket);
    let head = back.take(pages, Mark::lfh(bucket, slot as u8))?;
    let _sound = back.region();
    let hint = look_hint(heap, c, bucket, slot);
    c.check();
    let index = own_block(bucket, draw);
    let at = Subsegment {
        head,
        pages,
        bucket,
        slot,
    };
    make(heap, c, at, index, hint, reserved);
    tag_pages(heap, c, at);
    put_hint(heap, c, bucket, slot, head);
    Some(block_at(bucket, head, index))
}

/// Gives a subsegment without a set bit back, for the owner of the heap lock who has taken the back end's: clears its tags, moves
/// the hint to the lowest subsegment of its bucket and slot that is left, or to 0, where it named this one, and frees its pages.
pub fn retire<T: Stands>(heap: &Heap<T>, c: &mut Caller<T>, back: &mut Back, head: u32)
    requires table { (c.old.table ≡ heap.now.table) × (c.old.opening ≡ heap.now.opening) }
    requires whole { c.old.whole ≡ true }
    requires held { is_out whats.Back c.old.out ≡ true }
    requires paid { c.old.owes ≡ [] }
    requires back { IsBackOf c.old back.old }
    requires span { IfSome (span_at (area_of back.old) head) (λ x. x.kind ≡ kinds.Lfh) }
    requires may { Always c.old (λ s. may s (now s c.old) c.old.number (Unspan head) ≡ true) }
    ensures runs { Runs c.old c.new (entry c.old.number (Unspan head) ∷ []) }
    ensures stands { Standing c.new (stance c.old) }
    ensures back { IsBackOf c.new back.new }
{
    c.check();
    let _sound = back.region();
    let tag = look_tag(heap, c, head);
    let bucket = (tag / 256 % 256) as u8;
    let slot = (tag / 65536 % 65536) as u32;
    let hint = look_hint(heap, c, bucket, slot);
    let pages = back.give(head);
    let at = Subsegment {
        head,
        pages,
        bucket,
        slot,
    };
    clear_tags(heap, c, at);
    let left = left_behind(back, at, hint);
    give_up(heap, c, at, left);
}
