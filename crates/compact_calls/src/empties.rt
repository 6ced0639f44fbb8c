//! Subsegments of the front end without a block, given back under the lock of the back end.
ghost use Rattle.std.specs.Prelude.{◌≡◌, ◌*◌, ◌+◌, ◌<◌, ◌∷◌, [], true, List, ℕ};
ghost use Rattle.heap_model.specs.declared.Call.TheVariants as calls;
ghost use Rattle.heap_model.specs.declared.Kind.TheVariants as kinds;
ghost use Rattle.heap_model.specs.Geometry.{page_bytes};
ghost use Rattle.heap_model.specs.State.{is_kind};
ghost use Rattle.heap_model.specs.Stay.{for_some};
ghost use Rattle.heap_model.specs.Search.{span_at};
ghost use Rattle.heap_model.specs.Legal.{are_used};
ghost use Rattle.claim_rule.specs.Places.{back_slot};
ghost use Rattle.heap_gate.specs.Token.{Always, now};
ghost use Rattle.backend_fit.specs.Kept.{area_of};
ghost use Rattle.lfh_spans.specs.Subsegments.{IsBackOf};
ghost use Rattle.compact_calls.specs.Owner.{IsOwning, Did};
ghost use Rattle.compact_calls.specs.Empties.{Looked, ShowsBits, HasBlocks, AreUsedBelow, unspans};

use crate::sound::hear_sound;
use backend_fit::Back;
use call_parts::State;
use heap_gate::{Caller, Heap};
use heap_model::{Kind, SEGMENT_PAGES};
use lfh_claims::owner_bits;
use lfh_spans::retire;

/// Whether a bit of the subsegment that begins at a page is set.
fn has_bits(heap: &Heap<State>, c: &mut Caller<State>, head: u32) -> bool
    requires table { (c.old.table ≡ heap.now.table) × (c.old.opening ≡ heap.now.opening) }
    requires owning { IsOwning c.old calls.Compact (back_slot ∷ []) }
    requires there { head < 256 * c.old.opening.limits.segments }
    ensures looked { Looked c.old c.new calls.Compact (back_slot ∷ []) }
    ensures bits { Always c.new (λ s. ShowsBits (now s c.new) head result) }
{
    for word in 0..4 {
        c.check();
        let bits = owner_bits(heap, c, head, word);
        if bits != 0 {
            return true;
        }
    }
    false
}

/// Whether the subsegment that begins at a page has a block.
fn is_used(heap: &Heap<State>, c: &mut Caller<State>, head: u32) -> bool
    requires table { (c.old.table ≡ heap.now.table) × (c.old.opening ≡ heap.now.opening) }
    requires owning { IsOwning c.old calls.Compact (back_slot ∷ []) }
    requires there { head < 256 * c.old.opening.limits.segments }
    ensures looked { Looked c.old c.new calls.Compact (back_slot ∷ []) }
    ensures blocks { Always c.new (λ s. HasBlocks (now s c.new) head result) }
{
    let used = has_bits(heap, c, head);
    c.check();
    hear_sound(heap, c);
    used
}

fn is_lfh(kind: Kind) -> bool
    ensures { result ≡ is_kind kind kinds.Lfh }
{
    match kind {
        Kind::Lfh => true,
        _ => false,
    }
}

/// Whether a subsegment begins at a page.
fn begins_at(back: &Back, page: u32) -> bool
    requires { page < 256 * back.now.limits.segments }
    ensures { result ≡ for_some (span_at (area_of back.now) page) (λ x. is_kind x.kind kinds.Lfh) }
{
    let run = back.descs().run_at(page);
    run.first == page && is_lfh(run.mark.kind)
}

/// Gives the subsegment that begins at a page back, if one does and has no block.
fn retire_at(heap: &Heap<State>, c: &mut Caller<State>, back: &mut Back, page: u32)
    requires table { (c.old.table ≡ heap.now.table) × (c.old.opening ≡ heap.now.opening) }
    requires owning { IsOwning c.old calls.Compact (back_slot ∷ []) }
    requires back { IsBackOf c.old back.old }
    requires there { page < 256 * c.old.opening.limits.segments }
    requires used { Always c.old (λ s. AreUsedBelow (now s c.old) page) }
    ensures did { (heads : List ℕ) × Did c.old c.new calls.Compact (unspans heads) (back_slot ∷ []) }
    ensures back { IsBackOf c.new back.new }
    ensures used { Always c.new (λ s. AreUsedBelow (now s c.new) (page + 1)) }
{
    let _sound = back.region();
    if !begins_at(back, page) {
        return;
    }
    if is_used(heap, c, page) {
        return;
    }
    c.check();
    retire(heap, c, back, page);
}

/// Gives each subsegment without a block back.
pub fn retire_empties(heap: &Heap<State>, c: &mut Caller<State>, back: &mut Back)
    requires table { (c.old.table ≡ heap.now.table) × (c.old.opening ≡ heap.now.opening) }
    requires owning { IsOwning c.old calls.Compact (back_slot ∷ []) }
    requires back { IsBackOf c.old back.old }
    ensures did { (heads : List ℕ) × Did c.old c.new calls.Compact (unspans heads) (back_slot ∷ []) }
    ensures back { IsBackOf c.new back.new }
    ensures used { Always c.new (λ s. are_used page_bytes kinds.Lfh (now s c.new).state.lfh (now s c.new).state.back.area.spans ≡ true) }
{
    let limits = heap.limits();
    let end = SEGMENT_PAGES * limits.segments;
    for page in 0..end {
        retire_at(heap, c, back, page);
    }
    let _sound = back.region();
}
