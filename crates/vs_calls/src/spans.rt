//! Spans of the variable-size layer that come from the back end, and go back to it.
ghost use Rattle.std.specs.Prelude.{◌≡◌, ◌+◌, ◌*◌, ◌≤◌, ◌<◌, [], ◌∷◌, ℕ, true, None, Some, IfSome, IfNone, length};
ghost use Rattle.heap_model.specs.declared.Act.TheVariants.{GiveLock, Unspan};
ghost use Rattle.heap_model.specs.declared.What.TheVariants as whats;
ghost use Rattle.heap_model.specs.Layers.{StandsForVs, StandsForBack};
ghost use Rattle.heap_model.specs.Runs.{Run};
ghost use Rattle.claim_rule.specs.Entries.{are_prepared};
ghost use Rattle.call_laws.specs.Within.{by_all};
ghost use Rattle.heap_gate.specs.Token.{Always, now};
ghost use Rattle.backend_fit.specs.Kept as backs;
ghost use Rattle.vs_layer.specs.Kept.{place_for, block_at, block_in};
ghost use Rattle.vs_layer.specs.Standing.{layer_of};
ghost use Rattle.call_parts.specs.Entries.{with_all, HasEnded};
ghost use Rattle.vs_calls.specs.Blocks.{HasVsAndBack};
ghost use Rattle.vs_calls.specs.Parts.{MayEndSpan, span_acts, HasRange, HasHeldAnew, HasNoRange};

use crate::placing::granules_at;
use backend_fit::Back;
use call_parts::{State, give_back, give_vs, prepare_all};
use heap_gate::{Caller, Heap, prepare};
use heap_model::{Act, GRANULE_BYTES, Kind, Layer, Mark, SEGMENT_PAGES};
use vs_layer::Vs;

/// Gives both locks back behind what is prepared.
pub fn give_both(heap: &Heap<State>, c: &mut Caller<State>, vs: Vs, back: Back)
    requires table { c.old.table ≡ heap.now.table }
    requires both { HasVsAndBack c.old vs back }
    ensures { HasEnded c.old c.new (GiveLock whats.Back ∷ GiveLock whats.Vs ∷ []) [] }
{
    c.check();
    give_back(heap, c, back);
    give_vs(heap, c, vs);
}

/// Gives the span that begins at a page, in which no block is left, to the back end, and then both locks.
pub(crate) fn end_span(
    heap: &Heap<State>,
    c: &mut Caller<State>,
    vs: Vs,
    mut back: Back,
    first: u32,
)
    requires table { c.old.table ≡ heap.now.table }
    requires ends { MayEndSpan c.old vs back first }
    requires room { length c.old.prepared < 16 }
    ensures { HasEnded c.old c.new (Unspan first ∷ GiveLock whats.Back ∷ GiveLock whats.Vs ∷ []) [] }
{
    c.check();
    let _region = back.region();
    back.give(first);
    prepare(c, Act::Unspan { first });
    give_both(heap, c, vs, back);
}

/// Prepares the entries of a block of `n` bytes that was placed in a new span: the Reserve of the next segment where the page lies in
/// it, the span and the place.
fn prepare_in_span(c: &mut Caller<State>, vs: &Vs, reserved: u32, first: u32, addr: u64, n: u64)
    requires size { n ≤ 131072 }
    requires room { length c.old.prepared + 3 ≤ 16 }
    requires block { (run : Run) × (addr ≡ 16 * run.first + 16) × (block_at vs.now addr ≡ Some (block_in run n)) × Always c.old (λ s. are_prepared s (now s c.old) c.old.number (by_all c.old.number (span_acts reserved first n run)) ≡ true) }
    ensures { (run : Run) → addr ≡ 16 * run.first + 16 → block_at vs.now addr ≡ Some (block_in run n) → c.new ≡ with_all c.old (span_acts reserved first n run) }
{
    let span = Act::Span {
        first,
        pages: Vs::span_pages(n),
        kind: Kind::Vs,
        bucket: 0,
        slot: 0,
    };
    let place = Act::Place {
        start: addr - GRANULE_BYTES,
        granules: granules_at(vs, addr),
        layer: Layer::Vs,
    };
    if first / SEGMENT_PAGES < reserved {
        prepare_all(c, &[span, place]);
    } else {
        prepare_all(c, &[Act::Reserve { segment: reserved }, span, place]);
    }
}

/// Makes a subsegment for a block of `n` bytes, which no gap holds, and has the block in hand at its front. The Reserve of the next
/// segment, where the pages lie there, the span and the place are prepared under both locks. Where the back end has no pages for it,
/// nothing changes. It is the part that a request of the layer itself shares with one that the front end could not serve.
pub fn hold_in_new_span(c: &mut Caller<State>, vs: &mut Vs, back: &mut Back, n: u64) -> Option<u64>
    requires size { n ≤ 131072 }
    requires no_gap { place_for vs.old n ≡ None }
    requires room { length c.old.prepared + 3 ≤ 16 }
    requires tells_vs { Always c.old (λ s. StandsForVs c.old.opening (now s c.old).state (layer_of vs.old)) }
    requires tells_back { Always c.old (λ s. StandsForBack c.old.opening (now s c.old).state (backs.layer_of back.old)) }
    requires may { (first : ℕ) (run : Run) → HasRange vs.old back.old n first run → Always c.old (λ s. are_prepared s (now s c.old) c.old.number (by_all c.old.number (span_acts (backs.area_of back.old).reserved first n run)) ≡ true) }
    ensures held { IfSome result (λ addr. HasHeldAnew c.old c.new vs.old vs.new back.old back.new n addr) }
    ensures none { IfNone result (HasNoRange c.old c.new vs.old vs.new back.old back.new n) }
{
    let pages = Vs::span_pages(n);
    let reserved = back.region().reserved();
    let Some(first) = back.take(pages, Mark::VS) else {
        return None;
    };
    let _descs = back.descs();
    let _heads = vs.heads();
    vs.add_span(first, pages);
    let addr = vs.place(n);
    prepare_in_span(c, vs, reserved, first, addr, n);
    Some(addr)
}
