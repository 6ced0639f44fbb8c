//! A new block for one that moves, in hand: its place is prepared under the lock of its layer.
ghost use Rattle.std.specs.Prelude.{◌≡◌, ◌*◌, ◌+◌, ◌<◌, ◌≤◌, [], Bool, ℕ, List, true, None, is_some, IfSome, IfNone};
ghost use Rattle.heap_model.specs.declared.Flags.{Flags as AFlags};
ghost use Rattle.heap_model.specs.declared.What.TheVariants as whats;
ghost use Rattle.heap_model.specs.Geometry.{pages_of};
ghost use Rattle.heap_model.specs.State.{Place};
ghost use Rattle.claim_rule.specs.Entries.{are_prepared};
ghost use Rattle.call_laws.specs.Within.{by_all};
ghost use Rattle.heap_gate.specs.Token.{Always, now, is_out};
ghost use Rattle.call_parts.specs.Entries.{with_all, block_acts};
ghost use Rattle.paged_calls.specs.Blocks.{Carves};
ghost use Rattle.vs_layer.specs.Kept.{place_for};
ghost use Rattle.vs_calls.specs.Blocks.{IsForVs};
ghost use Rattle.move_parts.specs.Moves.{IsMovingAny, TellsVs, TellsBack, TellsLarge};
ghost use Rattle.move_parts.specs.Places.{HasHeldLarge, HasHeldVs, HasHeldAnew, HasHeldBack, IsWithout};

use backend_fit::Back;
use call_parts::{State, prepare_all};
use heap_gate::{Caller, Heap, prepare};
use heap_model::{Act, Kind, Layer, Mark, PAGE_BYTES, PAGE_GRANULES, SEGMENT_PAGES};
use large_blocks::Large;
use vs_calls::{hold_in_gap, hold_in_new_span, lies_within};
use vs_layer::Vs;

/// The granules of the pages of a block of `n` bytes.
fn granules_for(n: u64) -> u64
    ensures { result ≡ 256 * pages_of n }
{
    u64::from(PAGE_GRANULES) * n.div_ceil(PAGE_BYTES)
}

/// Takes the lowest free pages of the large area for a new block of `n` bytes, under its lock, and has it in hand. Where there are
/// none it answers `None`.
pub fn hold_large(
    heap: &Heap<State>,
    c: &mut Caller<State>,
    large: &mut Large,
    n: u64,
) -> Option<u64>
    requires size { 520193 ≤ n }
    requires opening { c.old.opening ≡ heap.now.opening }
    requires moving { (taken : Bool) × (addr size : ℕ) × (flags : AFlags) × (p : Place) × (out : List ℕ) × IsMovingAny taken c.old addr size n flags p out × (is_out whats.Large out ≡ true) × TellsLarge c.old large.old }
    ensures held { IfSome result (λ b. (taken : Bool) (addr size : ℕ) (flags : AFlags) (p : Place) (out : List ℕ) → IsMovingAny taken c.old addr size n flags p out → is_out whats.Large out ≡ true → TellsLarge c.old large.old → HasHeldLarge taken c.old c.new addr size n flags p out b large.new) }
    ensures none { IfNone result (IsWithout c.old c.new n × (large.new ≡ large.old)) }
{
    let _limits = heap.limits();
    c.check();
    let Some(addr) = large.take(n) else {
        return None;
    };
    let _blocks = large.blocks();
    let granules = granules_for(n);
    let layer = Layer::Large;
    prepare(
        c,
        Act::Place {
            start: addr,
            granules,
            layer,
        },
    );
    Some(addr)
}

/// Places a new block of `n` bytes, which has no bucket of the front end, at the front of the smallest gap of the variable-size layer
/// that holds it, which there is, under the layer's lock, and has it in hand.
fn hold_gap(heap: &Heap<State>, c: &mut Caller<State>, vs: &mut Vs, n: u64) -> u64
    requires size { n ≤ 131072 }
    requires opening { c.old.opening ≡ heap.now.opening }
    requires moving { (taken : Bool) × (addr size : ℕ) × (flags : AFlags) × (p : Place) × (out : List ℕ) × IsMovingAny taken c.old addr size n flags p out × (is_out whats.Vs out ≡ true) × TellsVs c.old vs.old }
    requires bucket { IsForVs c.old n }
    requires fits { is_some (place_for vs.old n) ≡ true }
    ensures { (taken : Bool) (addr size : ℕ) (flags : AFlags) (p : Place) (out : List ℕ) → IsMovingAny taken c.old addr size n flags p out → is_out whats.Vs out ≡ true → TellsVs c.old vs.old → HasHeldVs taken c.old c.new addr size n flags p out result vs.new }
{
    let _limits = heap.limits();
    c.check();
    let b = hold_in_gap(c, vs, n);
    lies_within(vs, b);
    b
}

/// Places a new block of `n` bytes, which no gap holds, in a subsegment of the variable-size layer that is made for it, and has it in
/// hand. Where the back end has no pages for one, nothing changes.
fn hold_span(
    heap: &Heap<State>,
    c: &mut Caller<State>,
    vs: &mut Vs,
    back: &mut Back,
    n: u64,
) -> Option<u64>
    requires size { n ≤ 131072 }
    requires opening { c.old.opening ≡ heap.now.opening }
    requires moving { (taken : Bool) × (addr size : ℕ) × (flags : AFlags) × (p : Place) × (out : List ℕ) × IsMovingAny taken c.old addr size n flags p out × (is_out whats.Vs out ≡ true) × TellsVs c.old vs.old × (is_out whats.Back out ≡ true) × TellsBack c.old back.old }
    requires bucket { IsForVs c.old n }
    requires no_gap { place_for vs.old n ≡ None }
    ensures held { IfSome result (λ b. (taken : Bool) (addr size : ℕ) (flags : AFlags) (p : Place) (out : List ℕ) → IsMovingAny taken c.old addr size n flags p out → is_out whats.Vs out ≡ true → TellsVs c.old vs.old → is_out whats.Back out ≡ true → TellsBack c.old back.old → HasHeldAnew taken c.old c.new addr size n flags p out b vs.new back.new) }
    ensures none { IfNone result (IsWithout c.old c.new n × (vs.new ≡ vs.old) × (back.new ≡ back.old)) }
{
    let _limits = heap.limits();
    c.check();
    let _region = back.region();
    let Some(b) = hold_in_new_span(c, vs, back, n) else {
        return None;
    };
    lies_within(vs, b);
    Some(b)
}

/// Places a new block of `n` bytes, which the front end does not serve, in the variable-size layer, under its lock and that of the back
/// end, and has it in hand: in the smallest gap that holds it, or in a subsegment that is made for it. Where no range is there for it,
/// nothing changes.
pub fn hold_vs(
    heap: &Heap<State>,
    c: &mut Caller<State>,
    vs: &mut Vs,
    back: &mut Back,
    n: u64,
) -> Option<u64>
    requires size { n ≤ 131072 }
    requires opening { c.old.opening ≡ heap.now.opening }
    requires moving { (taken : Bool) × (addr size : ℕ) × (flags : AFlags) × (p : Place) × (out : List ℕ) × IsMovingAny taken c.old addr size n flags p out × (is_out whats.Vs out ≡ true) × TellsVs c.old vs.old × (is_out whats.Back out ≡ true) × TellsBack c.old back.old }
    requires bucket { IsForVs c.old n }
    ensures held { IfSome result (λ b. (taken : Bool) (addr size : ℕ) (flags : AFlags) (p : Place) (out : List ℕ) → IsMovingAny taken c.old addr size n flags p out → is_out whats.Vs out ≡ true → TellsVs c.old vs.old → is_out whats.Back out ≡ true → TellsBack c.old back.old → HasHeldAnew taken c.old c.new addr size n flags p out b vs.new back.new) }
    ensures none { IfNone result (IsWithout c.old c.new n × (vs.new ≡ vs.old) × (back.new ≡ back.old)) }
{
    if vs.fit(n) {
        return Some(hold_gap(heap, c, vs, n));
    }
    hold_span(heap, c, vs, back, n)
}

/// The pages of a block of `n` bytes.
fn pages_for(n: u64) -> u32
    requires { (131073 ≤ n) × (n ≤ 520192) }
    ensures pages { result ≡ pages_of n }
    ensures some { (0 < result) × (result ≤ 127) }
    ensures unused { (n ≤ 4096 * result) × (4096 * result ≤ n + 4095) }
{
    n.div_ceil(PAGE_BYTES) as u32
}

/// Takes the pages of a block of `n` bytes where they fit best, and answers the first of them.
fn carve(back: &mut Back, n: u64) -> Option<u32>
    requires { (131073 ≤ n) × (n ≤ 520192) }
    ensures { Carves back.old back.new n result }
{
    let pages = pages_for(n);
    let mark = Mark::back((PAGE_BYTES as u32 * pages - n as u32) as u16);
    let first = back.take(pages, mark);
    let _region = back.region();
    first
}

/// Prepares a block of `n` bytes at a page: the Reserve of the next segment where the page lies in it, the span and the place.
fn prepare_block(c: &mut Caller<State>, reserved: u32, first: u32, n: u64)
    requires size { (131073 ≤ n) × (n ≤ 520192) }
    requires none { c.old.prepared ≡ [] }
    requires may { Always c.old (λ s. are_prepared s (now s c.old) c.old.number (by_all c.old.number (block_acts reserved first n)) ≡ true) }
    ensures { c.new ≡ with_all c.old (block_acts reserved first n) }
{
    let pages = pages_for(n);
    let span = Act::Span {
        first,
        pages,
        kind: Kind::Back,
        bucket: 0,
        slot: 0,
    };
    let place = Act::Place {
        start: PAGE_BYTES * u64::from(first),
        granules: u64::from(PAGE_GRANULES * pages),
        layer: Layer::Back,
    };
    if first / SEGMENT_PAGES < reserved {
        prepare_all(c, &[span, place]);
    } else {
        prepare_all(c, &[Act::Reserve { segment: reserved }, span, place]);
    }
}

/// Takes the pages of the back end that fit a new block of 131,073 to 520,192 bytes best, under its lock, in a new segment if they fit
/// nowhere else, and has the block in hand. Where no pages fit, it answers `None`.
pub fn hold_back(heap: &Heap<State>, c: &mut Caller<State>, back: &mut Back, n: u64) -> Option<u64>
    requires size { (131073 ≤ n) × (n ≤ 520192) }
    requires opening { c.old.opening ≡ heap.now.opening }
    requires moving { (taken : Bool) × (addr size : ℕ) × (flags : AFlags) × (p : Place) × (out : List ℕ) × IsMovingAny taken c.old addr size n flags p out × (is_out whats.Back out ≡ true) × TellsBack c.old back.old }
    ensures held { IfSome result (λ b. (taken : Bool) (addr size : ℕ) (flags : AFlags) (p : Place) (out : List ℕ) → IsMovingAny taken c.old addr size n flags p out → is_out whats.Back out ≡ true → TellsBack c.old back.old → HasHeldBack taken c.old c.new addr size n flags p out b back.new) }
    ensures none { IfNone result (IsWithout c.old c.new n × (back.new ≡ back.old)) }
{
    let _limits = heap.limits();
    c.check();
    let reserved = back.region().reserved();
    let Some(first) = carve(back, n) else {
        return None;
    };
    prepare_block(c, reserved, first, n);
    let b = PAGE_BYTES * u64::from(first);
    Some(b)
}
