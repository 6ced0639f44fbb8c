//! A block of the back end that is found by its address, under the locks of the variable-size layer and of the back end.
ghost use Rattle.std.specs.Prelude.{◌≡◌, ◌*◌, ◌/◌, ◌<◌, [], ◌∷◌, true, false, None, Some};
ghost use Rattle.std.specs.List.{find, list_any};
ghost use Rattle.heap_model.specs.declared.Act.TheVariants.{GiveLock, NotLive, Sized, Take, Drop, Unspan};
ghost use Rattle.heap_model.specs.Layers.{StandsForVs, StandsForBack};
ghost use Rattle.heap_model.specs.Backend.{in_span};
ghost use Rattle.heap_model.specs.Legal.{leaves_whole};
ghost use Rattle.heap_model.specs.declared.What.TheVariants as whats;
ghost use Rattle.claim_rule.specs.Shown.{lfh_spans};
ghost use Rattle.heap_gate.specs.Token.{Always, now};
ghost use Rattle.vs_layer.specs.Kept.{block_at as vs_block_at};
ghost use Rattle.vs_layer.specs.Standing as vss;
ghost use Rattle.claim_rule.specs.Places.{vs_slot, back_slot};
ghost use Rattle.backend_fit.specs.Kept.{is_block_at, spans_of};
ghost use Rattle.backend_fit.specs.Kept as backs;
ghost use Rattle.paged_calls.specs.Blocks.{block_size};
ghost use Rattle.call_parts.specs.Entries.{HasEnded};
ghost use Rattle.paged_calls.specs.Parts.{HasBoth, Measures, Drops};

use crate::backs::{block_at, size_of};
use backend_fit::Back;
use call_parts::{State, give_back, give_back_denying, give_vs, prepare_all};
use heap_gate::{Caller, Heap, prepare, rest};
use heap_model::{Act, Run};
use vs_layer::Vs;

/// Gives both locks back behind what is prepared.
fn give_both(heap: &Heap<State>, c: &mut Caller<State>, vs: Vs, back: Back)
    requires table { c.old.table ≡ heap.now.table }
    requires ready { (c.old.whole ≡ true) × (c.old.inside ≡ true) × (c.old.free ≡ true) × (c.old.owes ≡ []) }
    requires locks { c.old.out ≡ back_slot ∷ vs_slot ∷ [] }
    requires used { Always c.old (λ s. leaves_whole (now s c.old).state whats.Vs ≡ true) }
    requires tells_vs { Always c.old (λ s. StandsForVs c.old.opening (now s c.old).state (vss.layer_of vs)) }
    requires tells_back { Always c.old (λ s. StandsForBack c.old.opening (now s c.old).state (backs.layer_of back)) }
    ensures { HasEnded c.old c.new (GiveLock whats.Back ∷ GiveLock whats.Vs ∷ []) [] }
{
    c.check();
    give_back(heap, c, back);
    give_vs(heap, c, vs);
}

/// Says that no live block has an address, and gives both locks back.
fn deny(heap: &Heap<State>, c: &mut Caller<State>, vs: Vs, back: Back, addr: u64)
    requires table { (c.old.table ≡ heap.now.table) × (c.old.opening ≡ heap.now.opening) }
    requires both { HasBoth c.old vs back }
    requires below { addr / 4096 < 256 * c.old.opening.limits.segments }
    requires not_vs { vs_block_at vs addr ≡ None }
    requires not_back { find (is_block_at addr) (spans_of back) ≡ None }
    requires not_front { Always c.old (λ s. list_any (in_span (addr / 4096)) (lfh_spans (now s c.old).state.back.area) ≡ false) }
    ensures { HasEnded c.old c.new (NotLive addr ∷ GiveLock whats.Back ∷ GiveLock whats.Vs ∷ []) [] }
{
    c.check();
    let _region = back.region();
    give_back_denying(heap, c, back, addr);
    give_vs(heap, c, vs);
}

/// Says the size of the block that a run is, and gives both locks back.
fn tell_size(
    heap: &Heap<State>,
    c: &mut Caller<State>,
    vs: Vs,
    back: Back,
    addr: u64,
    run: Run,
) -> u64
    requires table { (c.old.table ≡ heap.now.table) × (c.old.opening ≡ heap.now.opening) }
    requires both { HasBoth c.old vs back }
    requires not_vs { vs_block_at vs addr ≡ None }
    requires found { find (is_block_at addr) (spans_of back) ≡ Some run }
    ensures { HasEnded c.old c.new (Sized addr result ∷ GiveLock whats.Back ∷ GiveLock whats.Vs ∷ []) [] }
{
    c.check();
    let _region = back.region();
    let size = size_of(&run);
    prepare(c, Act::Sized { addr, size });
    give_both(heap, c, vs, back);
    size
}

/// Takes the block that a run is, gives its place and its span back, and then both locks.
fn drop_run(heap: &Heap<State>, c: &mut Caller<State>, vs: Vs, mut back: Back, addr: u64, run: Run)
    requires table { (c.old.table ≡ heap.now.table) × (c.old.opening ≡ heap.now.opening) }
    requires both { HasBoth c.old vs back }
    requires not_vs { vs_block_at vs addr ≡ None }
    requires found { find (is_block_at addr) (spans_of back) ≡ Some run }
    ensures { HasEnded c.old c.new (Take addr (block_size run) ∷ Drop addr ∷ Unspan (addr / 4096) ∷ GiveLock whats.Back ∷ GiveLock whats.Vs ∷ []) [] }
{
    c.check();
    let _region = back.region();
    let first = run.first;
    let size = size_of(&run);
    back.give(first);
    prepare_all(
        c,
        &[
            Act::Take { addr, size },
            Act::Drop { addr },
            Act::Unspan { first },
        ],
    );
    rest(c);
    give_both(heap, c, vs, back);
}

/// The size of the block of the back end that begins at an address, or `None` where no live block has it: the address lies below
/// the large area, the variable-size layer has no block there, and no subsegment of the front end has its page. Both locks are
/// given back.
pub fn measure_back(
    heap: &Heap<State>,
    c: &mut Caller<State>,
    vs: Vs,
    back: Back,
    addr: u64,
) -> Option<u64>
    requires table { (c.old.table ≡ heap.now.table) × (c.old.opening ≡ heap.now.opening) }
    requires both { HasBoth c.old vs back }
    requires below { addr / 4096 < 256 * c.old.opening.limits.segments }
    requires not_vs { vs_block_at vs addr ≡ None }
    requires not_front { Always c.old (λ s. list_any (in_span (addr / 4096)) (lfh_spans (now s c.old).state.back.area) ≡ false) }
    ensures { Measures c.old c.new addr result }
{
    match block_at(&back, addr) {
        Some(run) => Some(tell_size(heap, c, vs, back, addr, run)),
        None => {
            deny(heap, c, vs, back, addr);
            None
        }
    }
}

/// Gives the place of the block of the back end that begins at an address back, with its span, or answers `false` where no live
/// block has it, as [`measure_back`] does. Both locks are given back.
pub fn drop_back(heap: &Heap<State>, c: &mut Caller<State>, vs: Vs, back: Back, addr: u64) -> bool
    requires table { (c.old.table ≡ heap.now.table) × (c.old.opening ≡ heap.now.opening) }
    requires both { HasBoth c.old vs back }
    requires below { addr / 4096 < 256 * c.old.opening.limits.segments }
    requires not_vs { vs_block_at vs addr ≡ None }
    requires not_front { Always c.old (λ s. list_any (in_span (addr / 4096)) (lfh_spans (now s c.old).state.back.area) ≡ false) }
    ensures { Drops c.old c.new addr result }
{
    match block_at(&back, addr) {
        Some(run) => {
            drop_run(heap, c, vs, back, addr, run);
            true
        }
        None => {
            deny(heap, c, vs, back, addr);
            false
        }
    }
}
