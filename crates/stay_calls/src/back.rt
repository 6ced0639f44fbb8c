//! A block of the back end that is to have another size where it is.
ghost use Rattle.std.specs.Prelude.{◌≡◌, ◌*◌, ◌-◌, [], ◌∷◌, Some, None, true, false};
ghost use Rattle.std.specs.List.{find};
ghost use Rattle.heap_model.specs.declared.Act.TheVariants.{GiveLock, NotLive};
ghost use Rattle.heap_model.specs.declared.Call.TheVariants as calls;
ghost use Rattle.heap_model.specs.declared.Kind.TheVariants as kinds;
ghost use Rattle.heap_model.specs.declared.What.TheVariants as whats;
ghost use Rattle.heap_model.specs.Layers.{StandsForVs, StandsForBack};
ghost use Rattle.heap_model.specs.Legal.{leaves_whole};
ghost use Rattle.heap_model.specs.State.{is_kind};
ghost use Rattle.claim_rule.specs.Places.{vs_slot, back_slot};
ghost use Rattle.heap_gate.specs.Token.{Always, now};
ghost use Rattle.backend_fit.specs.Kept as backs;
ghost use Rattle.backend_fit.specs.Kept.{area_of, is_block_at, spans_of};
ghost use Rattle.vs_layer.specs.Standing as vss;
ghost use Rattle.call_parts.specs.Entries.{HasEnded};
ghost use Rattle.address_calls.specs.Finds.{IsOfBack};
ghost use Rattle.heap_model.specs.Search.{span_at};
ghost use Rattle.page_ranges.specs.Spans.{span_of};
ghost use Rattle.stay_calls.specs.Backs.{run_stays, Widens};
ghost use Rattle.stay_calls.specs.Stays.{IsTried};

use crate::tried::Tried;
use crate::words::{granules_for, pages_for, zero_gained};
use address_calls::Found;
use backend_fit::Back;
use call_parts::{State, give_back, give_back_denying, give_vs};
use heap_gate::{Caller, Heap, prepare, rest};
use heap_model::{Act, Flags, Kind, MOST_PAGED, MOST_VARIABLE, PAGE_BYTES, ReNo, Run};
use vs_layer::Vs;

/// The run of the block that begins at an address, found by its page in constant time.
fn block_at(back: &Back, addr: u64) -> Option<Run>
    ensures { result ≡ find (is_block_at addr) (spans_of back.now) }
{
    let pages = u64::from(back.descs().pages());
    let page = addr / PAGE_BYTES;
    if addr % PAGE_BYTES != 0 {
        return None;
    }
    if page >= pages {
        return None;
    }
    let Some(run) = back.run_at(page as u32) else {
        return None;
    };
    if run.first != page as u32 {
        return None;
    }
    if !is_back(&run) {
        return None;
    }
    Some(run)
}

fn is_back(run: &Run) -> bool
    ensures { result ≡ is_kind run.now.mark.kind kinds.Back }
{
    match run.mark.kind {
        Kind::Back => true,
        _ => false,
    }
}

/// The bytes of the block that a run is.
fn size_of(run: &Run) -> u64
    ensures { result ≡ 4096 * run.now.pages - run.now.mark.unused }
{
    (PAGE_BYTES * u64::from(run.pages)).saturating_sub(u64::from(run.mark.unused))
}

/// Makes the block that a run is `n` bytes long where it is, if it can be.
fn widen(back: &mut Back, run: &Run, n: u64) -> bool
    requires there { span_at (area_of back.old) run.now.first ≡ Some (span_of run.now) }
    requires kind { run.now.mark.kind ≡ kinds.Back }
    ensures { Widens back.old back.new run.now n result }
{
    if n <= MOST_VARIABLE || n > MOST_PAGED {
        return false;
    }
    let pages = pages_for(n);
    let unused = (PAGE_BYTES as u32 * pages - n as u32) as u16;
    back.resize(run.first, pages, unused)
}

/// Gives both locks back behind what is prepared.
fn give_both(heap: &Heap<State>, c: &mut Caller<State>, vs: Vs, back: Back)
    requires table { c.old.table ≡ heap.now.table }
    requires ready { (c.old.whole ≡ true) × (c.old.inside ≡ true) × (c.old.free ≡ true) × (c.old.owes ≡ []) }
    requires locks { c.old.out ≡ back_slot ∷ vs_slot ∷ [] }
    requires used { Always c.old (λ s. leaves_whole (now s c.old).state whats.Vs ≡ true) }
    requires tells_vs { Always c.old (λ s. StandsForVs c.old.opening (now s c.old).state (vss.layer_of vs)) }
    requires tells_back { Always c.old (λ s. StandsForBack c.old.opening (now s c.old).state (backs.layer_of back)) }
    ensures { HasEnded c.old c.new (GiveLock whats.Back ∷ GiveLock whats.Vs ∷ []) [] }
{
    c.check();
    give_back(heap, c, back);
    give_vs(heap, c, vs);
}

/// Says that no live block has an address, and gives both locks back.
fn deny(heap: &Heap<State>, c: &mut Caller<State>, vs: Vs, back: Back, addr: u64)
    requires table { (c.old.table ≡ heap.now.table) × (c.old.opening ≡ heap.now.opening) }
    requires back { IsOfBack c.old addr vs back }
    requires none { find (is_block_at addr) (spans_of back) ≡ None }
    ensures { HasEnded c.old c.new (NotLive addr ∷ GiveLock whats.Back ∷ GiveLock whats.Vs ∷ []) [] }
{
    c.check();
    let _region = back.region();
    give_back_denying(heap, c, back, addr);
    give_vs(heap, c, vs);
}

/// The block can't stay: it has to move, or where it may not is as it was, and both locks are given back.
fn leave(
    heap: &Heap<State>,
    c: &mut Caller<State>,
    vs: Vs,
    back: Back,
    addr: u64,
    run: Run,
    n: u64,
    flags: Flags,
) -> Result<Tried, ReNo>
    requires table { c.old.table ≡ heap.now.table }
    requires call { c.old.call ≡ Some (calls.Realloc addr n flags) }
    requires back { IsOfBack c.old addr vs back }
    requires found { find (is_block_at addr) (spans_of back) ≡ Some run }
    requires leaves { run_stays back run n ≡ false }
    ensures { IsTried c.old c.new addr n flags result }
{
    c.check();
    let _region = back.region();
    let size = size_of(&run);
    if !flags.in_place {
        let found = Found::Back(vs, back);
        return Ok(Tried::Moves { found, size });
    }
    prepare(c, Act::Sized { addr, size });
    give_both(heap, c, vs, back);
    c.check();
    Err(ReNo::NoRoomInPlace)
}

/// Makes the block that a run is `n` bytes long where it is, if it can be.
fn resize(
    heap: &Heap<State>,
    c: &mut Caller<State>,
    vs: Vs,
    mut back: Back,
    addr: u64,
    run: Run,
    n: u64,
    flags: Flags,
) -> Result<Tried, ReNo>
    requires table { (c.old.table ≡ heap.now.table) × (c.old.opening ≡ heap.now.opening) }
    requires call { c.old.call ≡ Some (calls.Realloc addr n flags) }
    requires back { IsOfBack c.old addr vs back }
    requires found { find (is_block_at addr) (spans_of back) ≡ Some run }
    ensures { IsTried c.old c.new addr n flags result }
{
    c.check();
    let _before = back.region();
    let size = size_of(&run);
    if !widen(&mut back, &run, n) {
        return leave(heap, c, vs, back, addr, run, n, flags);
    }
    let _region = back.region();
    zero_gained(heap, c, addr, size, n, flags.zero);
    c.check();
    let granules = granules_for(n);
    prepare(
        c,
        Act::Resize {
            addr,
            granules,
            size: n,
        },
    );
    rest(c);
    give_both(heap, c, vs, back);
    c.check();
    Ok(Tried::Stays)
}

/// Gives the block of the back end that begins at an address `n` bytes, if it keeps its address so.
pub(crate) fn stay_back(
    heap: &Heap<State>,
    c: &mut Caller<State>,
    vs: Vs,
    back: Back,
    addr: u64,
    n: u64,
    flags: Flags,
) -> Result<Tried, ReNo>
    requires table { (c.old.table ≡ heap.now.table) × (c.old.opening ≡ heap.now.opening) }
    requires call { c.old.call ≡ Some (calls.Realloc addr n flags) }
    requires back { IsOfBack c.old addr vs back }
    ensures { IsTried c.old c.new addr n flags result }
{
    match block_at(&back, addr) {
        Some(run) => resize(heap, c, vs, back, addr, run, n, flags),
        None => {
            deny(heap, c, vs, back, addr);
            Err(ReNo::NotLive)
        }
    }
}
