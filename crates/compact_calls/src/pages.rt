//! Pages that no span has, decommitted under the lock of the back end.
ghost use Rattle.std.specs.Prelude.{◌≡◌, ◌+◌, ◌*◌, ◌∷◌, [], true, length};
ghost use Rattle.heap_model.specs.declared.Act.TheVariants.{Decommit};
ghost use Rattle.heap_model.specs.declared.Call.TheVariants as calls;
ghost use Rattle.heap_model.specs.Agreement.{SameHeap};
ghost use Rattle.heap_model.specs.Legal.{after};
ghost use Rattle.heap_model.specs.Shape.{loose_pages};
ghost use Rattle.claim_rule.specs.Entries.{entry};
ghost use Rattle.claim_rule.specs.Places.{back_slot};
ghost use Rattle.heap_gate.specs.Token.{Always, now};
ghost use Rattle.backend_fit.specs.Effects.{is_idle};
ghost use Rattle.backend_fit.specs.Kept.{area_of};
ghost use Rattle.lfh_spans.specs.Subsegments.{IsBackOf};
ghost use Rattle.compact_calls.specs.Owner.{IsOwning, Did};
ghost use Rattle.compact_calls.specs.Pages.{is_loose, loose_among, decommits, IsSwept, LeavesFront};

use crate::sound::hear_sound;
use backend_fit::Back;
use call_parts::State;
use heap_gate::{Caller, Heap, prepare, settle};
use heap_model::{Act, Kind, SEGMENT_PAGES};

/// Whether a page is committed and free.
fn is_free(back: &Back, page: u32) -> bool
    ensures { result ≡ is_idle (area_of back.now) page }
{
    if !back.region().is_committed(page) {
        return false;
    }
    match back.run_at(page) {
        Some(run) => matches!(run.mark.kind, Kind::Free),
        None => false,
    }
}

/// Decommits one page.
fn decommit(heap: &Heap<State>, c: &mut Caller<State>, page: u32)
    requires table { c.old.table ≡ heap.now.table }
    requires owning { IsOwning c.old calls.Compact (back_slot ∷ []) }
    requires loose { Always c.old (λ s. is_loose (now s c.old).state.back.area page ≡ true) }
    ensures did { Did c.old c.new calls.Compact (Decommit page ∷ []) (back_slot ∷ []) }
    ensures heap { Always c.new (λ s. SameHeap (now s c.new) (after s (now s c.old) (entry c.old.number (Decommit page)))) }
{
    c.check();
    prepare(c, Act::Decommit { page });
    settle(heap, c);
}

/// Decommits a page if it is committed and no span has it, and counts it.
fn decommit_free(heap: &Heap<State>, c: &mut Caller<State>, back: &Back, page: u32) -> u64
    requires table { c.old.table ≡ heap.now.table }
    requires owning { IsOwning c.old calls.Compact (back_slot ∷ []) }
    requires swept { IsSwept c.old back.now page }
    ensures count { result ≡ length (loose_among (area_of back.now) (page ∷ [])) }
    ensures did { Did c.old c.new calls.Compact (decommits (loose_among (area_of back.now) (page ∷ []))) (back_slot ∷ []) }
    ensures swept { IsSwept c.new back.now (page + 1) }
    ensures front { LeavesFront c.old c.new }
{
    if !is_free(back, page) {
        return 0;
    }
    decommit(heap, c, page);
    1
}

/// Decommits each page below one that is committed and that no span has, and counts them.
fn sweep(heap: &Heap<State>, c: &mut Caller<State>, back: &Back) -> u64
    requires table { c.old.table ≡ heap.now.table }
    requires owning { IsOwning c.old calls.Compact (back_slot ∷ []) }
    requires swept { IsSwept c.old back.now 0 }
    ensures did { Did c.old c.new calls.Compact (decommits (loose_pages (area_of back.now))) (back_slot ∷ []) }
    ensures swept { IsSwept c.new back.now (256 * (area_of back.now).reserved) }
    ensures front { LeavesFront c.old c.new }
    ensures number { result ≡ length (loose_pages (area_of back.now)) }
{
    let end = SEGMENT_PAGES * back.region().reserved();
    let mut number = 0;
    for page in 0..end {
        number += decommit_free(heap, c, back, page);
    }
    number
}

/// Decommits each page that is committed and that no span has, one after another, and answers their number.
pub fn decommit_pages(heap: &Heap<State>, c: &mut Caller<State>, back: &mut Back) -> u64
    requires table { c.old.table ≡ heap.now.table }
    requires owning { IsOwning c.old calls.Compact (back_slot ∷ []) }
    requires back { IsBackOf c.old back.old }
    ensures did { Did c.old c.new calls.Compact (decommits (loose_pages (area_of back.old))) (back_slot ∷ []) }
    ensures number { result ≡ length (loose_pages (area_of back.old)) }
    ensures back { IsBackOf c.new back.new }
    ensures spans { (area_of back.new).spans ≡ (area_of back.old).spans }
    ensures clean { loose_pages (area_of back.new) ≡ [] }
    ensures front { LeavesFront c.old c.new }
{
    c.check();
    hear_sound(heap, c);
    let number = sweep(heap, c, back);
    let _cleared = back.decommit_free();
    number
}
