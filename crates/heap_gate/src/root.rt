//! The root, which makes callers and takes them in again.
ghost use Rattle.std.specs.Prelude.{◌≡◌, ◌<◌, ◌≤◌, ℕ, true, false, [], ◌∷◌, ◌++◌, length, slice_index, IfOk, Some};
ghost use Rattle.heap_model.specs.Limits.{AreValid};
ghost use Rattle.heap_model.specs.State.{is_among, opening};
ghost use Rattle.heap_model.specs.History.{configuration_of};
ghost use Rattle.claim_rule.specs.Entries.{IsLegalWith, setting_of};
ghost use Rattle.claim_rule.specs.Places.{word_count, made_word};
ghost use Rattle.heap_model.specs.Layers.{StandsForVs, StandsForBack, StandsForLarge};
ghost use Rattle.claim_rule.specs.Shown.{AreAllShown};
ghost use Rattle.heap_gate.specs.Roots.{AreTheirs, HaveMet, HasJoined, IsAtRest, is_of, fresh_caller, fresh_root, opened_with};

use crate::caller::Caller;
use crate::closed::{Closed, copied, held};
use crate::heap::Heap;
use crate::noted::{Noted, Told};
use crate::seats::{agree, count, deal, hear, relayed, take_in, tell};
use atomic_table::Table;
use heap_model::{Limits, Opening, OutOfMemory, Stands, Words};
use rand_pcg::Pcg32;
use random_pick::Draws;
use std::alloc::Global;
use std::marker::{Brand, Model};
use std::snapshot::Snapshot;
use step_parts::Seating;

/// What makes callers, and takes them in again. Contracts see what the callers were made with, which have joined, and
/// the list that the root has seen.
#[derive(Drop)]
pub struct Root<T: Stands> {
    pub(crate) place: Seating<T>,
    pub(crate) made: u32,
}

impl<T: Stands> Model for Root<T> {
    ghost use Rattle.heap_gate.specs.Roots.{RootToken, IsRoot, root_token};

    ghost Value = { RootToken };

    ghost view = { λ r. root_token r.place.table_id r.place.me };

    ghost invariant = { λ r. IsRoot r.place.me r.made };
}

// How many words the table of a heap has.
fn words_of(limits: &Limits) -> usize
    requires { AreValid limits.now }
    ensures { result ≡ word_count limits.now }
{
    2182 + 197_888 * limits.segments as usize + 512 * limits.large_pages as usize
}

// The slots of a new table.
fn slots_of<T: Drop>(alloc: Global, vs: T, back: T, large: T) -> Result<Vec<Option<T>>, OutOfMemory>
    ensures { IfOk result (λ slots. slots.items ≡ Some vs ∷ Some back ∷ Some large ∷ []) }
{
    let mut slots = Vec::with_capacity(alloc, 3)?;
    match slots.push(Some(vs)) {
        Ok(()) => {}
        Err(_) => return Err(OutOfMemory),
    }
    match slots.push(Some(back)) {
        Ok(()) => {}
        Err(_) => return Err(OutOfMemory),
    }
    match slots.push(Some(large)) {
        Ok(()) => {}
        Err(_) => return Err(OutOfMemory),
    }
    Ok(slots)
}

/// A new heap with the states of its layers, and its root. The memory for the words of the closed heap is taken here too.
pub fn open<T: Stands + Drop>(
    alloc: Global,
    limits: Limits,
    seed: u64,
    vs: T,
    back: T,
    large: T,
) -> Result<(Heap<T>, Root<T>), OutOfMemory>
    requires limits { AreValid limits }
    requires vs { StandsForVs (opened_with limits seed) opening (T.stands vs) }
    requires back { StandsForBack (opened_with limits seed) opening (T.stands back) }
    requires large { StandsForLarge (opened_with limits seed) opening (T.stands large) }
    ensures { IfOk result (λ r. (r.0.opening ≡ opened_with limits seed) × (r.1 ≡ fresh_root r.0.table r.0.opening)) }
{
    let opening = Opening { limits, seed };
    let count = words_of(&limits);
    let closing = Words::new(alloc, count)?;
    let slots = slots_of(alloc, vs, back, large)?;
    let Ok((table, place)) = Table::new(alloc, closing.as_slice(), slots, &opening) else {
        return Err(OutOfMemory);
    };
    let heap = Heap {
        table,
        opening,
        closing,
    };
    Ok((heap, Root { place, made: 0 }))
}

/// The next caller, with the slot and the stream that it is made with. The seed is that of the heap.
pub fn make_caller<T: Stands>(
    heap: &Heap<T>,
    root: &mut Root<T>,
    seed: u64,
    slot: u32,
    stream: u64,
) -> Caller<T>
    requires table { (root.old.table ≡ heap.now.table) × (root.old.opening ≡ heap.now.opening) }
    requires room { length root.old.roll < heap.now.opening.limits.callers }
    requires slot { slot < heap.now.opening.limits.slots }
    requires seed { seed ≡ heap.now.opening.seed }
    ensures root { root.new ≡ record root.old { roll = root.old.roll ++ record { slot = slot; stream = stream } ∷ [] } }
    ensures caller { result ≡ fresh_caller root.old slot stream }
{
    count(&heap.table.shared, &mut root.place);
    let place = deal::<T, Brand>(&heap.table.shared, &mut root.place, slot, stream);
    let number = root.made;
    root.made += 1;
    Caller {
        place,
        number,
        slot,
        prepared: Noted::new(),
        pending: false,
        call: Told::of(&None),
        fresh: Told::of(&false),
        locked: Told::of(&false),
        inside: false,
        depth: 0,
        whole: Told::of(&true),
        free: Told::of(&true),
        drawn: Told::of(&false),
        draws: Draws::new(Pcg32::new(seed, stream)),
    }
}

/// Two callers come to have seen one list.
pub fn meet<T: Stands>(heap: &Heap<T>, a: &mut Caller<T>, b: &mut Caller<T>)
    requires tables { (a.old.table ≡ heap.now.table) × (b.old.table ≡ heap.now.table) }
    requires outside { (a.old.inside ≡ false) × (b.old.inside ≡ false) }
    requires prepared { (a.old.prepared ≡ []) × (b.old.prepared ≡ []) }
    ensures { HaveMet a.old b.old a.new b.new }
{
    let news = relayed(&heap.table.shared, &mut a.place);
    tell(&heap.table.shared, &mut b.place, news);
    agree(&heap.table.shared, &mut b.place);
    let news = relayed(&heap.table.shared, &mut b.place);
    tell(&heap.table.shared, &mut a.place, news);
    agree(&heap.table.shared, &mut a.place);
}

/// The root takes in a caller that is outside, owns no heap lock and holds no layer lock.
pub fn join<T: Stands>(heap: &Heap<T>, root: &mut Root<T>, c: Caller<T>)
    requires tables { (root.old.table ≡ heap.now.table) × (c.table ≡ heap.now.table) }
    requires openings { (root.old.opening ≡ heap.now.opening) × (c.opening ≡ heap.now.opening) }
    requires outside { c.inside ≡ false }
    requires out { c.out ≡ [] }
    requires free { c.depth ≡ 0 }
    requires prepared { c.prepared ≡ [] }
    ensures { HasJoined root.old c root.new }
{
    let Caller { place, .. } = c;
    take_in(&heap.table.shared, &mut root.place, place);
    hear(&heap.table.shared, &mut root.place);
}

/// Closes a heap whose callers have all joined. Its words and states show the final history, which is the root's list. It takes
/// no memory.
pub fn close_table<T: Stands>(heap: Heap<T>, root: Root<T>) -> Closed<T>
    requires table { (root.table ≡ heap.table) × (root.opening ≡ heap.opening) }
    requires joined { (n : ℕ) → n < length root.roll → is_among n root.joined ≡ true }
    ensures last { result.last.value ≡ root }
    ensures legal { IsLegalWith root.opening root.roll root.seen }
    ensures joined { is_of root.joined root.seen ≡ true }
    ensures theirs { AreTheirs root.joined root.lists root.seen }
    ensures rest { IsAtRest (configuration_of (setting_of root.opening root.roll) root.seen).state }
    ensures words { AreAllShown root.opening.limits (length root.roll) (configuration_of (setting_of root.opening root.roll) root.seen) [] result.words }
    ensures made { slice_index result.words made_word ≤ root.opening.limits.callers }
    ensures vs { StandsForVs root.opening (configuration_of (setting_of root.opening root.roll) root.seen).state (T.stands result.vs) }
    ensures back { StandsForBack root.opening (configuration_of (setting_of root.opening root.roll) root.seen).state (T.stands result.back) }
    ensures large { StandsForLarge root.opening (configuration_of (setting_of root.opening root.roll) root.seen).state (T.stands result.large) }
{
    let last = Snapshot::of(&root);
    let Root { place, made: _ } = root;
    let Heap {
        table,
        opening: _,
        closing,
    } = heap;
    let mut closed = table.close_with(place);
    let vs = held(closed.take(0));
    let back = held(closed.take(1));
    let large = held(closed.take(2));
    let words = copied(&closed, closing);
    closed.free();
    Closed {
        words,
        vs,
        back,
        large,
        last,
    }
}
