//! The contents of blocks: data words, each loaded or stored by one step of a caller that is inside, with its entry.
//!
//! The number of a data word is the address that it has, divided by 8.
#![tactic(auto)]

mod steps;
#[cfg(test)]
mod tests;

ghost use Rattle.std.specs.Prelude.{◌≡◌, ◌+◌, ◌<◌, ◌≤◌, ◌∷◌, [], true, List, ℕ, length};
ghost use Rattle.heap_model.specs.declared.Act.TheVariants.{Load, Store};
ghost use Rattle.claim_rule.specs.Entries.{entry};
ghost use Rattle.claim_rule.specs.Places.{data_count};
ghost use Rattle.heap_gate.specs.Calls.{Runs, Stands as Standing, stance};
ghost use Rattle.data_words.specs.Copies.{IsCopied};
ghost use Rattle.data_words.specs.Clears.{IsCleared};

use crate::steps::{load_by, store_by};
use heap_gate::{Caller, Heap};
use heap_model::Stands;
use std::marker::Brand;
use table_words::data_from;

/// Loads a data word.
pub fn load<T: Stands>(heap: &Heap<T>, c: &mut Caller<T>, word: u64) -> u64
    requires table { (c.old.table ≡ heap.now.table) × (c.old.opening ≡ heap.now.opening) }
    requires whole { c.old.whole ≡ true }
    requires inside { c.old.inside ≡ true }
    requires there { word < data_count c.old.opening.limits }
    ensures runs { Runs c.old c.new (entry c.old.number (Load word result) ∷ []) }
    ensures stands { Standing c.new (stance c.old) }
{
    let limits = heap.limits();
    let at = (data_from(&limits) + word) as usize;
    let value = load_by::<T, Brand, Brand>(&heap.table.shared, &mut c.place, &c.prepared, word, at);
    c.prepared.clear();
    c.pending = false;
    value
}

/// Stores a data word.
pub fn store<T: Stands>(heap: &Heap<T>, c: &mut Caller<T>, word: u64, value: u64)
    requires table { (c.old.table ≡ heap.now.table) × (c.old.opening ≡ heap.now.opening) }
    requires whole { c.old.whole ≡ true }
    requires inside { c.old.inside ≡ true }
    requires there { word < data_count c.old.opening.limits }
    ensures runs { Runs c.old c.new (entry c.old.number (Store word value) ∷ []) }
    ensures stands { Standing c.new (stance c.old) }
{
    let limits = heap.limits();
    let at = (data_from(&limits) + word) as usize;
    store_by::<T, Brand, Brand>(
        &heap.table.shared,
        &mut c.place,
        &c.prepared,
        word,
        at,
        value,
    );
    c.prepared.clear();
    c.pending = false;
}

/// Copies `n` data words to others, word by word in rising order: each is loaded, and then stored. Other callers' stores between
/// may show in the copy.
pub fn copy<T: Stands>(heap: &Heap<T>, c: &mut Caller<T>, from: u64, to: u64, n: u64)
    requires table { (c.old.table ≡ heap.now.table) × (c.old.opening ≡ heap.now.opening) }
    requires whole { c.old.whole ≡ true }
    requires inside { c.old.inside ≡ true }
    requires source { from + n ≤ data_count c.old.opening.limits }
    requires target { to + n ≤ data_count c.old.opening.limits }
    ensures { (values : List ℕ) × (length values ≡ n) × IsCopied c.old c.new from to values }
{
    let _bounds = heap.limits();
    for k in 0..n {
        let value = load(heap, c, from + k);
        store(heap, c, to + k, value);
    }
}

/// Stores 0 into `n` data words, word by word in rising order.
pub fn clear<T: Stands>(heap: &Heap<T>, c: &mut Caller<T>, word: u64, n: u64)
    requires table { (c.old.table ≡ heap.now.table) × (c.old.opening ≡ heap.now.opening) }
    requires whole { c.old.whole ≡ true }
    requires inside { c.old.inside ≡ true }
    requires there { word + n ≤ data_count c.old.opening.limits }
    ensures { IsCleared c.old c.new word n }
{
    let _bounds = heap.limits();
    for i in 0..n {
        store(heap, c, word + i, 0);
    }
}
