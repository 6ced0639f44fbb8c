//! What is left of a heap that is closed.
ghost use Rattle.std.specs.Prelude.{◌≡◌, length, Some};
ghost use Rattle.std.specs.Slots.{slots_items, slots_len, IsFull};

use crate::root::Root;
use heap_model::{Stands, Words};
use std::alloc::Global;
use std::snapshot::Snapshot;

/// What is left of a heap: the words, the states of the layers, and the root, whose list is the final history.
#[derive(Drop)]
pub struct Closed<T: Stands> {
    pub words: Words,
    pub vs: T,
    pub back: T,
    pub large: T,
    pub last: Snapshot<Root<T>>,
}

// The words of a closed table, in a list that has room for them.
pub(crate) fn copied<S>(closed: &atomic_table::Closed<Option<S>, Global>, mut words: Words) -> Words
    requires full { IsFull closed.now.words }
    requires many { length (slots_items closed.now.words) ≡ slots_len closed.now.words }
    requires room { length words ≡ slots_len closed.now.words }
    ensures { result ≡ slots_items closed.now.words }
{
    let count = words.as_slice().len();
    for i in 0..count {
        words.set(i as u64, closed.word(i));
    }
    words
}

// The state that a full slot has.
pub(crate) fn held<S>(slot: Option<S>) -> S
    requires { (s : S) × (slot ≡ Some s) }
    ensures { slot ≡ Some result }
{
    match slot {
        Some(state) => state,
        None => unreachable!(),
    }
}
