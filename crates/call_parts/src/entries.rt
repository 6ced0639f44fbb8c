//! The entries that a part prepares, and the block that it has in hand.
ghost use Rattle.std.specs.Prelude.{◌≡◌, ◌+◌, ◌*◌, ◌/◌, ◌<◌, ◌≤◌, [], true, length};
ghost use Rattle.heap_model.specs.Geometry.{words_of};
ghost use Rattle.claim_rule.specs.Entries.{are_prepared};
ghost use Rattle.claim_rule.specs.Places.{data_count};
ghost use Rattle.call_laws.specs.Within.{by_all};
ghost use Rattle.heap_gate.specs.Token.{Always, now};
ghost use Rattle.heap_model.specs.State.{Place};
ghost use Rattle.call_parts.specs.Entries.{with_all, HasNew, Zeroes, HasHandedOver};

use crate::state::State;
use data_words::clear;
use heap_gate::{Caller, Heap, prepare, rest};
use heap_model::Act;

/// Prepares entries one behind another.
pub fn prepare_all(c: &mut Caller<State>, acts: &[Act])
    requires room { length c.old.prepared + length acts.now ≤ 16 }
    requires may { Always c.old (λ s. are_prepared s (now s c.old) c.old.number (by_all c.old.number acts.now) ≡ true) }
    ensures { c.new ≡ with_all c.old acts.now }
{
    for act in acts {
        prepare(c, *act);
    }
}

/// Stores 0 into so many words, if that is asked.
fn zero_words(heap: &Heap<State>, c: &mut Caller<State>, word: u64, words: u64, zero: bool)
    requires table { (c.old.table ≡ heap.now.table) × (c.old.opening ≡ heap.now.opening) }
    requires whole { c.old.whole ≡ true }
    requires inside { c.old.inside ≡ true }
    requires there { word + words ≤ data_count c.old.opening.limits }
    ensures { Zeroes c.old c.new word words zero }
{
    if zero {
        clear(heap, c, word, words);
    }
}

/// Gives the new block in hand, whose words are 0 then if that is asked.
pub fn hand_over(heap: &Heap<State>, c: &mut Caller<State>, addr: u64, n: u64, zero: bool)
    requires table { (c.old.table ≡ heap.now.table) × (c.old.opening ≡ heap.now.opening) }
    requires room { length c.old.prepared < 16 }
    requires there { addr / 8 + words_of n ≤ data_count c.old.opening.limits }
    requires new { (p : Place) × HasNew c.old p addr n }
    ensures { (p : Place) → HasNew c.old p addr n → HasHandedOver c.old c.new p n zero }
{
    zero_words(heap, c, addr / 8, n.div_ceil(8), zero);
    c.check();
    prepare(c, Act::Give { addr, size: n });
    rest(c);
}
