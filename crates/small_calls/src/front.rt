//! A block of the front end that is given, and the first pass of its search, without a lock.
ghost use Rattle.std.specs.Prelude.{◌≡◌, ◌+◌, ◌≤◌, List, ℕ, Some, true, false};
ghost use Rattle.heap_model.specs.declared.Call.TheVariants as calls;
ghost use Rattle.heap_model.specs.declared.What.TheVariants as whats;
ghost use Rattle.heap_model.specs.Buckets.{bucket_of};
ghost use Rattle.claim_rule.specs.Places.{data_count};
ghost use Rattle.heap_gate.specs.Token.{Always, now, is_out};
ghost use Rattle.call_parts.specs.Entries.{Zeroes};
ghost use Rattle.lfh_claims.specs.Search.{own_slot};
ghost use Rattle.small_calls.specs.Fronts.{HasRoomFor, IsHandedOver, IsAsking, ServesByHint};

use call_parts::State;
use data_words::clear;
use heap_gate::{Caller, Heap, rest};
use lfh_claims::publish;
use lfh_search::{First, search_hint};
use random_pick::Draw;

/// What the first pass of the front end comes to.
#[derive(Clone, Copy, Debug)]
pub enum ByHint {
    /// The block at this address is given.
    Placed { addr: u64 },
    /// The search goes on under the back end's lock, by this draw; so many claims were lost.
    Spent { lost: u32, draw: Draw },
}

/// Stores 0 into so many words, if that is asked.
fn zero_words(heap: &Heap<State>, c: &mut Caller<State>, word: u64, words: u64, zero: bool)
    requires table { (c.old.table ≡ heap.now.table) × (c.old.opening ≡ heap.now.opening) }
    requires whole { c.old.whole ≡ true }
    requires inside { c.old.inside ≡ true }
    requires there { word + words ≤ data_count c.old.opening.limits }
    ensures { Zeroes c.old c.new word words zero }
{
    if zero {
        clear(heap, c, word, words);
    }
}

/// Gives the block of the front end in hand with `n` bytes, whose words are 0 then if that is asked.
pub fn hand_over_front(heap: &Heap<State>, c: &mut Caller<State>, addr: u64, n: u64, zero: bool)
    requires table { (c.old.table ≡ heap.now.table) × (c.old.opening ≡ heap.now.opening) }
    requires size { n ≤ 16368 }
    requires one { HasRoomFor c.old n addr }
    ensures { IsHandedOver c.old c.new addr n zero }
{
    c.check();
    zero_words(heap, c, addr / 8, n.div_ceil(8), zero);
    c.check();
    publish(heap, c, addr, n);
    c.check();
    rest(c);
}

/// Nothing at run time: it tells a proof that each setting has the caller's slot.
fn check_slot(c: &Caller<State>)
    ensures { Always c.now (λ s. s.slot c.now.number ≡ own_slot c.now) }
{
    let _number = c.number;
}

/// Searches an active bucket from its hint on, takes no lock for it, and gives the block that it finds with `n` bytes, whose words are 0
/// then if that is asked. It reads the hint, at most the words of the one subsegment that it names, and no others.
#[inline(always)]
pub fn serve_by_hint(
    heap: &Heap<State>,
    c: &mut Caller<State>,
    bucket: u8,
    n: u64,
    zero: bool,
) -> ByHint
    requires table { (c.old.table ≡ heap.now.table) × (c.old.opening ≡ heap.now.opening) }
    requires bucket { bucket_of n ≡ Some bucket }
    requires asking { (out : List ℕ) × IsAsking c.old n zero out }
    requires free { is_out whats.Back c.old.out ≡ false }
    requires active { Always c.old (λ s. (now s c.old).state.vs.active bucket ≡ true) }
    ensures { (out : List ℕ) (x : IsAsking c.old n zero out) → ServesByHint c.old c.new (calls.Alloc n x.flags) bucket n zero result }
{
    let _limits = heap.limits();
    c.check();
    check_slot(c);
    let draw = c.draw();
    match search_hint(heap, c, bucket, draw) {
        First::Claimed(found) => {
            hand_over_front(heap, c, found.addr, n, zero);
            ByHint::Placed { addr: found.addr }
        }
        First::Spent { lost } => ByHint::Spent { lost, draw },
    }
}
