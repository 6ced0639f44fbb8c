//! The words of a block that moves.
ghost use Rattle.std.specs.Prelude.{◌≡◌, ◌+◌, ◌-◌, ◌/◌, ◌≤◌, ℕ, List, true, length, min};
ghost use Rattle.heap_model.specs.Geometry.{words_of};
ghost use Rattle.heap_model.specs.Shape.{moving};
ghost use Rattle.claim_rule.specs.Places.{data_count};
ghost use Rattle.call_parts.specs.Entries.{Zeroes};
ghost use Rattle.move_parts.specs.Moves.{HasFilled};

use call_parts::State;
use data_words::{clear, copy};
use heap_gate::{Caller, Heap};

/// Stores 0 into the words that a block of `n` bytes at `b` has behind those of `size` bytes, if that is asked.
fn zero_gained(heap: &Heap<State>, c: &mut Caller<State>, b: u64, size: u64, n: u64, zero: bool)
    requires table { (c.old.table ≡ heap.now.table) × (c.old.opening ≡ heap.now.opening) }
    requires whole { c.old.whole ≡ true }
    requires inside { c.old.inside ≡ true }
    requires there { b / 8 + words_of n ≤ data_count c.old.opening.limits }
    ensures { Zeroes c.old c.new (b / 8 + words_of size) (words_of n - words_of size) zero }
{
    let had = size.div_ceil(8);
    let has = n.div_ceil(8);
    if zero && had < has {
        let _bounds = heap.limits();
        clear(heap, c, b / 8 + had, has - had);
    }
}

/// Copies the words that a block of `size` bytes at `addr` and a new one of `n` bytes at `b` both have, word by word in rising order,
/// and stores 0 into those that the new one gains, if that is asked.
pub fn move_words(
    heap: &Heap<State>,
    c: &mut Caller<State>,
    addr: u64,
    size: u64,
    b: u64,
    n: u64,
    zero: bool,
)
    requires table { (c.old.table ≡ heap.now.table) × (c.old.opening ≡ heap.now.opening) }
    requires whole { c.old.whole ≡ true }
    requires inside { c.old.inside ≡ true }
    requires from { addr / 8 + words_of size ≤ data_count c.old.opening.limits }
    requires to { b / 8 + words_of n ≤ data_count c.old.opening.limits }
    ensures { (values : List ℕ) × (length values ≡ words_of (min size n)) × HasFilled c.old c.new (moving addr size b n zero values) }
{
    let _bounds = heap.limits();
    copy(heap, c, addr / 8, b / 8, size.min(n).div_ceil(8));
    zero_gained(heap, c, b, size, n, zero);
}
