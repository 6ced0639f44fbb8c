//! The words that a block gains, and the granules of its pages.
ghost use Rattle.std.specs.Prelude.{◌≡◌, ◌*◌, ◌+◌, ◌-◌, ◌/◌, ◌<◌, ◌≤◌, true};
ghost use Rattle.heap_model.specs.Geometry.{words_of, pages_of};
ghost use Rattle.claim_rule.specs.Places.{data_count};
ghost use Rattle.call_parts.specs.Entries.{Zeroes};

use call_parts::State;
use data_words::clear;
use heap_gate::{Caller, Heap};
use heap_model::{PAGE_BYTES, PAGE_GRANULES};

/// Stores 0 into the words that a block of `size` bytes gains where it gets `n`, if that is asked.
pub(crate) fn zero_gained(
    heap: &Heap<State>,
    c: &mut Caller<State>,
    addr: u64,
    size: u64,
    n: u64,
    zero: bool,
)
    requires table { (c.old.table ≡ heap.now.table) × (c.old.opening ≡ heap.now.opening) }
    requires whole { c.old.whole ≡ true }
    requires inside { c.old.inside ≡ true }
    requires there { addr / 8 + words_of n ≤ data_count c.old.opening.limits }
    ensures { Zeroes c.old c.new (addr / 8 + words_of size) (words_of n - words_of size) zero }
{
    let had = size.div_ceil(8);
    let has = n.div_ceil(8);
    if zero && had < has {
        let _bounds = heap.limits();
        clear(heap, c, addr / 8 + had, has - had);
    }
}

/// The granules of the pages of a block of `n` bytes.
pub(crate) fn granules_for(n: u64) -> u64
    ensures { result ≡ 256 * pages_of n }
{
    u64::from(PAGE_GRANULES) * n.div_ceil(PAGE_BYTES)
}

/// The pages of a block of `n` bytes.
pub(crate) fn pages_for(n: u64) -> u32
    requires { (131073 ≤ n) × (n ≤ 520192) }
    ensures pages { result ≡ pages_of n }
    ensures some { (0 < result) × (result ≤ 127) }
    ensures unused { (n ≤ 4096 * result) × (4096 * result ≤ n + 4095) }
{
    n.div_ceil(PAGE_BYTES) as u32
}
