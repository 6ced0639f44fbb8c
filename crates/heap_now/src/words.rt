//! A word of a block whose size is known.
ghost use Rattle.std.specs.Prelude.{◌≡◌, ◌+◌, ◌/◌, ◌≤◌};
ghost use Rattle.heap_model.specs.declared.Call.{Call as ACall};
ghost use Rattle.heap_model.specs.Geometry.{words_of};
ghost use Rattle.claim_rule.specs.Places.{data_count};
ghost use Rattle.call_parts.specs.Calls.{IsInside};
ghost use Rattle.heap_now.specs.Words.{LoadsWord, StoresWord};

use call_parts::State;
use data_words::{load, store};
use heap_gate::{Caller, Heap};
use heap_model::WordNo;

/// Loads word `index` of the block of `size` bytes at `addr`, where it has so many words.
pub(crate) fn load_of(
    heap: &Heap<State>,
    c: &mut Caller<State>,
    addr: u64,
    index: u64,
    size: u64,
) -> Result<u64, WordNo>
    requires table { (c.old.table ≡ heap.now.table) × (c.old.opening ≡ heap.now.opening) }
    requires inside { (call : ACall) × IsInside c.old call }
    requires there { addr / 8 + words_of size ≤ data_count c.old.opening.limits }
    ensures { LoadsWord c.old c.new addr index size result }
{
    let words = size.div_ceil(8);
    if index >= words {
        return Err(WordNo::Past { words });
    }
    let _bounds = heap.limits();
    Ok(load(heap, c, addr / 8 + index))
}

/// Stores into word `index` of the block of `size` bytes at `addr`, where it has so many words.
pub(crate) fn store_of(
    heap: &Heap<State>,
    c: &mut Caller<State>,
    addr: u64,
    index: u64,
    size: u64,
    value: u64,
) -> Result<(), WordNo>
    requires table { (c.old.table ≡ heap.now.table) × (c.old.opening ≡ heap.now.opening) }
    requires inside { (call : ACall) × IsInside c.old call }
    requires there { addr / 8 + words_of size ≤ data_count c.old.opening.limits }
    ensures { StoresWord c.old c.new addr index size value result }
{
    let words = size.div_ceil(8);
    if index >= words {
        return Err(WordNo::Past { words });
    }
    let _bounds = heap.limits();
    store(heap, c, addr / 8 + index, value);
    Ok(())
}
