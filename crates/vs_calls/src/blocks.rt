//! Blocks of the variable-size layer that are there.
ghost use Rattle.std.specs.Prelude.{◌≡◌, ℕ, ◌+◌, ◌≤◌, ◌∷◌, [], Some, is_some, true, length};
ghost use Rattle.heap_model.specs.declared.Act.TheVariants.{Sized};
ghost use Rattle.heap_model.specs.declared.Call.{Call as ACall};
ghost use Rattle.call_parts.specs.Calls.{Makes};
ghost use Rattle.vs_calls.specs.Blocks.{HasVs, IsUnderVs, HasTakenOut, LiesWithin, size_at};

use call_parts::{State, give_vs, prepare_all};
use heap_gate::{Caller, Heap, prepare, rest};
use heap_model::{Act, GRANULE_BYTES};
use vs_layer::Vs;

/// Nothing at run time but two looks at headers: it tells a proof that the words of a block lie among the data words.
pub fn lies_within(vs: &Vs, addr: u64)
    requires { is_some (size_at vs.now addr) ≡ true }
    ensures { (size : ℕ) → size_at vs.now addr ≡ Some size → LiesWithin vs.now.limits addr size }
{
    let _size = vs.find(addr);
    let _head = vs.heads().chunk_at(addr - GRANULE_BYTES);
}

/// Finds the size of the block at an address, which is there, and gives the lock back. Its words lie among the data words.
pub fn measure_vs(heap: &Heap<State>, c: &mut Caller<State>, vs: Vs, addr: u64) -> u64
    requires table { c.old.table ≡ heap.now.table }
    requires vs { HasVs c.old vs }
    requires there { is_some (size_at vs addr) ≡ true }
    ensures size { size_at vs addr ≡ Some result }
    ensures within { LiesWithin c.old.opening.limits addr result }
    ensures made { (call : ACall) → c.old.call ≡ Some call → Makes c.old c.new call (Sized addr result ∷ []) }
{
    c.check();
    lies_within(&vs, addr);
    let size = vs.find(addr).unwrap();
    prepare(c, Act::Sized { addr, size });
    give_vs(heap, c, vs);
    size
}

/// Takes the block at an address, which is there, and drops its place. Both are prepared under the lock of the layer, whose state does
/// not know it yet, and the size of the block is answered.
pub fn take_out(c: &mut Caller<State>, vs: &Vs, addr: u64) -> u64
    requires vs { IsUnderVs c.old vs.now }
    requires there { is_some (size_at vs.now addr) ≡ true }
    requires room { length c.old.prepared + 2 ≤ 16 }
    ensures size { size_at vs.now addr ≡ Some result }
    ensures out { HasTakenOut c.old c.new addr result }
{
    c.check();
    let size = vs.find(addr).unwrap();
    prepare_all(c, &[Act::Take { addr, size }, Act::Drop { addr }]);
    rest(c);
    size
}
