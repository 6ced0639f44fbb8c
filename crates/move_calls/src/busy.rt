//! The end of a move for which a lock was busy.
ghost use Rattle.std.specs.Prelude.{◌≡◌, ℕ};
ghost use Rattle.heap_model.specs.declared.Flags.{Flags as AFlags};
ghost use Rattle.heap_gate.specs.Token.{Token};
ghost use Rattle.move_calls.specs.Ends.{IsBehindMiss};
ghost use Rattle.move_calls.specs.Moves.{IsInTheWay};

use crate::gives::give_all;
use crate::held::Held;
use call_parts::State;
use heap_gate::{Caller, Heap};
use heap_model::Busy;

/// Gives all locks back behind one that another caller holds. The block is as it was.
pub fn end_busy(heap: &Heap<State>, c: &mut Caller<State>, held: Held, busy: Busy)
    requires table { c.old.table ≡ heap.now.table }
    requires behind { (k : Token) × (addr n : ℕ) × (flags : AFlags) × IsBehindMiss k c.old addr n flags held busy }
    ensures { (k : Token) (addr n : ℕ) (flags : AFlags) → IsBehindMiss k c.old addr n flags held busy → IsInTheWay k c.new addr n flags busy }
{
    give_all(heap, c, held);
}
