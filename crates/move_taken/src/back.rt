//! A block that was taken to move it, and does not.
ghost use Rattle.std.specs.Prelude.{◌≡◌};
ghost use Rattle.lfh_claims.specs.declared.tag.Tag.{Tag as ATag};
ghost use Rattle.move_taken.specs.Holds.{HasTakenBlock};
ghost use Rattle.move_taken.specs.Moved.{IsGivenBack};

use call_parts::State;
use heap_gate::{Caller, Heap, rest};
use lfh_claims::publish;

/// Makes the block that was taken live again, with the size that it had. Nothing is in hand then. What was prepared comes before.
pub fn give_taken_back(heap: &Heap<State>, c: &mut Caller<State>, addr: u64, size: u64)
    requires table { (c.old.table ≡ heap.now.table) × (c.old.opening ≡ heap.now.opening) }
    requires block { (tag : ATag) × HasTakenBlock c.old tag addr size }
    ensures { IsGivenBack c.old c.new addr size }
{
    c.check();
    publish(heap, c, addr, size);
    c.check();
    rest(c);
}
