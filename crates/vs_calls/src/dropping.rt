//! A block of the variable-size layer is dropped, with its span where it is the last one there.
ghost use Rattle.std.specs.Prelude.{◌≡◌, ◌∷◌, [], ℕ, true, false, IfOk, IfErr, is_some};
ghost use Rattle.heap_model.specs.declared.Act.TheVariants.{GiveLock, Unspan};
ghost use Rattle.heap_model.specs.declared.What.TheVariants as whats;
ghost use Rattle.heap_model.specs.declared.Call.{Call as ACall};
ghost use Rattle.heap_model.specs.Legal.{leaves_whole};
ghost use Rattle.heap_gate.specs.Token.{Always, now};
ghost use Rattle.vs_layer.specs.Effects.{TellsLast};
ghost use Rattle.call_parts.specs.Calls.{HoldsBoth};
ghost use Rattle.vs_calls.specs.Blocks.{HasVs, size_at};
ghost use Rattle.vs_calls.specs.Parts.{HasFreed, HasDroppedBy, KeepsBlock};

use crate::blocks::take_out;
use crate::spans::end_span;
use backend_fit::Back;
use call_parts::{State, give_vs, take_back};
use heap_gate::{Caller, Heap};
use heap_model::Busy;
use vs_layer::Vs;

/// Drops the block at an address, which leaves another in its span, and gives the lock back.
fn drop_in_span(heap: &Heap<State>, c: &mut Caller<State>, mut vs: Vs, addr: u64)
    requires table { c.old.table ≡ heap.now.table }
    requires vs { HasVs c.old vs }
    requires there { is_some (size_at vs addr) ≡ true }
    requires stays { TellsLast vs addr false }
    ensures { HasDroppedBy c.old c.new vs addr (GiveLock whats.Vs ∷ []) }
{
    c.check();
    let _head = vs.heads().chunk_at(addr);
    let _size = take_out(c, &vs, addr);
    vs.drop_block(addr);
    give_vs(heap, c, vs);
}

/// Drops the block at an address, the last one of its span, which goes back to the back end. Both locks are given back.
fn drop_with_span(heap: &Heap<State>, c: &mut Caller<State>, mut vs: Vs, back: Back, addr: u64)
    requires table { c.old.table ≡ heap.now.table }
    requires both { (call : ACall) × HoldsBoth c.old call vs back }
    requires used { Always c.old (λ s. leaves_whole (now s c.old).state whats.Vs ≡ true) }
    requires there { is_some (size_at vs addr) ≡ true }
    requires last { TellsLast vs addr true }
    ensures { (first : ℕ) × HasDroppedBy c.old c.new vs addr (Unspan first ∷ GiveLock whats.Back ∷ GiveLock whats.Vs ∷ []) }
{
    c.check();
    let _region = back.region();
    let _head = vs.heads().chunk_at(addr);
    let _size = take_out(c, &vs, addr);
    match vs.drop_block(addr) {
        Some((first, _)) => end_span(heap, c, vs, back, first),
        None => unreachable!(),
    }
}

/// Takes the block at an address, which is there, and drops its place. Its span, where no block is left in it, goes back to the back
/// end, whose lock is tried once, before anything has changed. All locks are given back.
pub fn drop_vs(heap: &Heap<State>, c: &mut Caller<State>, vs: Vs, addr: u64) -> Result<(), Busy>
    requires table { c.old.table ≡ heap.now.table }
    requires vs { HasVs c.old vs }
    requires there { is_some (size_at vs addr) ≡ true }
    ensures freed { IfOk result (λ u. HasFreed c.old c.new vs addr) }
    ensures busy { IfErr result (λ b. KeepsBlock c.old c.new vs addr b) }
{
    c.check();
    if !vs.empties(addr) {
        drop_in_span(heap, c, vs, addr);
        return Ok(());
    }
    let back = match take_back(heap, c) {
        Ok(back) => back,
        Err(busy) => {
            give_vs(heap, c, vs);
            return Err(busy);
        }
    };
    drop_with_span(heap, c, vs, back, addr);
    Ok(())
}
