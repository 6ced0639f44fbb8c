//! What an allocation of the variable-size layer does under its lock: a block goes into a gap, or no range fits.
ghost use Rattle.std.specs.Prelude.{◌≡◌, ◌≤◌, None, Some, is_some, true};
ghost use Rattle.heap_model.specs.declared.Call.{Call as ACall};
ghost use Rattle.heap_model.specs.declared.Call.TheVariants as calls;
ghost use Rattle.heap_model.specs.declared.Flags.{Flags as AFlags};
ghost use Rattle.heap_model.specs.declared.Reply.TheVariants as replies;
ghost use Rattle.heap_model.specs.declared.What.TheVariants as whats;
ghost use Rattle.heap_model.specs.Backend.{back_place};
ghost use Rattle.heap_model.specs.Geometry.{span_pages_of};
ghost use Rattle.heap_model.specs.Legal.{leaves_whole};
ghost use Rattle.heap_model.specs.Shape.{Replied};
ghost use Rattle.backend_fit.specs.Kept.{area_of};
ghost use Rattle.heap_gate.specs.Token.{Always, now};
ghost use Rattle.vs_layer.specs.Kept.{place_for};
ghost use Rattle.call_parts.specs.Calls.{HoldsVs, HoldsBoth, Brings};
ghost use Rattle.vs_calls.specs.Blocks.{IsForVs, HasHeld};
ghost use Rattle.vs_calls.specs.Tries.{LeavesBack};

use crate::placing::{hold_in_gap, refuse};
use backend_fit::Back;
use call_parts::State;
use heap_gate::{Caller, Heap};
use vs_layer::Vs;

/// Places a block of `n` bytes, at most 131,072, at the front of the smallest gap that holds it, and has it in hand. Its bucket, if it
/// has one, is neither active nor due.
pub fn hold_new(c: &mut Caller<State>, vs: &mut Vs, n: u64) -> u64
    requires size { n ≤ 131072 }
    requires holds { (flags : AFlags) × HoldsVs c.old (calls.Alloc n flags) vs.old }
    requires vs { IsForVs c.old n }
    requires fits { is_some (place_for vs.old n) ≡ true }
    ensures { HasHeld c.old c.new vs.old vs.new n result }
{
    c.check();
    hold_in_gap(c, vs, n)
}

/// Answers an allocation of `n` bytes, at most 131,072, that no gap holds and for which the back end has no pages for a new
/// subsegment. Both locks are given back.
pub fn refuse_new(heap: &Heap<State>, c: &mut Caller<State>, vs: Vs, back: Back, n: u64)
    requires size { n ≤ 131072 }
    requires table { c.old.table ≡ heap.now.table }
    requires holds { (flags : AFlags) × HoldsBoth c.old (calls.Alloc n flags) vs back }
    requires used { Always c.old (λ s. leaves_whole (now s c.old).state whats.Vs ≡ true) }
    requires vs { IsForVs c.old n }
    requires no_gap { place_for vs n ≡ None }
    requires no_pages { back_place (area_of back) back.limits.segments (span_pages_of n) ≡ None }
    ensures refused { (call : ACall) → c.old.call ≡ Some call → Brings c.old c.new call (Replied replies.NoFit) }
    ensures leaves { LeavesBack c.old c.new }
{
    c.check();
    refuse(heap, c, vs, back, n);
}
