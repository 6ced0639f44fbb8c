//! That no block begins at an address, said by one load.
ghost use Rattle.std.specs.Prelude.{◌≡◌, ◌<◌, ℕ, true, [], ◌∷◌};
ghost use Rattle.heap_model.specs.declared.Act.TheVariants.{NotLive};
ghost use Rattle.front_calls.specs.Parts.{GoesBy};
ghost use Rattle.address_calls.specs.Finds.{IsFree, IsNone};
ghost use mathlib.Core.Option.{none};
ghost use Rattle.atomic_table.specs.Table.{step};
ghost use Rattle.heap_model.specs.State.{Setting};
ghost use Rattle.claim_rule.specs.Entries.{IsSettingOf};
ghost use Rattle.claim_rule.specs.Plays.{number_of};
ghost use Rattle.claim_rule.specs.Rule.{IsReady, ready_after};
ghost use Rattle.look_steps.specs.Denials.{MayDeny, denied};
ghost use Rattle.heap_gate.specs.Token.{Always, now};
ghost use Rattle.lfh_claims.specs.Blocks.{HasFoundNone};

use call_parts::State;
use claim_rule::{Carried, MADE};
use heap_gate::{Caller, Heap, Prepared};
use heap_model::Stands;
use look_steps::steps::deny_as;
use std::marker::Brand;
use step_parts::{Seating, Table, Target};

// The address and the entries are those of the caller's arguments, for the proof alone.
fn deny_by<T: Stands, B: Target, E: Carried>(
    top: &Table<T>,
    place: &mut Seating<T>,
    _prepared: &Prepared,
    _addr: u64,
    at: usize,
)
    requires table { (place.old.table_id ≡ top.now.table_id) × (at < top.now.table_id.words) }
    requires ready { IsReady (number_of place.old.me.0.role) place.old.me.0 E.entries }
    requires may { (s : Setting) → IsSettingOf place.old.me.0.opening place.old.me.0.roll s → MayDeny top.now.key.limits (ready_after s place.old.me.0 E.entries) (number_of place.old.me.0.role) B.number }
    ensures table { place.new.table_id ≡ place.old.table_id }
    ensures told { (r : ℕ) × denied E.entries B.number (step top.now.table_id.slots at 0 0 none) place.old.me r place.new.me }
{
    deny_as::<T, B, E>(top, place, at);
}

/// Says that no live block has an address, by one load. It holds whatever other callers do: no block can begin there, or only locks
/// that the caller holds change what is there.
fn deny(heap: &Heap<State>, c: &mut Caller<State>, addr: u64)
    requires table { (c.old.table ≡ heap.now.table) × (c.old.opening ≡ heap.now.opening) }
    requires whole { c.old.whole ≡ true }
    requires none { Always c.old (λ s. MayDeny c.old.opening.limits (now s c.old) c.old.number addr) }
    ensures { HasFoundNone c.old c.new addr }
{
    deny_by::<State, Brand, Brand>(&heap.table.shared, &mut c.place, &c.prepared, addr, MADE);
    c.prepared.clear();
    c.pending = false;
}

/// Says that no block begins at an address where none can.
pub(crate) fn say_none(heap: &Heap<State>, c: &mut Caller<State>, addr: u64)
    requires table { (c.old.table ≡ heap.now.table) × (c.old.opening ≡ heap.now.opening) }
    requires free { IsFree c.old }
    requires none { IsNone c.old.opening.limits addr }
    ensures { GoesBy c.old c.new (NotLive addr ∷ []) }
{
    c.check();
    deny(heap, c, addr);
}
