//! The locks that a move lacks, each tried once.
ghost use Rattle.std.specs.Prelude.{◌≡◌, ℕ, List, false, IfOk, IfErr};
ghost use Rattle.heap_model.specs.declared.Flags.{Flags as AFlags};
ghost use Rattle.heap_model.specs.declared.What.TheVariants as whats;
ghost use Rattle.heap_model.specs.State.{Place};
ghost use Rattle.heap_gate.specs.Token.{is_out};
ghost use Rattle.move_parts.specs.Moves.{TellsVs, TellsBack, TellsLarge};
ghost use Rattle.move_calls.specs.Holds.{IsGathering, HasOneMore, HasMet, IsReadyToMove};

use backend_fit::Back;
use call_parts::{State, take_back, take_large, take_vs};
use heap_gate::{Caller, Heap};
use heap_model::Busy;
use large_blocks::Large;
use stay_calls::hear;
use vs_layer::Vs;

/// Takes the lock of the variable-size layer, which is lacking.
pub fn also_vs(heap: &Heap<State>, c: &mut Caller<State>) -> Result<Vs, Busy>
    requires table { c.old.table ≡ heap.now.table }
    requires gathering { (addr size n : ℕ) × (flags : AFlags) × (p : Place) × (out : List ℕ) × IsGathering c.old addr size n flags p out × (is_out whats.Vs out ≡ false) }
    ensures ok { IfOk result (λ vs. (addr size n : ℕ) (flags : AFlags) (p : Place) (out : List ℕ) → IsGathering c.old addr size n flags p out → HasOneMore c.old c.new addr size n flags p out whats.Vs) }
    ensures tells { IfOk result (λ vs. TellsVs c.new vs) }
    ensures busy { IfErr result (λ b. HasMet c.old c.new c.old.out whats.Vs b) }
{
    c.check();
    let taken = take_vs(heap, c);
    c.check();
    taken
}

/// Takes the lock of the back end, which is lacking.
pub fn also_back(heap: &Heap<State>, c: &mut Caller<State>) -> Result<Back, Busy>
    requires table { c.old.table ≡ heap.now.table }
    requires gathering { (addr size n : ℕ) × (flags : AFlags) × (p : Place) × (out : List ℕ) × IsGathering c.old addr size n flags p out × (is_out whats.Back out ≡ false) }
    ensures ok { IfOk result (λ back. (addr size n : ℕ) (flags : AFlags) (p : Place) (out : List ℕ) → IsGathering c.old addr size n flags p out → HasOneMore c.old c.new addr size n flags p out whats.Back) }
    ensures tells { IfOk result (λ back. TellsBack c.new back) }
    ensures busy { IfErr result (λ b. HasMet c.old c.new c.old.out whats.Back b) }
{
    c.check();
    let taken = take_back(heap, c);
    c.check();
    taken
}

/// Takes the lock of the large area, which is lacking.
pub fn also_large(heap: &Heap<State>, c: &mut Caller<State>) -> Result<Large, Busy>
    requires table { c.old.table ≡ heap.now.table }
    requires gathering { (addr size n : ℕ) × (flags : AFlags) × (p : Place) × (out : List ℕ) × IsGathering c.old addr size n flags p out × (is_out whats.Large out ≡ false) }
    ensures ok { IfOk result (λ large. (addr size n : ℕ) (flags : AFlags) (p : Place) (out : List ℕ) → IsGathering c.old addr size n flags p out → HasOneMore c.old c.new addr size n flags p out whats.Large) }
    ensures tells { IfOk result (λ large. TellsLarge c.new large) }
    ensures busy { IfErr result (λ b. HasMet c.old c.new c.old.out whats.Large b) }
{
    c.check();
    let taken = take_large(heap, c);
    c.check();
    taken
}

/// One load, behind which the caller knows all that a move needs.
pub fn listen(heap: &Heap<State>, c: &mut Caller<State>)
    requires table { (c.old.table ≡ heap.now.table) × (c.old.opening ≡ heap.now.opening) }
    requires gathering { (addr size n : ℕ) × (flags : AFlags) × (p : Place) × (out : List ℕ) × IsGathering c.old addr size n flags p out }
    ensures { (addr size n : ℕ) (flags : AFlags) (p : Place) (out : List ℕ) → IsGathering c.old addr size n flags p out → flags.in_place ≡ false → IsReadyToMove c.old c.new addr size n flags p out }
{
    let _limits = heap.limits();
    c.check();
    hear(heap, c);
    c.check();
}
