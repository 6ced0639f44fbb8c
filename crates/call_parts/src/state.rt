//! The states of the layers, one of which each lock guards, and taking and giving a lock with its own state.
ghost use Rattle.std.specs.Prelude.{◌≡◌, true, false, List, ℕ, [], ◌∷◌, IfOk, IfErr};
ghost use Rattle.heap_model.specs.declared.Act.TheVariants.{GiveLock, NotLive};
ghost use Rattle.heap_model.specs.declared.What.TheVariants as whats;
ghost use Rattle.heap_model.specs.Layers.{StandsForVs, StandsForBack, StandsForLarge};
ghost use Rattle.heap_model.specs.Legal.{leaves_whole};
ghost use Rattle.claim_rule.specs.Entries.{entry};
ghost use Rattle.claim_rule.specs.Places.{vs_slot, back_slot, large_slot};
ghost use Rattle.look_steps.specs.Denials.{MayDeny};
ghost use Rattle.heap_gate.specs.Token.{Always, now, is_out};
ghost use Rattle.heap_gate.specs.Calls.{HasTaken, HasMissed, HasGiven, IsUnder};
ghost use Rattle.backend_fit.specs.Kept as backs;
ghost use Rattle.large_blocks.specs.Table as larges;
ghost use Rattle.vs_layer.specs.Standing as vss;
ghost use Rattle.call_parts.specs.States.{layer_of};

use backend_fit::Back;
use heap_gate::{Caller, Heap, give_lock, give_lock_denying, take_lock};
use heap_model::{Busy, Stands, What};
use large_blocks::Large;
use vs_layer::Vs;

/// The state that a lock guards.
#[derive(Drop)]
pub enum State {
    Vs(Vs),
    Back(Back),
    Large(Large),
}

impl Stands for State {
    ghost use Rattle.call_parts.specs.States.{layer_of};

    ghost stands = { layer_of };
}

// The layer in a state of its lock.
fn vs_of(state: State) -> Vs
    requires { (layer_of state).lock ≡ whats.Vs }
    ensures { layer_of state ≡ vss.layer_of result }
{
    match state {
        State::Vs(vs) => vs,
        State::Back(_) | State::Large(_) => unreachable!(),
    }
}

/// Takes the lock of the variable-size layer with its state, or finds that another caller has it.
pub fn take_vs(heap: &Heap<State>, c: &mut Caller<State>) -> Result<Vs, Busy>
    requires table { c.old.table ≡ heap.now.table }
    requires whole { c.old.whole ≡ true }
    requires inside { IsUnder c.old.inside c.old.depth }
    requires lock { is_out whats.Vs c.old.out ≡ false }
    ensures ok { IfOk result (λ state. HasTaken vss.layer_of c.old c.new whats.Vs state) }
    ensures busy { IfErr result (λ b. HasMissed c.old c.new whats.Vs b.what b.word) }
{
    match take_lock(heap, c, What::Vs) {
        Ok(state) => Ok(vs_of(state)),
        Err(busy) => Err(busy),
    }
}

/// Gives the lock of the variable-size layer back, which was taken last, with a state that tells what it guards.
pub fn give_vs(heap: &Heap<State>, c: &mut Caller<State>, vs: Vs)
    requires table { c.old.table ≡ heap.now.table }
    requires whole { c.old.whole ≡ true }
    requires inside { IsUnder c.old.inside c.old.depth }
    requires lock { (more : List ℕ) × (c.old.out ≡ vs_slot ∷ more) × (is_out whats.Vs more ≡ false) }
    requires tells { Always c.old (λ s. (leaves_whole (now s c.old).state whats.Vs ≡ true) × StandsForVs c.old.opening (now s c.old).state (vss.layer_of vs)) }
    ensures { HasGiven c.old c.new whats.Vs (entry c.old.number (GiveLock whats.Vs) ∷ []) }
{
    give_lock(heap, c, What::Vs, State::Vs(vs));
}

/// .. and says that no live block has an address.
pub fn give_vs_denying(heap: &Heap<State>, c: &mut Caller<State>, vs: Vs, addr: u64)
    requires table { c.old.table ≡ heap.now.table }
    requires opening { c.old.opening ≡ heap.now.opening }
    requires whole { c.old.whole ≡ true }
    requires inside { IsUnder c.old.inside c.old.depth }
    requires lock { (more : List ℕ) × (c.old.out ≡ vs_slot ∷ more) × (is_out whats.Vs more ≡ false) }
    requires tells { Always c.old (λ s. (leaves_whole (now s c.old).state whats.Vs ≡ true) × StandsForVs c.old.opening (now s c.old).state (vss.layer_of vs)) }
    requires none { Always c.old (λ s. MayDeny c.old.opening.limits (now s c.old) c.old.number addr) }
    ensures { HasGiven c.old c.new whats.Vs (entry c.old.number (NotLive addr) ∷ entry c.old.number (GiveLock whats.Vs) ∷ []) }
{
    give_lock_denying(heap, c, What::Vs, State::Vs(vs), addr);
}

// The layer in a state of its lock.
fn back_of(state: State) -> Back
    requires { (layer_of state).lock ≡ whats.Back }
    ensures { layer_of state ≡ backs.layer_of result }
{
    match state {
        State::Back(back) => back,
        State::Vs(_) | State::Large(_) => unreachable!(),
    }
}

/// Takes the lock of the back end with its state, or finds that another caller has it.
pub fn take_back(heap: &Heap<State>, c: &mut Caller<State>) -> Result<Back, Busy>
    requires table { c.old.table ≡ heap.now.table }
    requires whole { c.old.whole ≡ true }
    requires inside { IsUnder c.old.inside c.old.depth }
    requires lock { is_out whats.Back c.old.out ≡ false }
    ensures ok { IfOk result (λ state. HasTaken backs.layer_of c.old c.new whats.Back state) }
    ensures busy { IfErr result (λ b. HasMissed c.old c.new whats.Back b.what b.word) }
{
    match take_lock(heap, c, What::Back) {
        Ok(state) => Ok(back_of(state)),
        Err(busy) => Err(busy),
    }
}

/// Gives the lock of the back end back, which was taken last, with a state that tells what it guards.
pub fn give_back(heap: &Heap<State>, c: &mut Caller<State>, back: Back)
    requires table { c.old.table ≡ heap.now.table }
    requires whole { c.old.whole ≡ true }
    requires inside { IsUnder c.old.inside c.old.depth }
    requires lock { (more : List ℕ) × (c.old.out ≡ back_slot ∷ more) × (is_out whats.Back more ≡ false) }
    requires tells { Always c.old (λ s. (leaves_whole (now s c.old).state whats.Back ≡ true) × StandsForBack c.old.opening (now s c.old).state (backs.layer_of back)) }
    requires paid { c.old.owes ≡ [] }
    ensures { HasGiven c.old c.new whats.Back (entry c.old.number (GiveLock whats.Back) ∷ []) }
{
    give_lock(heap, c, What::Back, State::Back(back));
}

/// .. and says that no live block has an address.
pub fn give_back_denying(heap: &Heap<State>, c: &mut Caller<State>, back: Back, addr: u64)
    requires table { c.old.table ≡ heap.now.table }
    requires opening { c.old.opening ≡ heap.now.opening }
    requires whole { c.old.whole ≡ true }
    requires inside { IsUnder c.old.inside c.old.depth }
    requires lock { (more : List ℕ) × (c.old.out ≡ back_slot ∷ more) × (is_out whats.Back more ≡ false) }
    requires tells { Always c.old (λ s. (leaves_whole (now s c.old).state whats.Back ≡ true) × StandsForBack c.old.opening (now s c.old).state (backs.layer_of back)) }
    requires paid { c.old.owes ≡ [] }
    requires none { Always c.old (λ s. MayDeny c.old.opening.limits (now s c.old) c.old.number addr) }
    ensures { HasGiven c.old c.new whats.Back (entry c.old.number (NotLive addr) ∷ entry c.old.number (GiveLock whats.Back) ∷ []) }
{
    give_lock_denying(heap, c, What::Back, State::Back(back), addr);
}

// The layer in a state of its lock.
fn large_of(state: State) -> Large
    requires { (layer_of state).lock ≡ whats.Large }
    ensures { layer_of state ≡ larges.layer_of result }
{
    match state {
        State::Large(large) => large,
        State::Vs(_) | State::Back(_) => unreachable!(),
    }
}

/// Takes the lock of the large area with its state, or finds that another caller has it.
pub fn take_large(heap: &Heap<State>, c: &mut Caller<State>) -> Result<Large, Busy>
    requires table { c.old.table ≡ heap.now.table }
    requires whole { c.old.whole ≡ true }
    requires inside { IsUnder c.old.inside c.old.depth }
    requires lock { is_out whats.Large c.old.out ≡ false }
    ensures ok { IfOk result (λ state. HasTaken larges.layer_of c.old c.new whats.Large state) }
    ensures busy { IfErr result (λ b. HasMissed c.old c.new whats.Large b.what b.word) }
{
    match take_lock(heap, c, What::Large) {
        Ok(state) => Ok(large_of(state)),
        Err(busy) => Err(busy),
    }
}

/// Gives the lock of the large area back, which was taken last, with a state that tells what it guards.
pub fn give_large(heap: &Heap<State>, c: &mut Caller<State>, large: Large)
    requires table { c.old.table ≡ heap.now.table }
    requires whole { c.old.whole ≡ true }
    requires inside { IsUnder c.old.inside c.old.depth }
    requires lock { (more : List ℕ) × (c.old.out ≡ large_slot ∷ more) × (is_out whats.Large more ≡ false) }
    requires tells { Always c.old (λ s. (leaves_whole (now s c.old).state whats.Large ≡ true) × StandsForLarge c.old.opening (now s c.old).state (larges.layer_of large)) }
    ensures { HasGiven c.old c.new whats.Large (entry c.old.number (GiveLock whats.Large) ∷ []) }
{
    give_lock(heap, c, What::Large, State::Large(large));
}

/// .. and says that no live block has an address.
pub fn give_large_denying(heap: &Heap<State>, c: &mut Caller<State>, large: Large, addr: u64)
    requires table { c.old.table ≡ heap.now.table }
    requires opening { c.old.opening ≡ heap.now.opening }
    requires whole { c.old.whole ≡ true }
    requires inside { IsUnder c.old.inside c.old.depth }
    requires lock { (more : List ℕ) × (c.old.out ≡ large_slot ∷ more) × (is_out whats.Large more ≡ false) }
    requires tells { Always c.old (λ s. (leaves_whole (now s c.old).state whats.Large ≡ true) × StandsForLarge c.old.opening (now s c.old).state (larges.layer_of large)) }
    requires none { Always c.old (λ s. MayDeny c.old.opening.limits (now s c.old) c.old.number addr) }
    ensures { HasGiven c.old c.new whats.Large (entry c.old.number (NotLive addr) ∷ entry c.old.number (GiveLock whats.Large) ∷ []) }
{
    give_lock_denying(heap, c, What::Large, State::Large(large), addr);
}
