//! The locks of the layers, each with the state in its slot.
ghost use Rattle.std.specs.Prelude.{◌≡◌, true, false, [], ◌∷◌, List, ℕ, IfOk, IfErr};
ghost use Rattle.heap_model.specs.declared.Act.TheVariants.{GiveLock, NotLive};
ghost use Rattle.heap_model.specs.Legal.{leaves_whole};
ghost use Rattle.claim_rule.specs.Entries.{entry};
ghost use Rattle.claim_rule.specs.Places.{lock_at};
ghost use Rattle.claim_rule.specs.Home.{HasSlot, slot_of, Tells};
ghost use Rattle.lock_steps.specs.Locks.{IsPaid};
ghost use Rattle.look_steps.specs.Denials.{MayDeny};
ghost use Rattle.heap_gate.specs.Token.{Always, now, is_out};
ghost use Rattle.heap_gate.specs.Calls.{HasTaken, HasMissed, HasGiven, IsUnder};

use crate::caller::Caller;
use crate::heap::Heap;
use crate::steps::{deny_give_by, give_by, take_by};
use claim_rule::LOCKS;
use heap_model::{Busy, Stands, What};
use std::marker::Brand;

// Where the word of a lock lies.
fn word_of(what: What) -> usize
    requires { HasSlot what }
    ensures { result ≡ lock_at what }
{
    LOCKS + 1 + slot(what)
}

// The slot of its state.
fn slot(what: What) -> usize
    requires { HasSlot what }
    ensures { result ≡ slot_of what }
{
    match what {
        What::Vs => 0,
        What::Back => 1,
        What::Large => 2,
        What::Gate | What::Lfh => unreachable!(),
    }
}

/// Takes the lock of a layer with the state that it guards, by one compare_exchange, or finds that another caller has it. The
/// owner of the heap lock may do so from outside the gate.
pub fn take_lock<T: Stands>(heap: &Heap<T>, c: &mut Caller<T>, what: What) -> Result<T, Busy>
    requires table { c.old.table ≡ heap.now.table }
    requires whole { c.old.whole ≡ true }
    requires slot { HasSlot what }
    requires inside { IsUnder c.old.inside c.old.depth }
    requires lock { is_out what c.old.out ≡ false }
    ensures ok { IfOk result (λ state. HasTaken T.stands c.old c.new what state) }
    ensures busy { IfErr result (λ b. HasMissed c.old c.new what b.what b.word) }
{
    let word = word_of(what);
    let slot = slot(what);
    let tag = u64::from(c.number) + 1;
    let (found, state) = take_by::<T, Brand, Brand>(
        &heap.table.shared,
        &mut c.place,
        &c.prepared,
        what,
        word,
        slot,
        tag,
    );
    c.prepared.clear();
    c.pending = false;
    let Some(state) = state else {
        return Err(Busy { what, word: found });
    };
    Ok(state)
}

/// Gives the lock that was taken last back by one store of 0, with a state that tells what the lock guards behind all that the
/// caller has prepared. Each span of the layer has a place then, and of the back end's words nothing is owed.
pub fn give_lock<T: Stands + Drop>(heap: &Heap<T>, c: &mut Caller<T>, what: What, state: T)
    requires table { c.old.table ≡ heap.now.table }
    requires whole { c.old.whole ≡ true }
    requires slot { HasSlot what }
    requires inside { IsUnder c.old.inside c.old.depth }
    requires lock { (more : List ℕ) × (c.old.out ≡ slot_of what ∷ more) × (is_out what more ≡ false) }
    requires paid { IsPaid what c.old.owes }
    requires tells { Always c.old (λ s. (leaves_whole (now s c.old).state what ≡ true) × Tells what c.old.opening (now s c.old).state (T.stands state)) }
    ensures { HasGiven c.old c.new what (entry c.old.number (GiveLock what) ∷ []) }
{
    let word = word_of(what);
    let slot = slot(what);
    give_by::<T, Brand, Brand>(
        &heap.table.shared,
        &mut c.place,
        &c.prepared,
        what,
        word,
        slot,
        state,
    );
    c.prepared.clear();
    c.pending = false;
}

/// Gives the lock that was taken last back, as `give_lock` does, and says that no live block has an address.
pub fn give_lock_denying<T: Stands + Drop>(
    heap: &Heap<T>,
    c: &mut Caller<T>,
    what: What,
    state: T,
    addr: u64,
)
    requires table { c.old.table ≡ heap.now.table }
    requires opening { c.old.opening ≡ heap.now.opening }
    requires whole { c.old.whole ≡ true }
    requires slot { HasSlot what }
    requires inside { IsUnder c.old.inside c.old.depth }
    requires lock { (more : List ℕ) × (c.old.out ≡ slot_of what ∷ more) × (is_out what more ≡ false) }
    requires paid { IsPaid what c.old.owes }
    requires tells { Always c.old (λ s. (leaves_whole (now s c.old).state what ≡ true) × Tells what c.old.opening (now s c.old).state (T.stands state)) }
    requires none { Always c.old (λ s. MayDeny c.old.opening.limits (now s c.old) c.old.number addr) }
    ensures { HasGiven c.old c.new what (entry c.old.number (NotLive addr) ∷ entry c.old.number (GiveLock what) ∷ []) }
{
    let word = word_of(what);
    let slot = slot(what);
    deny_give_by::<T, Brand, Brand, Brand>(
        &heap.table.shared,
        &mut c.place,
        &c.prepared,
        what,
        addr,
        word,
        slot,
        state,
    );
    c.prepared.clear();
    c.pending = false;
}
