//! The token of one caller: what it tells, entering and leaving.
ghost use Rattle.std.specs.Prelude.{◌≡◌, true, false, [], ◌∷◌, ◌++◌, OnOk, IfErr, Some, ◌&&◌, ◌<◌};
ghost use Rattle.heap_model.specs.declared.Act.TheVariants.{Enter, Leave, Blocked, NotLive};
ghost use Rattle.heap_model.specs.declared.Call.{Call as ACall};
ghost use Rattle.heap_model.specs.declared.Call.TheVariants.{Stay};
ghost use Rattle.heap_model.specs.declared.What.TheVariants as whats;
ghost use Rattle.heap_model.specs.Legal.{is_lock_or_compact};
ghost use Rattle.heap_model.specs.Search.{draw_of};
ghost use Rattle.heap_model.specs.Stay.{for_some};
ghost use Rattle.claim_rule.specs.Entries.{entry, slot_at, IsLegalWith};
ghost use Rattle.look_steps.specs.Denials.{MayDeny};
ghost use Rattle.heap_gate.specs.Token.{Always, now, IsStanding, IsEven};
ghost use Rattle.heap_gate.specs.Calls.{begins, begun_with, stance, may_enter_by, HasEntered, HasTurnedBack, HasLeft};

use crate::entries::begin_if_none;
use crate::heap::Heap;
use crate::noted::Told;
use crate::steps::{Prepared, deny_leave_by, enter_as, leave_as};
use heap_model::{Busy, Call, Stands, What};
use rand_pcg::Pcg32;
use random_pick::{Draw, Draws};
use std::marker::{Brand, Model};
use step_parts::Seating;

/// The token of one caller. Contracts see beside its fields the list that the caller has seen, the slots of the layer locks
/// that it holds, what it owes under the back end's lock, and how many of its calls have searched. Its fields are open to crates
/// that add steps of their own, as the one of data words does: what holds of a token has to hold again behind such a step.
#[derive(Drop)]
pub struct Caller<T: Stands> {
    pub place: Seating<T>,
    pub number: u32,
    pub slot: u32,
    pub prepared: Prepared,
    pub pending: bool,
    pub call: Told<Option<Call>>,
    pub fresh: Told<bool>,
    pub locked: Told<bool>,
    pub inside: bool,
    pub depth: u16,
    pub whole: Told<bool>,
    pub free: Told<bool>,
    pub drawn: Told<bool>,
    pub draws: Draws<Pcg32>,
}

impl<T: Stands> Model for Caller<T> {
    ghost use Rattle.random_pick.specs.CallerDraws.{words_of};
    ghost use Rattle.heap_gate.specs.Token.{Token, IsCaller};
    ghost use Rattle.heap_gate.specs.Seated.{tok};

    ghost Value = { Token };

    ghost view = { λ c. tok c.place.table_id c.place.me record { number = c.number; prepared = c.prepared.items; pending = c.pending; call = c.call.value; fresh = c.fresh.value; locked = c.locked.value; inside = c.inside; depth = c.depth; whole = c.whole.value; free = c.free.value; drawn = c.drawn.value } };

    ghost invariant = { λ c. IsCaller c.place.me (tok c.place.table_id c.place.me record { number = c.number; prepared = c.prepared.items; pending = c.pending; call = c.call.value; fresh = c.fresh.value; locked = c.locked.value; inside = c.inside; depth = c.depth; whole = c.whole.value; free = c.free.value; drawn = c.drawn.value }) c.slot (words_of c.draws) };
}

impl<T: Stands> Caller<T> {
    /// The number of the caller, from 0.
    pub fn number(&self) -> u32
        ensures { result ≡ self.now.number }
    {
        self.number
    }

    /// The affinity slot that the caller was made with.
    pub fn slot(&self) -> u32
        ensures { result ≡ slot_at self.now.roll self.now.number }
    {
        self.slot
    }

    /// How often the caller has taken the heap lock and not given it back.
    pub fn depth(&self) -> u32
        ensures { result ≡ self.now.depth }
    {
        u32::from(self.depth)
    }

    /// Whether the caller has entered and not left.
    pub fn inside(&self) -> bool
        ensures { result ≡ self.now.inside }
    {
        self.inside
    }

    /// Nothing at run time: it tells a proof what holds of each token, by the configuration behind its list.
    pub fn check(&self)
        ensures stands { IsStanding self.now }
        ensures even { IsEven self.now }
        ensures legal { IsLegalWith self.now.opening self.now.roll self.now.seen }
        ensures few { self.now.number < self.now.opening.limits.callers }
        ensures slot { slot_at self.now.roll self.now.number < self.now.opening.limits.slots }
    {
        let _number = self.number;
    }

    /// The draw of the search of the call under way.
    pub fn draw(&mut self) -> Draw
        requires inside { self.old.inside ≡ true }
        requires fresh { self.old.drawn ≡ false }
        ensures draw { Always self.old (λ s. result.value ≡ draw_of s self.old.number ((now s self.old).now.calls self.old.number).searches) }
        ensures count { Always self.old (λ s. ((now s self.old).now.calls self.old.number).searches ≡ self.old.searches) }
        ensures drawn { self.new ≡ record self.old { drawn = true } }
    {
        self.drawn = Told::of(&true);
        self.draws.draw()
    }
}

// Whether a caller that finds this gate word has entered.
#[inline(always)]
fn enters(word: u64, number: u32) -> bool
    ensures { result ≡ may_enter_by word number }
{
    let owner = word / 65536;
    owner == 0 || owner == u64::from(number) + 1
}

// The step of entering, and the step back where the gate word names another owner.
#[inline(always)]
fn pass<T: Stands>(heap: &Heap<T>, c: &mut Caller<T>) -> Result<(), Busy>
    requires table { c.old.table ≡ heap.now.table }
    requires outside { c.old.inside ≡ false }
    requires out { c.old.out ≡ [] }
    requires fresh { c.old.fresh ≡ true }
    requires call { (call : ACall) × (c.old.call ≡ Some call) × (is_lock_or_compact call ≡ false) }
    ensures ok { OnOk result (HasEntered c.old c.new (stance c.old) (entry c.old.number Enter ∷ [])) }
    ensures busy { IfErr result (λ b. HasTurnedBack c.old c.new (stance c.old) b.what b.word (entry c.old.number (Blocked whats.Gate b.word) ∷ entry c.old.number Leave ∷ [])) }
{
    let top = &heap.table.shared;
    let word = enter_as::<T, Brand>(top, &mut c.place, &c.prepared);
    c.prepared.clear();
    c.pending = false;
    c.fresh = Told::of(&false);
    if enters(word, c.number) {
        c.inside = true;
        return Ok(());
    }
    leave_as::<T, Brand>(top, &mut c.place, &c.prepared);
    Err(Busy {
        what: What::Gate,
        word,
    })
}

/// Enters, or turns back where the gate word names another owner. Where no Begin is prepared, a call named stay begins.
#[inline(always)]
pub fn enter_now<T: Stands>(heap: &Heap<T>, c: &mut Caller<T>) -> Result<(), Busy>
    requires table { c.old.table ≡ heap.now.table }
    requires outside { c.old.inside ≡ false }
    requires out { c.old.out ≡ [] }
    requires pending { (c.old.pending && for_some c.old.call is_lock_or_compact) ≡ false }
    ensures ok { OnOk result (HasEntered c.old c.new (stance (begun_with c.old Stay)) (begins c.old Stay ++ entry c.old.number Enter ∷ [])) }
    ensures busy { IfErr result (λ b. HasTurnedBack c.old c.new (stance (begun_with c.old Stay)) b.what b.word (begins c.old Stay ++ entry c.old.number (Blocked whats.Gate b.word) ∷ entry c.old.number Leave ∷ [])) }
{
    c.check();
    begin_if_none(c, Call::Stay);
    pass(heap, c)
}

/// Leaves. Where the call has searched it has drawn, and where it has drawn it has searched, so that the next search finds
/// the next draw.
#[inline(always)]
pub fn leave<T: Stands>(heap: &Heap<T>, c: &mut Caller<T>)
    requires table { c.old.table ≡ heap.now.table }
    requires whole { c.old.whole ≡ true }
    requires inside { c.old.inside ≡ true }
    requires out { c.old.out ≡ [] }
    requires free { c.old.free ≡ true }
    requires drawn { c.old.searched ≡ c.old.drawn }
    ensures { HasLeft c.old c.new (entry c.old.number Leave ∷ []) }
{
    leave_as::<T, Brand>(&heap.table.shared, &mut c.place, &c.prepared);
    c.prepared.clear();
    c.pending = false;
    c.inside = false;
}

/// Leaves, and says that no live block has an address: where it lies only locks that were held changed what is there, or no
/// block can begin.
pub fn leave_denying<T: Stands>(heap: &Heap<T>, c: &mut Caller<T>, addr: u64)
    requires table { c.old.table ≡ heap.now.table }
    requires opening { c.old.opening ≡ heap.now.opening }
    requires whole { c.old.whole ≡ true }
    requires inside { c.old.inside ≡ true }
    requires out { c.old.out ≡ [] }
    requires free { c.old.free ≡ true }
    requires drawn { c.old.searched ≡ c.old.drawn }
    requires none { Always c.old (λ s. MayDeny c.old.opening.limits (now s c.old) c.old.number addr) }
    ensures { HasLeft c.old c.new (entry c.old.number (NotLive addr) ∷ entry c.old.number Leave ∷ []) }
{
    deny_leave_by::<T, Brand, Brand>(&heap.table.shared, &mut c.place, &c.prepared, addr);
    c.prepared.clear();
    c.pending = false;
    c.inside = false;
}
