//! The entries that a caller prepares, which its next step carries.
ghost use Rattle.std.specs.Prelude.{◌≡◌, ◌<◌, true, false, [], length};
ghost use Rattle.heap_model.specs.declared.Act.TheVariants.{Begin};
ghost use Rattle.claim_rule.specs.Entries.{may_prepare};
ghost use Rattle.heap_gate.specs.Token.{Always, now};
ghost use Rattle.heap_gate.specs.Calls.{Runs, Stands as Standing, stance, HasRested, with_prepared, begun_with, rested, call_with, is_begun_with, is_unless_begun, is_whole_with, is_free_with};

use crate::caller::Caller;
use crate::heap::Heap;
use crate::noted::Told;
use crate::steps::{Slip, look_as};
use heap_model::{Act, Call, Entry, Stands};
use std::marker::Brand;

// The call of the last Begin, with one entry more.
#[inline(always)]
fn note_call(noted: &mut Told<Option<Call>>, act: Act)
    ensures { noted.new.value ≡ call_with noted.old.value act }
{
    if let Act::Begin { call } = act {
        *noted = Told::of(&Some(call));
    }
}

// A flag that a Begin sets, with one entry more.
#[inline(always)]
fn note_set(noted: &mut Told<bool>, act: Act)
    ensures { noted.new.value ≡ is_begun_with noted.old.value act }
{
    if let Act::Begin { .. } = act {
        *noted = Told::of(&true);
    }
}

// .. and at run time.
#[inline(always)]
fn set_by_begin(flag: bool, act: Act) -> bool
    ensures { result ≡ is_begun_with flag act }
{
    match act {
        Act::Begin { .. } => true,
        _ => flag,
    }
}

// A flag that a Begin takes away, with one entry more.
#[inline(always)]
fn note_unset(noted: &mut Told<bool>, act: Act)
    ensures { noted.new.value ≡ is_unless_begun noted.old.value act }
{
    if let Act::Begin { .. } = act {
        *noted = Told::of(&false);
    }
}

// Whether nothing has to follow the act.
#[inline(always)]
fn note_end(noted: &mut Told<bool>, act: Act)
    ensures { noted.new.value ≡ is_whole_with act }
{
    let whole = !matches!(
        act,
        Act::Reserve { .. } | Act::Span { .. } | Act::Drop { .. }
    );
    *noted = Told::of(&whole);
}

// Whether nothing is in hand, with one entry more.
#[inline(always)]
fn note_hand(noted: &mut Told<bool>, act: Act)
    ensures { noted.new.value ≡ is_free_with noted.old.value act }
{
    match act {
        Act::Place { .. }
        | Act::Give { .. }
        | Act::Take { .. }
        | Act::Drop { .. }
        | Act::Resize { .. } => *noted = Told::of(&false),
        _ => {}
    }
}

/// Adds an entry to those that the caller has prepared, which its next step carries. It takes no step. The entry is legal next,
/// and by what the caller has seen, has prepared and has locked it stays so: a Begin, or work under the layer locks that the
/// caller holds. Spans of the front end's subsegments and NotLive are entries of steps of their own.
#[inline(always)]
pub fn prepare<T: Stands>(c: &mut Caller<T>, act: Act)
    requires room { length c.old.prepared < 16 }
    requires may { Always c.old (λ s. may_prepare s (now s c.old) c.old.number act ≡ true) }
    ensures { c.new ≡ with_prepared c.old act }
{
    c.pending = set_by_begin(c.pending, act);
    note_call(&mut c.call, act);
    note_set(&mut c.fresh, act);
    note_unset(&mut c.locked, act);
    note_unset(&mut c.drawn, act);
    note_end(&mut c.whole, act);
    note_hand(&mut c.free, act);
    let entry = Entry {
        caller: c.number,
        act,
    };
    c.prepared.push(Slip { entry });
}

/// Prepares the Begin of a call. Each caller at rest may.
#[inline(always)]
pub fn begin<T: Stands>(c: &mut Caller<T>, call: Call)
    requires room { length c.old.prepared < 16 }
    requires outside { c.old.inside ≡ false }
    requires out { c.old.out ≡ [] }
    ensures { c.new ≡ with_prepared c.old (Begin call) }
{
    c.check();
    prepare(c, Act::Begin { call });
}

// Prepares the Begin of a call, where none is pending.
#[inline(always)]
pub(crate) fn begin_if_none<T: Stands>(c: &mut Caller<T>, call: Call)
    requires outside { c.old.inside ≡ false }
    requires out { c.old.out ≡ [] }
    ensures { c.new ≡ begun_with c.old call }
{
    c.check();
    if !c.pending {
        begin(c, call);
    }
}

/// Notes that nothing is in hand, and that nothing has to follow. It takes no step.
pub fn rest<T: Stands>(c: &mut Caller<T>)
    requires rests { Always c.old (λ s. HasRested (now s c.old) c.old.number) }
    ensures { c.new ≡ rested c.old }
{
    c.whole = Told::of(&true);
    c.free = Told::of(&true);
}

/// One load of the word of callers made, which carries the prepared entries.
pub fn settle<T: Stands>(heap: &Heap<T>, c: &mut Caller<T>)
    requires table { c.old.table ≡ heap.now.table }
    requires whole { c.old.whole ≡ true }
    ensures runs { Runs c.old c.new [] }
    ensures stands { Standing c.new (stance c.old) }
{
    look_as::<T, Brand>(&heap.table.shared, &mut c.place, &c.prepared);
    c.prepared.clear();
    c.pending = false;
}
