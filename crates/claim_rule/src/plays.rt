//! What each kind of step tells its seat.
use crate::views::View;
use atomic_table::Play;
use std::marker::{Brand, PhantomData};

/// The entries that a step carries before its own.
pub trait Carried {
    ghost use Rattle.std.specs.Prelude.{List};
    ghost use Rattle.heap_model.specs.declared.Entry.{Entry};

    ghost entries: { List Entry };
}

impl Carried for Brand {
    ghost use Rattle.std.specs.Prelude.{[]};

    ghost entries = { [] };
}

/// A load of a word that sees the whole history, and carries entries.
pub struct Looks<E> {
    carried: PhantomData<E>,
}

impl<T, E: Carried> Play<Option<T>, View> for Looks<E> {
    ghost use Rattle.claim_rule.specs.Plays.{looked};

    ghost then = { looked E.entries };
}

/// The root's load.
pub struct Hears;

impl<T> Play<Option<T>, View> for Hears {
    ghost use Rattle.claim_rule.specs.Plays.{heard_all};

    ghost then = { heard_all };
}

/// A caller's load that takes what it heard of.
pub struct Agrees;

impl<T> Play<Option<T>, View> for Agrees {
    ghost use Rattle.claim_rule.specs.Plays.{agreed};

    ghost then = { agreed };
}

/// The root counts one more caller.
pub struct Numbers;

impl<T> Play<Option<T>, View> for Numbers {
    ghost use Rattle.claim_rule.specs.Plays.{numbered};

    ghost then = { numbered };
}

/// A caller is counted at the gate, and has entered or has to turn back.
pub struct Enters<E> {
    carried: PhantomData<E>,
}

impl<T, E: Carried> Play<Option<T>, View> for Enters<E> {
    ghost use Rattle.claim_rule.specs.Plays.{entered};

    ghost then = { entered E.entries };
}

/// A caller leaves, or turns back.
pub struct Leaves<E> {
    carried: PhantomData<E>,
}

impl<T, E: Carried> Play<Option<T>, View> for Leaves<E> {
    ghost use Rattle.claim_rule.specs.Plays.{left};

    ghost then = { left E.entries };
}

/// A caller takes the heap lock, or finds a gate word that is not 0.
pub struct Locks<E> {
    carried: PhantomData<E>,
}

impl<T, E: Carried> Play<Option<T>, View> for Locks<E> {
    ghost use Rattle.claim_rule.specs.Plays.{locked};

    ghost then = { locked E.entries };
}

/// The owner gives the heap lock back.
pub struct Unlocks<E> {
    carried: PhantomData<E>,
}

impl<T, E: Carried> Play<Option<T>, View> for Unlocks<E> {
    ghost use Rattle.claim_rule.specs.Plays.{unlocked};

    ghost then = { unlocked E.entries };
}
