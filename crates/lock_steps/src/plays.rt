//! What each of these kinds of step tells its seat.
use atomic_table::Play;
use claim_rule::{Carried, View};
use heap_model::Stands;
use std::marker::PhantomData;
use step_parts::{Guards, Target};

/// A caller takes the lock of a layer with its state, or finds another's number.
pub struct Takes<G, E> {
    carried: PhantomData<(G, E)>,
}

impl<T: Stands, G: Guards, E: Carried> Play<Option<T>, View> for Takes<G, E> {
    ghost use Rattle.lock_steps.specs.Locks.{took};

    ghost then = { took T.stands G.what E.entries };
}

/// A caller gives the lock of a layer back with its state.
pub struct Gives<G, E> {
    carried: PhantomData<(G, E)>,
}

impl<T, G: Guards, E: Carried> Play<Option<T>, View> for Gives<G, E> {
    ghost use Rattle.lock_steps.specs.Locks.{gave};

    ghost then = { gave G.what E.entries };
}

/// A data word is loaded.
pub struct LoadsData<B, E> {
    carried: PhantomData<(B, E)>,
}

impl<T, B: Target, E: Carried> Play<Option<T>, View> for LoadsData<B, E> {
    ghost use Rattle.lock_steps.specs.Data.{loaded};

    ghost then = { loaded E.entries B.number };
}

/// A data word is stored.
pub struct StoresData<B, E> {
    carried: PhantomData<(B, E)>,
}

impl<T, B: Target, E: Carried> Play<Option<T>, View> for StoresData<B, E> {
    ghost use Rattle.lock_steps.specs.Data.{stored};

    ghost then = { stored E.entries B.number };
}
