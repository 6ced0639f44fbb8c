//! What each of these kinds of step tells its seat.
use atomic_table::Play;
use claim_rule::{Carried, View};
use std::marker::PhantomData;
use step_parts::{Guards, Target};

/// An active word is read.
pub struct AsksActive<B, E> {
    carried: PhantomData<(B, E)>,
}

impl<T, B: Target, E: Carried> Play<Option<T>, View> for AsksActive<B, E> {
    ghost use Rattle.look_steps.specs.Looks.{asked_active};

    ghost then = { asked_active E.entries B.number };
}

/// A word of a bitmap is read without an entry.
pub struct LooksBits<B, E> {
    carried: PhantomData<(B, E)>,
}

impl<T, B: Target, E: Carried> Play<Option<T>, View> for LooksBits<B, E> {
    ghost use Rattle.look_steps.specs.Looks.{looked_bits};

    ghost then = { looked_bits E.entries B.head B.index };
}

/// A size word is read without an entry.
pub struct LooksSize<B, E> {
    carried: PhantomData<(B, E)>,
}

impl<T, B: Target, E: Carried> Play<Option<T>, View> for LooksSize<B, E> {
    ghost use Rattle.look_steps.specs.Looks.{looked_size};

    ghost then = { looked_size E.entries B.number };
}

/// A hint is read without an entry.
pub struct LooksHint<B, E> {
    carried: PhantomData<(B, E)>,
}

impl<T, B: Target, E: Carried> Play<Option<T>, View> for LooksHint<B, E> {
    ghost use Rattle.look_steps.specs.Looks.{looked_hint};

    ghost then = { looked_hint E.entries B.bucket B.slot };
}

/// A tag is read, and told where it is known what is owed.
pub struct LooksTag<B, E> {
    carried: PhantomData<(B, E)>,
}

impl<T, B: Target, E: Carried> Play<Option<T>, View> for LooksTag<B, E> {
    ghost use Rattle.look_steps.specs.Looks.{looked_tag};

    ghost then = { looked_tag E.entries B.number };
}

/// No live block has an address, which a caller says with a load.
pub struct Denies<B, E> {
    carried: PhantomData<(B, E)>,
}

impl<T, B: Target, E: Carried> Play<Option<T>, View> for Denies<B, E> {
    ghost use Rattle.look_steps.specs.Denials.{denied};

    ghost then = { denied E.entries B.number };
}

/// A caller says so with giving a lock back.
pub struct DeniesGiving<G, B, E> {
    carried: PhantomData<(G, B, E)>,
}

impl<T, G: Guards, B: Target, E: Carried> Play<Option<T>, View> for DeniesGiving<G, B, E> {
    ghost use Rattle.look_steps.specs.Denials.{denied_gave};

    ghost then = { denied_gave G.what E.entries B.number };
}

/// A caller says so with leaving.
pub struct DeniesLeaving<B, E> {
    carried: PhantomData<(B, E)>,
}

impl<T, B: Target, E: Carried> Play<Option<T>, View> for DeniesLeaving<B, E> {
    ghost use Rattle.look_steps.specs.Denials.{denied_left};

    ghost then = { denied_left E.entries B.number };
}
