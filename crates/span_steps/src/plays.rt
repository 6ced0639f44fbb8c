//! What each of these kinds of step tells its seat.
use atomic_table::Play;
use claim_rule::{Carried, View};
use std::marker::PhantomData;
use step_parts::Target;

/// A bucket becomes active.
pub struct Activates<B, E> {
    carried: PhantomData<(B, E)>,
}

impl<T, B: Target, E: Carried> Play<Option<T>, View> for Activates<B, E> {
    ghost use Rattle.span_steps.specs.Stores.{activated};

    ghost then = { activated E.entries B.number };
}

/// A tag is stored under the back end's lock.
pub struct PutsTag<B, E> {
    carried: PhantomData<(B, E)>,
}

impl<T, B: Target, E: Carried> Play<Option<T>, View> for PutsTag<B, E> {
    ghost use Rattle.span_steps.specs.Stores.{put_word};
    ghost use Rattle.span_steps.specs.Stores.{paid_off};
    ghost use Rattle.claim_rule.specs.Places.{tag_at};

    ghost then = { put_word E.entries (paid_off (tag_at B.number)) };
}

/// A hint is stored under the back end's lock.
pub struct PutsHint<B, E> {
    carried: PhantomData<(B, E)>,
}

impl<T, B: Target, E: Carried> Play<Option<T>, View> for PutsHint<B, E> {
    ghost use Rattle.span_steps.specs.Stores.{put_word};
    ghost use Rattle.span_steps.specs.Stores.{paid_off};
    ghost use Rattle.claim_rule.specs.Places.{hint_at};

    ghost then = { put_word E.entries (paid_off (hint_at B.bucket B.slot)) };
}

/// A tag is cleared under the back end's lock, and owed.
pub struct ClearsTag<B, E> {
    carried: PhantomData<(B, E)>,
}

impl<T, B: Target, E: Carried> Play<Option<T>, View> for ClearsTag<B, E> {
    ghost use Rattle.span_steps.specs.Stores.{put_word, owed_zero};
    ghost use Rattle.claim_rule.specs.Places.{tag_at};

    ghost then = { put_word E.entries (owed_zero (tag_at B.number)) };
}

/// The holder of the back end's lock makes a subsegment, with a segment reserved before where `R` has that, and claims its
/// first block.
pub struct InstallsSpan<B, R, E> {
    carried: PhantomData<(B, R, E)>,
}

impl<T, B: Target, R: Carried, E: Carried> Play<Option<T>, View> for InstallsSpan<B, R, E> {
    ghost use Rattle.span_steps.specs.Installs.{installed};

    ghost then = { installed E.entries R.entries B.head B.number B.bucket B.slot B.index B.hint };
}

/// A subsegment without places goes back, with the store of the hint of its bucket and slot.
pub struct RetiresSpan<B, E> {
    carried: PhantomData<(B, E)>,
}

impl<T, B: Target, E: Carried> Play<Option<T>, View> for RetiresSpan<B, E> {
    ghost use Rattle.span_steps.specs.Retires.{retired};

    ghost then = { retired E.entries B.head B.number B.bucket B.slot };
}
