//! What each of these kinds of step tells its seat.
use atomic_table::Play;
use claim_rule::{Carried, View};
use std::marker::PhantomData;
use step_parts::Target;

/// A caller claims the block that its search has picked, or another has it.
pub struct ClaimsBlock<B, E> {
    carried: PhantomData<(B, E)>,
}

impl<T, B: Target, E: Carried> Play<Option<T>, View> for ClaimsBlock<B, E> {
    ghost use Rattle.block_steps.specs.Claims.{claimed};

    ghost then = { claimed E.entries B.head B.bucket B.slot B.index B.back B.hint };
}

/// A caller gives the bit of a block in its hand back.
pub struct Clears<B, E> {
    carried: PhantomData<(B, E)>,
}

impl<T, B: Target, E: Carried> Play<Option<T>, View> for Clears<B, E> {
    ghost use Rattle.block_steps.specs.Blocks.{cleared};
    ghost use Rattle.heap_model.specs.Buckets.{block_address};

    ghost then = { cleared E.entries (block_address B.bucket B.head B.index) };
}

/// A block in hand becomes live.
pub struct Publishes<B, E> {
    carried: PhantomData<(B, E)>,
}

impl<T, B: Target, E: Carried> Play<Option<T>, View> for Publishes<B, E> {
    ghost use Rattle.block_steps.specs.Blocks.{published};

    ghost then = { published E.entries B.number B.size };
}

/// A live block is taken in hand, or none is there.
pub struct TakesBlock<B, E> {
    carried: PhantomData<(B, E)>,
}

impl<T, B: Target, E: Carried> Play<Option<T>, View> for TakesBlock<B, E> {
    ghost use Rattle.block_steps.specs.Blocks.{taken_block};
    ghost use Rattle.heap_model.specs.Buckets.{block_address};

    ghost then = { taken_block E.entries B.head B.bucket B.number };
}

/// The size of a live block is read, or none is there.
pub struct AsksSize<B, E> {
    carried: PhantomData<(B, E)>,
}

impl<T, B: Target, E: Carried> Play<Option<T>, View> for AsksSize<B, E> {
    ghost use Rattle.block_steps.specs.Blocks.{sized};
    ghost use Rattle.heap_model.specs.Buckets.{block_address};

    ghost then = { sized E.entries B.number };
}

/// A word of a bitmap is read.
pub struct Sees<B, E> {
    carried: PhantomData<(B, E)>,
}

impl<T, B: Target, E: Carried> Play<Option<T>, View> for Sees<B, E> {
    ghost use Rattle.block_steps.specs.Searches.{saw};

    ghost then = { saw E.entries B.head B.index };
}

/// A hint is read, before a search.
pub struct Hints<B, E> {
    carried: PhantomData<(B, E)>,
}

impl<T, B: Target, E: Carried> Play<Option<T>, View> for Hints<B, E> {
    ghost use Rattle.block_steps.specs.Searches.{hinted};

    ghost then = { hinted E.entries B.bucket B.slot };
}
