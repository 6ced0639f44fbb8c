//! Laws of the chunks, each the contract of a function that does nothing.

ghost use Rattle.vs_split.specs.Laws.{WordsTellTheChunks, ChunksLieApart, OpenedSpanHasOneChunk, SplitCutsOneChunk, JoinMakesOneOfTwo, SplitLeavesOtherSpans, JoinLeavesOtherSpans};

pub fn words_tell_the_chunks()
    ensures { WordsTellTheChunks }
{}

pub fn chunks_lie_apart()
    ensures { ChunksLieApart }
{}

pub fn opened_span_has_one_chunk()
    ensures { OpenedSpanHasOneChunk }
{}

/// What [`crate::Heads::split`] makes of the chunks of a span.
pub fn split_cuts_one_chunk()
    ensures { SplitCutsOneChunk }
{}

/// What [`crate::Heads::join_next`] and [`crate::Heads::join_prev`] make of the chunks of a span.
pub fn join_makes_one_of_two()
    ensures { JoinMakesOneOfTwo }
{}

pub fn split_leaves_other_spans()
    ensures { SplitLeavesOtherSpans }
{}

pub fn join_leaves_other_spans()
    ensures { JoinLeavesOtherSpans }
{}
