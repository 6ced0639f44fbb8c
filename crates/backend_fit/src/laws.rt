//! Laws on what a back end tells of each state that it stands for, each the contract of a function that does nothing.

ghost use Rattle.backend_fit.specs.Laws.{SpansHavePlaces, BlocksArePlaces, BlocksFillSpans, RequestsGo};

/// So its lock can be given back.
pub fn spans_have_places()
    ensures { SpansHavePlaces }
{}

pub fn blocks_are_places()
    ensures { BlocksArePlaces }
{}

/// So a block that is dropped takes its span along.
pub fn blocks_fill_spans()
    ensures { BlocksFillSpans }
{}

/// Where [`crate::Back::take`] takes pages, and whether a segment is to be reserved for them.
pub fn requests_go()
    ensures { RequestsGo }
{}
