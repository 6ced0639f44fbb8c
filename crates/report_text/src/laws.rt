//! A law of the page ranges, the contract of a function that does nothing.

ghost use Rattle.report_text.specs.Laws.{RangesAreOfTheState};

/// The page ranges of an image are those of each state that it shows.
pub fn ranges_are_of_the_state()
    ensures { RangesAreOfTheState }
{}
