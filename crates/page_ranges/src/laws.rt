//! Laws of the runs, each the contract of a function that does nothing.

ghost use Rattle.page_ranges.specs.Laws.{MarkedRunIsReadBack, MarkLeavesOtherRuns, MarkReplacesRuns, MarksReplaceRuns, FoundRunStandsAmong, RunsAreReadInOrder};

/// What [`crate::Descs::run_at`] answers behind [`crate::Descs::mark`].
pub fn marked_run_is_read_back()
    ensures { MarkedRunIsReadBack }
{}

pub fn mark_leaves_other_runs()
    ensures { MarkLeavesOtherRuns }
{}

/// What [`crate::Descs::mark`] makes of the runs.
pub fn mark_replaces_runs()
    ensures { MarkReplacesRuns }
{}

/// .. and what several marks make of them, between which the words may not be whole.
pub fn marks_replace_runs()
    ensures { MarksReplaceRuns }
{}

pub fn found_run_stands_among()
    ensures { FoundRunStandsAmong }
{}

/// What [`crate::Descs::run_at`] answers at the page behind the runs that were read so far.
pub fn runs_are_read_in_order()
    ensures { RunsAreReadInOrder }
{}
