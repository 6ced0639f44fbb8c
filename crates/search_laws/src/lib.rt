// The random search of the low-fragmentation front end, as one caller alone makes it: each law is the contract of a function
// that does nothing.
#![tactic(auto)]

ghost use Rattle.search_laws.specs.Laws.{HintIsRead, HintIsMissed, FirstPassIsRead, SecondPassIsRead};
ghost use Rattle.search_laws.specs.Calls.{HintAllocationEnds, PassAllocationEnds, LfhSpanAllocationEnds, ReservingLfhSpanEnds, LfhFreeEnds, LfhSizeEnds};
ghost use Rattle.search_laws.specs.Falls.{FallGapEnds, FallSpanEnds, FallRefusalEnds};
ghost use Rattle.search_laws.specs.Activates.{ActivatingSpanEnds, ActivatingReservingEnds, ActivatingFallGapEnds, ActivatingFallSpanEnds, ActivatingFallRefusalEnds};

/// A search begins by reading the span that the hint names.
pub fn hint_is_read()
    ensures { HintIsRead }
{}

/// A search where there is no span finds the hint empty.
pub fn hint_is_missed()
    ensures { HintIsMissed }
{}

/// Under the lock of the back end a search reads all spans of its bucket and slot.
pub fn first_pass_is_read()
    ensures { FirstPassIsRead }
{}

/// Where no range was found for a new span, it reads them once more.
pub fn second_pass_is_read()
    ensures { SecondPassIsRead }
{}

/// An allocation that finds a free block in the span of the hint.
pub fn hint_allocation_ends()
    ensures { HintAllocationEnds }
{}

/// An allocation that finds a free block by a pass over the spans.
pub fn pass_allocation_ends()
    ensures { PassAllocationEnds }
{}

/// An allocation for which a span is made in a reserved segment.
pub fn lfh_span_allocation_ends()
    ensures { LfhSpanAllocationEnds }
{}

/// An allocation for whose span the next segment is reserved.
pub fn reserving_lfh_span_ends()
    ensures { ReservingLfhSpanEnds }
{}

/// A free of a block of this front end.
pub fn lfh_free_ends()
    ensures { LfhFreeEnds }
{}

/// A question for the size of a block of this front end.
pub fn lfh_size_ends()
    ensures { LfhSizeEnds }
{}

/// An allocation of a bucket that cannot be served goes to a gap of the variable-size layer.
pub fn fall_gap_ends()
    ensures { FallGapEnds }
{}

/// An allocation of a bucket that cannot be served, for which a span of the variable-size layer is made.
pub fn fall_span_ends()
    ensures { FallSpanEnds }
{}

/// An allocation of a bucket that cannot be served, and that no other layer has room for.
pub fn fall_refusal_ends()
    ensures { FallRefusalEnds }
{}

/// An allocation by which its bucket becomes active, and for which a span is made in a reserved segment.
pub fn activating_span_ends()
    ensures { ActivatingSpanEnds }
{}

/// An allocation by which its bucket becomes active, and for whose span the next segment is reserved.
pub fn activating_reserving_ends()
    ensures { ActivatingReservingEnds }
{}

/// An allocation by which its bucket becomes active, and which goes to a gap of the variable-size layer.
pub fn activating_fall_gap_ends()
    ensures { ActivatingFallGapEnds }
{}

/// An allocation by which its bucket becomes active, and for which a span of the variable-size layer is made.
pub fn activating_fall_span_ends()
    ensures { ActivatingFallSpanEnds }
{}

/// An allocation by which its bucket becomes active, and that no layer has room for.
pub fn activating_fall_refusal_ends()
    ensures { ActivatingFallRefusalEnds }
{}
