// What one caller alone does, call by call: each law is the contract of a function that does nothing.
#![tactic(auto)]

ghost use Rattle.serial_laws.specs.OneCall.{InTurnIsSerial};
ghost use Rattle.serial_laws.specs.BackCalls.{AllocationEnds, ReservingEnds, RefusalEnds, FreeEnds, SizeEnds, NotLiveEnds};
ghost use Rattle.serial_laws.specs.VsCalls.{GapAllocationEnds, SpanAllocationEnds, ReservingSpanEnds, VsRefusalEnds, VsFreeEnds, VsFreeSpanEnds, VsSizeEnds};

/// Calls that each complete from where the one before ended make up one legal history of caller 0 alone.
pub fn in_turn_is_serial()
    ensures { InTurnIsSerial }
{}

/// An allocation by the back end, where its place lies in a reserved segment.
pub fn allocation_ends()
    ensures { AllocationEnds }
{}

/// An allocation by the back end for which the next segment is reserved.
pub fn reserving_ends()
    ensures { ReservingEnds }
{}

/// An allocation for which no range fits.
pub fn refusal_ends()
    ensures { RefusalEnds }
{}

/// A free of a block of the back end.
pub fn free_ends()
    ensures { FreeEnds }
{}

/// A question for the size of a block of the back end.
pub fn size_ends()
    ensures { SizeEnds }
{}

/// A free, or a question for the size, at an address where no block lives.
pub fn not_live_ends()
    ensures { NotLiveEnds }
{}

/// An allocation by the variable-size layer, where a gap fits.
pub fn gap_allocation_ends()
    ensures { GapAllocationEnds }
{}

/// An allocation by the variable-size layer for which a span is made in a reserved segment.
pub fn span_allocation_ends()
    ensures { SpanAllocationEnds }
{}

/// An allocation by the variable-size layer for whose span the next segment is reserved.
pub fn reserving_span_ends()
    ensures { ReservingSpanEnds }
{}

/// An allocation of this layer's size for which no gap fits, and no range fits a span.
pub fn vs_refusal_ends()
    ensures { VsRefusalEnds }
{}

/// A free of a block of the variable-size layer whose span has another one.
pub fn vs_free_ends()
    ensures { VsFreeEnds }
{}

/// A free of the last block of a span, which ends the span.
pub fn vs_free_span_ends()
    ensures { VsFreeSpanEnds }
{}

/// A question for the size of a block of the variable-size layer.
pub fn vs_size_ends()
    ensures { VsSizeEnds }
{}
