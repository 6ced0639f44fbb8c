//! Laws on what the layer tells of each state that it stands for, each the contract of a function that does nothing.

ghost use Rattle.vs_layer.specs.Laws.{GapsAreTheHeaps, PlacesAreTheHeaps, BlocksArePlaces, SameAreDue};

pub fn gaps_are_the_heaps()
    ensures { GapsAreTheHeaps }
{}

/// Where [`crate::Vs::place`] puts a block.
pub fn places_are_the_heaps()
    ensures { PlacesAreTheHeaps }
{}

/// What [`crate::Vs::find`] finds.
pub fn blocks_are_places()
    ensures { BlocksArePlaces }
{}

/// What [`crate::Vs::due`] tells.
pub fn same_are_due()
    ensures { SameAreDue }
{}
