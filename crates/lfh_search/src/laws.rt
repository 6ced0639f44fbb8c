//! When a search is spent, and how it goes on under locks, each law the contract of a function that does nothing.
ghost use Rattle.lfh_search.specs.Laws.{EightLossesSpend, PassSpends, SpentGoesUnder, NoRoomGoesAgain, NoRoomTakesVs};

/// Eight lost claims spend it.
pub fn eight_losses_spend()
    ensures { EightLossesSpend }
{}

/// A pass over all subsegments spends it: then [`lfh_spans::install`] may make one.
pub fn pass_spends()
    ensures { PassSpends }
{}

/// An allocation whose first pass is spent takes the back end's lock, and may call [`crate::search_under_back`].
pub fn spent_goes_under()
    ensures { SpentGoesUnder }
{}

/// Behind NoSpan it may call [`crate::search_again`] at once, where it holds the lock of the variable-size layer.
pub fn no_room_goes_again()
    ensures { NoRoomGoesAgain }
{}

/// .. or when it has taken that lock.
pub fn no_room_takes_vs()
    ensures { NoRoomTakesVs }
{}
