// What the entries of any caller's call lead to, whatever entries of others stand between: each law is the contract of a function that does nothing.
#![tactic(auto)]

ghost use Rattle.call_laws.specs.Words.{WordsChangeByStores, CopiesKeep, ZeroesStay, OthersStay};
ghost use Rattle.call_laws.specs.Blocks.{Taking, Sizing, Resizing, Giving, Dropping, Loading, Storing, PlacingLarge, PlacingInGap, RefusingLarge, RefusingBack, RefusingVs, FindingNone};
ghost use Rattle.call_laws.specs.Spans.{AllocationPlaces, ReallocationPlaces, PlacingBack, ReservingBack, DroppingBack, PlacingInSpan, ReservingSpan, EndingSpan, Freeing, FreeingBack};
ghost use Rattle.call_laws.specs.Told.{OwnActsAnswer, OwnActsAreShown, FirstIsBefore, LastIsBefore, FindingStays};
ghost use Rattle.call_laws.specs.Kept.{ReallocationKeeps, AllocationZeroes, ReallocationZeroes};
ghost use Rattle.call_laws.specs.Alone.{OpenIsLocked, HandIsExclusive, AllocationHoldsOld, ReallocationHoldsOld, PlacingPicked, FallingIntoGap, RefusingSearched};

/// A data word changes by Stores alone.
pub fn words_change_by_stores()
    ensures { WordsChangeByStores }
{}

/// A word to which nobody stores stays.
pub fn others_stay()
    ensures { OthersStay }
{}

/// A copy keeps the words that it copies.
pub fn copies_keep()
    ensures { CopiesKeep }
{}

/// Zeroed words are 0.
pub fn zeroes_stay()
    ensures { ZeroesStay }
{}

/// A live block is taken in hand.
pub fn taking()
    ensures { Taking }
{}

/// The size of a live block is found.
pub fn sizing()
    ensures { Sizing }
{}

/// A live block that lets it is resized where it is.
pub fn resizing()
    ensures { Resizing }
{}

/// A block in hand is given.
pub fn giving()
    ensures { Giving }
{}

/// A block in hand is dropped, save one of the back end.
pub fn dropping()
    ensures { Dropping }
{}

/// A data word is loaded.
pub fn loading()
    ensures { Loading }
{}

/// A data word is stored.
pub fn storing()
    ensures { Storing }
{}

/// A place is made in the large area.
pub fn placing_large()
    ensures { PlacingLarge }
{}

/// A place is made in a gap of the variable-size layer.
pub fn placing_in_gap()
    ensures { PlacingInGap }
{}

/// No range fits a large block.
pub fn refusing_large()
    ensures { RefusingLarge }
{}

/// No range fits a block of the back end.
pub fn refusing_back()
    ensures { RefusingBack }
{}

/// No range fits a block of the variable-size layer.
pub fn refusing_vs()
    ensures { RefusingVs }
{}

/// No live block has an address, by what the caller sees of one part of the heap.
pub fn finding_none()
    ensures { FindingNone }
{}

/// An allocation that has placed nothing yet places its size.
pub fn allocation_places()
    ensures { AllocationPlaces }
{}

/// A reallocation of a block that can't stay places the new size.
pub fn reallocation_places()
    ensures { ReallocationPlaces }
{}

/// A block of the back end, in a segment that is reserved.
pub fn placing_back()
    ensures { PlacingBack }
{}

/// A block of the back end, for which the next segment is reserved.
pub fn reserving_back()
    ensures { ReservingBack }
{}

/// A block of the back end in hand goes, with its span.
pub fn dropping_back()
    ensures { DroppingBack }
{}

/// A block of the variable-size layer in a span that is made for it.
pub fn placing_in_span()
    ensures { PlacingInSpan }
{}

/// A block of the variable-size layer for whose span the next segment is reserved.
pub fn reserving_span()
    ensures { ReservingSpan }
{}

/// A span of the variable-size layer in which no block is left goes.
pub fn ending_span()
    ensures { EndingSpan }
{}

/// A live block is taken and dropped, save one of the back end.
pub fn freeing()
    ensures { Freeing }
{}

/// A live block of the back end is taken and dropped, and its span goes.
pub fn freeing_back()
    ensures { FreeingBack }
{}

/// The caller's own entries tell the answer, where acts alone tell the shape.
pub fn own_acts_answer()
    ensures { OwnActsAnswer }
{}

/// What holds when the first entry of a kind comes.
pub fn first_is_before()
    ensures { FirstIsBefore }
{}

/// What a caller finds of a block that is open to it alone stays.
pub fn finding_stays()
    ensures { FindingStays }
{}

/// A reallocation keeps the words of its block.
pub fn reallocation_keeps()
    ensures { ReallocationKeeps }
{}

/// A block that was asked with zeroes has zeroes.
pub fn allocation_zeroes()
    ensures { AllocationZeroes }
{}

/// The words that a reallocation with zeroes gains are 0.
pub fn reallocation_zeroes()
    ensures { ReallocationZeroes }
{}

/// A place of a layer whose lock the caller holds changes by it alone.
pub fn open_is_locked()
    ensures { OpenIsLocked }
{}

/// So does a place in its hand.
pub fn hand_is_exclusive()
    ensures { HandIsExclusive }
{}

/// An allocation decides alone what it places.
pub fn allocation_holds_old()
    ensures { AllocationHoldsOld }
{}

/// A reallocation that holds its block decides alone what it places.
pub fn reallocation_holds_old()
    ensures { ReallocationHoldsOld }
{}

/// The block that a search has picked is made a place.
pub fn placing_picked()
    ensures { PlacingPicked }
{}

/// A block that the front end can't serve goes to a gap.
pub fn falling_into_gap()
    ensures { FallingIntoGap }
{}

/// A block that the front end can't serve, and no range fits, is refused.
pub fn refusing_searched()
    ensures { RefusingSearched }
{}

/// The shape that the caller's own entries show.
pub fn own_acts_are_shown()
    ensures { OwnActsAreShown }
{}

/// The state before a caller's last entry.
pub fn last_is_before()
    ensures { LastIsBefore }
{}
