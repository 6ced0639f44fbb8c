//! What a caller may do next by what its calls told it, each law the contract of a function that does nothing.

ghost use Rattle.lfh_claims.specs.Laws.{ReadStays, AskStays, ReadByTag, AsksByTag, ReadsGivenTag, PublishesInHand, ClearsInHand, SoughtIs};

/// What a caller has read since it entered counts as read until it leaves.
pub fn read_stays()
    ensures { ReadStays }
{}

/// Where a caller may ask for a block, it may until it leaves.
pub fn ask_stays()
    ensures { AskStays }
{}

/// A tag that was read names a subsegment that counts as read.
pub fn read_by_tag()
    ensures { ReadByTag }
{}

/// Where a tag was read, the blocks of its page can be asked for.
pub fn asks_by_tag()
    ensures { AsksByTag }
{}

/// Where the maker of a subsegment has given the back end's lock back, its tags are read.
pub fn reads_given_tag()
    ensures { ReadsGivenTag }
{}

/// A block in hand can be published with any size that it has room for.
pub fn publishes_in_hand()
    ensures { PublishesInHand }
{}

/// A block in hand can be given back.
pub fn clears_in_hand()
    ensures { ClearsInHand }
{}

/// The bucket that a call searches is the one of its request.
pub fn sought_is()
    ensures { SoughtIs }
{}
