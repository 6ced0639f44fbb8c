//! What a caller's list tells of tags, each law the contract of a function that does nothing.
ghost use Rattle.address_calls.specs.Tagged.{KnownByList, ReadsKnownTag};

/// Where a list shows a subsegment made, and the lock of the back end given back by its maker since, its caller knows the tag of each
/// page of it.
pub fn known_by_list()
    ensures { KnownByList }
{}

/// A caller that is inside reads the tags that it knows.
pub fn reads_known_tag()
    ensures { ReadsKnownTag }
{}
