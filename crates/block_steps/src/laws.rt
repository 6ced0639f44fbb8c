//! The laws, each the contract of a function that does nothing.

ghost use Rattle.block_steps.specs.Laws.{ClaimLaw, ClearLaw, PublishLaw, TakeBlockLaw, SizeLaw, SeeLaw, HintLaw};

use heap_model::Stands;

/// Claiming the block that a search has picked keeps the rule: it is placed, or another has it.
pub fn claim_keeps<T: Stands>()
    ensures { ClaimLaw T.stands }
{}

/// Giving the bit of a block in hand back keeps the rule.
pub fn clear_keeps<T: Stands>()
    ensures { ClearLaw T.stands }
{}

/// Storing the size of a block in hand keeps the rule: it is live.
pub fn publish_keeps<T: Stands>()
    ensures { PublishLaw T.stands }
{}

/// Swapping the size word for 0 keeps the rule: a live block is in hand, or none was there.
pub fn take_block_keeps<T: Stands>()
    ensures { TakeBlockLaw T.stands }
{}

/// Reading a size word keeps the rule.
pub fn size_keeps<T: Stands>()
    ensures { SizeLaw T.stands }
{}

/// Reading a word of a bitmap keeps the rule.
pub fn see_keeps<T: Stands>()
    ensures { SeeLaw T.stands }
{}

/// Reading a hint keeps the rule; where it is 0 all subsegments are of a caller that has held the back end's lock since it made them.
pub fn hint_keeps<T: Stands>()
    ensures { HintLaw T.stands }
{}
