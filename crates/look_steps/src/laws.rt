//! The laws, each the contract of a function that does nothing.

ghost use Rattle.look_steps.specs.Laws.{AskActiveLaw, LookBitsLaw, LookSizeLaw, LookHintLaw, LookTagLaw, DenyLaw, DenyGiveLaw, DenyLeaveLaw};

use heap_model::Stands;

/// Reading an active word keeps the rule.
pub fn ask_active_keeps<T: Stands>()
    ensures { AskActiveLaw T.stands }
{}

/// Reading a word of a bitmap without an entry keeps the rule.
pub fn look_bits_keeps<T: Stands>()
    ensures { LookBitsLaw T.stands }
{}

/// Reading a size word without an entry keeps the rule.
pub fn look_size_keeps<T: Stands>()
    ensures { LookSizeLaw T.stands }
{}

/// Reading a hint without an entry keeps the rule.
pub fn look_hint_keeps<T: Stands>()
    ensures { LookHintLaw T.stands }
{}

/// Reading a tag keeps the rule, and tells it where it is known what is owed.
pub fn look_tag_keeps<T: Stands>()
    ensures { LookTagLaw T.stands }
{}

/// Saying with a load that no live block has an address keeps the rule.
pub fn deny_keeps<T: Stands>()
    ensures { DenyLaw T.stands }
{}

/// Saying so with giving a lock back keeps the rule.
pub fn deny_give_keeps<T: Stands>()
    ensures { DenyGiveLaw T.stands }
{}

/// Saying so with leaving keeps the rule.
pub fn deny_leave_keeps<T: Stands>()
    ensures { DenyLeaveLaw T.stands }
{}
