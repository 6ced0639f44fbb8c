//! The laws, each the contract of a function that does nothing.

ghost use Rattle.span_steps.specs.Laws.{ActivateLaw, PutTagLaw, PutHintLaw, ClearTagLaw, InstallLaw, RetireLaw};

use heap_model::Stands;

/// Making a bucket active keeps the rule.
pub fn activate_keeps<T: Stands>()
    ensures { ActivateLaw T.stands }
{}

/// Storing a tag under the back end's lock keeps the rule.
pub fn put_tag_keeps<T: Stands>()
    ensures { PutTagLaw T.stands }
{}

/// Storing a hint under the back end's lock keeps the rule.
pub fn put_hint_keeps<T: Stands>()
    ensures { PutHintLaw T.stands }
{}

/// Clearing a tag under the back end's lock, by the owner of the heap lock, keeps the rule.
pub fn clear_tag_keeps<T: Stands>()
    ensures { ClearTagLaw T.stands }
{}

/// Making a subsegment with the claim of its first block keeps the rule: its tags and the hint are owed then.
pub fn install_keeps<T: Stands>()
    ensures { InstallLaw T.stands }
{}

/// Giving a subsegment without places back with the store of the hint keeps the rule: nothing of it is owed then.
pub fn retire_keeps<T: Stands>()
    ensures { RetireLaw T.stands }
{}
