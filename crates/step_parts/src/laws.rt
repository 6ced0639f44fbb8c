//! The laws, each the contract of a function that does nothing.

ghost use Rattle.step_parts.specs.Laws.{SoundLaw, StaysLaw, TagLaw};

use heap_model::Stands;

/// What is behind the entries that a caller carries is sound, in each setting of the rule.
pub fn carried_is_sound<T: Stands>()
    ensures { SoundLaw T.stands }
{}

/// What a caller has seen of subsegments in its stay is still so.
pub fn seen_stays<T: Stands>()
    ensures { StaysLaw T.stands }
{}

/// A tag names its subsegment.
pub fn tag_names()
    ensures { TagLaw }
{}
