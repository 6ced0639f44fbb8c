//! The laws, each the contract of a function that does nothing.

ghost use Rattle.lock_steps.specs.Laws.{TakeLaw, GiveLaw, LoadDataLaw, StoreDataLaw};

use heap_model::Stands;

/// Trying to take the lock of a layer keeps the rule; where it is free its state comes with it.
pub fn take_keeps<T: Stands>()
    ensures { TakeLaw T.stands }
{}

/// Giving the lock of a layer back, with a state that stands for what it guards, keeps the rule.
pub fn give_keeps<T: Stands>()
    ensures { GiveLaw T.stands }
{}

/// Loading a data word keeps the rule.
pub fn load_data_keeps<T: Stands>()
    ensures { LoadDataLaw T.stands }
{}

/// Storing a data word keeps the rule.
pub fn store_data_keeps<T: Stands>()
    ensures { StoreDataLaw T.stands }
{}
