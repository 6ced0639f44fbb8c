//! What a step is about.
use atomic_table::{Seat, Shared};
use claim_rule::{HeapRule, View};
use heap_model::Opening;
use std::marker::Brand;

/// The table of a heap whose layers' states are of type `T`.
pub type Table<T> = Shared<Option<T>, View, Opening, HeapRule<T>>;

/// A seat of the table.
pub type Seating<T> = Seat<Option<T>, View>;

/// The lock that a step takes or gives back.
pub trait Guards {
    ghost use Rattle.heap_model.specs.declared.What.{What};

    ghost what: { What };
}

impl Guards for Brand {
    ghost use Rattle.heap_model.specs.declared.What.TheVariants.{Vs};

    ghost what = { Vs };
}

/// What a step is about: a block of a subsegment, with its bucket and slot; whether the back end's lock is held, and then the
/// hint; a number of a page or a word; a value.
pub trait Target {
    ghost use Rattle.std.specs.Prelude.{ℕ, Bool};

    ghost head: { ℕ };

    ghost bucket: { ℕ };

    ghost slot: { ℕ };

    ghost index: { ℕ };

    ghost back: { Bool };

    ghost hint: { ℕ };

    ghost number: { ℕ };

    ghost size: { ℕ };
}

impl Target for Brand {
    ghost use Rattle.std.specs.Prelude.{false};

    ghost head = { 0 };

    ghost bucket = { 0 };

    ghost slot = { 0 };

    ghost index = { 0 };

    ghost back = { false };

    ghost hint = { 0 };

    ghost number = { 0 };

    ghost size = { 0 };
}
