//! What a seat knows. No value of these types is made, but for what a heap is opened with.
use atomic_table::{Join, Split, TableRule};
use heap_model::{Entry, Opening, Stands};
use std::collections::LinkedList;
use std::marker::{Brand, PhantomData};

/// What a caller was made with: its affinity slot, and the stream of its draws.
#[derive(Clone, Copy, Debug, PartialEq, Eq)]
pub struct Assignment {
    pub slot: u32,
    pub stream: u64,
}

/// What the root knows: how many callers are counted, what each that has a seat was made with, those that have joined
/// and the list with which each did, and 0, or 1 more than the one that has joined since the root last looked.
pub struct Lead {
    pub counted: u64,
    pub roll: LinkedList<Assignment>,
    pub joined: LinkedList<u64>,
    pub lists: LinkedList<LinkedList<Entry>>,
    pub last: u64,
}

/// Who sits on a seat.
pub enum Role {
    Nobody,
    Caller(u64),
    Root(Lead),
}

/// A word of the tags or of the hints that the holder of the back end's lock has still to bring up to date, and what it is
/// by then.
pub struct Owed {
    pub word: u64,
    pub value: u64,
}

/// A beginning of the history that was seen and one that was heard of, each with what the callers in it were made with,
/// and while the caller holds the back end's lock the words that it owes.
pub struct View {
    pub role: Role,
    pub opening: Opening,
    pub roll: LinkedList<Assignment>,
    pub seen: LinkedList<Entry>,
    pub heard_roll: LinkedList<Assignment>,
    pub heard: LinkedList<Entry>,
    pub owes: LinkedList<Owed>,
}

/// The rule. `T` is a state of a layer, with what it stands for.
pub struct HeapRule<T> {
    of: PhantomData<T>,
}

impl<T: Stands> TableRule<Option<T>, View, Opening> for HeapRule<T> {
    ghost use Rattle.claim_rule.specs.Rule.{IsRuled, first_view};

    ghost holds = { λ key s. IsRuled T.stands key s };

    ghost first = { λ key. first_view key };
}

/// A new seat that tells of what a seat has seen.
pub struct Relays;

impl Split<View> for Relays {
    ghost use Rattle.claim_rule.specs.Rule.{relay};

    ghost left = { λ v. v };

    ghost right = { relay };
}

/// What the next caller is made with.
pub trait Assigned {
    ghost use Rattle.claim_rule.specs.declared.views.Assignment.{Assignment};

    ghost assignment: { Assignment };
}

impl Assigned for Brand {
    ghost assignment = { record { slot = 0; stream = 0 } };
}

/// The root gives a seat to the next caller.
pub struct Deals<A> {
    of: PhantomData<A>,
}

impl<A: Assigned> Split<View> for Deals<A> {
    ghost use Rattle.claim_rule.specs.Rule.{dealing, dealt};

    ghost left = { dealing A.assignment };

    ghost right = { dealt A.assignment };
}

/// A seat hears of what another has seen.
pub struct Tells;

impl Join<View> for Tells {
    ghost use Rattle.claim_rule.specs.Rule.{told, spent_view};

    ghost both = { told };

    ghost spent = { spent_view };
}

/// The root takes in a caller.
pub struct TakesIn;

impl Join<View> for TakesIn {
    ghost use Rattle.claim_rule.specs.Rule.{taken_in, spent_view};

    ghost both = { taken_in };

    ghost spent = { spent_view };
}
