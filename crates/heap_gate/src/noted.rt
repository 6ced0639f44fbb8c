//! A list and a value that only proofs read. They take no memory, and their methods do nothing at run time.
ghost use Rattle.std.specs.Prelude.{◌≡◌, List, [], ◌∷◌, ◌++◌};
ghost use Rattle.std.specs.Borrow.{ftrue};

use std::marker::{Model, PhantomData};

/// A list for proofs alone: it has no bytes. A clause reads its values as `items`.
#[derive(Drop)]
pub struct Noted<A> {
    of: PhantomData<A>,
    pub ghost items: { List A },
}

impl<A> Model for Noted<A> {
    ghost also_owns = { λ _. ftrue };
}

// It owns nothing.
unsafe impl<A: Send> Send for Noted<A> {}

impl<A> Noted<A> {
    /// The list of nothing.
    pub fn new() -> Noted<A>
        ensures { result.items ≡ [] }
    {
        Noted { of: PhantomData }
    }

    /// The list with one value more at its end.
    pub fn and(&self, value: &A) -> Noted<A>
        ensures { result.items ≡ self.now.items ++ value.now ∷ [] }
    {
        Noted { of: PhantomData }
    }

    /// Takes everything out.
    pub fn clear(&mut self)
        ensures { self.new.items ≡ [] }
    {
        *self = Noted::new();
    }
}

impl<A: Copy> Noted<A> {
    /// Adds a value at the end.
    pub fn push(&mut self, value: A)
        ensures items { self.new.items ≡ self.old.items ++ value ∷ [] }
    {
        *self = self.and(&value);
    }
}

/// A value for proofs alone: it has no bytes. A clause reads it as `value`.
#[derive(Drop)]
pub struct Told<A> {
    of: PhantomData<A>,
    pub ghost value: { A },
}

impl<A> Model for Told<A> {
    ghost also_owns = { λ _. ftrue };
}

// It owns nothing.
unsafe impl<A: Send> Send for Told<A> {}

impl<A> Told<A> {
    /// What a value is now.
    pub fn of(value: &A) -> Told<A>
        ensures { result.value ≡ value.now }
    {
        let _ = value;
        Told { of: PhantomData }
    }
}
