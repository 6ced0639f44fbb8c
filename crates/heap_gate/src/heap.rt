//! The heap that threads share.
ghost use Rattle.std.specs.Prelude.{◌≡◌};
ghost use Rattle.heap_model.specs.Limits.{AreValid};

use atomic_table::Table;
use claim_rule::{HeapRule, View};
use heap_model::{Limits, Opening, Stands, Words};
use std::alloc::Global;
use std::marker::Model;

/// A heap. Contracts see which table it has, and what it was opened with. Its fields are open to crates that add steps of their
/// own.
#[derive(Drop)]
pub struct Heap<T: Stands> {
    pub table: Table<Option<T>, View, Opening, HeapRule<T>, Global>,
    pub opening: Opening,
    /// Room for the words, once the heap is closed.
    pub closing: Words,
}

impl<T: Stands> Model for Heap<T> {
    ghost use Rattle.heap_gate.specs.Token.{HeapToken, IsHeap};

    ghost Value = { HeapToken };

    ghost view = { λ h. record { table = h.table.shared.table_id; opening = h.opening } };

    ghost invariant = { λ h. IsHeap h.table.shared.table_id h.table.shared.key h.opening h.closing };
}

impl<T: Stands> Heap<T> {
    /// The limits that the heap was opened with.
    pub fn limits(&self) -> Limits
        ensures limits { result ≡ self.now.opening.limits }
        ensures valid { AreValid result }
    {
        self.opening.limits
    }

    /// The seed that the heap was opened with.
    pub fn seed(&self) -> u64
        ensures { result ≡ self.now.opening.seed }
    {
        self.opening.seed
    }
}
