//! The end of a move: what came of it is said, and all locks are given back.
ghost use Rattle.std.specs.Prelude.{◌≡◌, ℕ};
ghost use Rattle.heap_model.specs.declared.Flags.{Flags as AFlags};
ghost use Rattle.heap_model.specs.State.{Place};
ghost use Rattle.heap_gate.specs.Token.{Token};
ghost use Rattle.move_calls.specs.Ends.{IsBehindTry};
ghost use Rattle.move_calls.specs.Moves.{Moves};

use crate::gives::give_all;
use crate::held::Held;
use call_parts::State;
use heap_gate::{Caller, Heap, prepare};
use heap_model::{Act, ReNo};

/// Ends a move of a block that has come to an address: the locks are given back.
fn end_moved(heap: &Heap<State>, c: &mut Caller<State>, held: Held, n: u64, b: u64)
    requires table { c.old.table ≡ heap.now.table }
    requires behind { (k : Token) × (addr size : ℕ) × (flags : AFlags) × (p : Place) × IsBehindTry k c.old addr size n flags p held (Some b) }
    ensures { (k : Token) (addr size : ℕ) (flags : AFlags) (p : Place) → IsBehindTry k c.old addr size n flags p held (Some b) → Moves k c.new addr n flags (Ok b) }
{
    give_all(heap, c, held);
    c.check();
}

/// Ends a move for which no range was there: that is said, and the locks are given back.
fn end_without(heap: &Heap<State>, c: &mut Caller<State>, held: Held, n: u64)
    requires table { c.old.table ≡ heap.now.table }
    requires behind { (k : Token) × (addr size : ℕ) × (flags : AFlags) × (p : Place) × IsBehindTry k c.old addr size n flags p held None }
    ensures { (k : Token) (addr size : ℕ) (flags : AFlags) (p : Place) → IsBehindTry k c.old addr size n flags p held None → Moves k c.new addr n flags (Err ReNo.NoFit) }
{
    c.check();
    prepare(c, Act::NoFit { size: n });
    give_all(heap, c, held);
    c.check();
}

/// Ends a move by what came of it, and gives all locks back.
pub fn end_move(
    heap: &Heap<State>,
    c: &mut Caller<State>,
    held: Held,
    n: u64,
    moved: Option<u64>,
) -> Result<u64, ReNo>
    requires table { c.old.table ≡ heap.now.table }
    requires behind { (k : Token) × (addr size : ℕ) × (flags : AFlags) × (p : Place) × IsBehindTry k c.old addr size n flags p held moved }
    ensures { (k : Token) (addr size : ℕ) (flags : AFlags) (p : Place) → IsBehindTry k c.old addr size n flags p held moved → Moves k c.new addr n flags result }
{
    match moved {
        Some(b) => {
            end_moved(heap, c, held, n, b);
            Ok(b)
        }
        None => {
            end_without(heap, c, held, n);
            Err(ReNo::NoFit)
        }
    }
}
