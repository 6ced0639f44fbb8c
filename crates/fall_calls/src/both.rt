//! What is given under the locks of the variable-size layer and of the back end, and the locks themselves, in either order.
ghost use Rattle.std.specs.Prelude.{◌≡◌, ◌++◌, ◌∷◌, [], true};
ghost use Rattle.heap_model.specs.declared.Act.TheVariants.{Give, GiveLock};
ghost use Rattle.heap_model.specs.declared.What.TheVariants as whats;
ghost use Rattle.heap_model.specs.Shape.{zeroing};
ghost use Rattle.call_parts.specs.Entries.{HasEnded};
ghost use Rattle.fall_calls.specs.Both.{HasTwo, HasBlock, gives};

use backend_fit::Back;
use call_parts::{State, give_back, give_vs, hand_over};
use heap_gate::{Caller, Heap};
use vs_calls::{give_both, lies_within};
use vs_layer::Vs;

/// Gives both locks back, that of the variable-size layer first.
fn give_vs_first(heap: &Heap<State>, c: &mut Caller<State>, vs: Vs, back: Back)
    requires table { c.old.table ≡ heap.now.table }
    requires two { HasTwo c.old vs back true }
    ensures { HasEnded c.old c.new (GiveLock whats.Vs ∷ GiveLock whats.Back ∷ []) [] }
{
    c.check();
    give_vs(heap, c, vs);
    give_back(heap, c, back);
}

/// Gives both locks back, with nothing in hand: first that of the variable-size layer where it was taken last, else that of the back
/// end.
pub fn give_two(heap: &Heap<State>, c: &mut Caller<State>, vs: Vs, back: Back, vs_last: bool)
    requires table { c.old.table ≡ heap.now.table }
    requires two { HasTwo c.old vs back vs_last }
    ensures { HasEnded c.old c.new (gives vs_last) [] }
{
    if vs_last {
        give_vs_first(heap, c, vs, back);
    } else {
        give_both(heap, c, vs, back);
    }
}

/// Gives the new block of the variable-size layer in hand with `n` bytes, whose words are 0 then if that is asked, and then both
/// locks, as [`give_two`].
pub fn hand_over_two(
    heap: &Heap<State>,
    c: &mut Caller<State>,
    vs: Vs,
    back: Back,
    addr: u64,
    n: u64,
    zero: bool,
    vs_last: bool,
)
    requires table { (c.old.table ≡ heap.now.table) × (c.old.opening ≡ heap.now.opening) }
    requires block { HasBlock c.old vs back addr n vs_last }
    ensures { HasEnded c.old c.new ((zeroing zero addr n ++ Give addr n ∷ []) ++ gives vs_last) [] }
{
    lies_within(&vs, addr);
    hand_over(heap, c, addr, n, zero);
    give_two(heap, c, vs, back, vs_last);
}
