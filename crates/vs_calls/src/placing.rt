//! A new block of the variable-size layer, in hand.
ghost use Rattle.std.specs.Prelude.{◌≡◌, ◌*◌, ◌<◌, ◌≤◌, [], ◌∷◌, Some, is_some, true, length};
ghost use Rattle.heap_model.specs.declared.Act.TheVariants.{GiveLock, NoFit, Place as APlace};
ghost use Rattle.heap_model.specs.declared.Layer.TheVariants as layers;
ghost use Rattle.heap_model.specs.declared.What.TheVariants as whats;
ghost use Rattle.heap_model.specs.Layers.{StandsForVs};
ghost use Rattle.heap_model.specs.Runs.{Run};
ghost use Rattle.heap_model.specs.State.{Place};
ghost use Rattle.claim_rule.specs.Entries.{may_prepare};
ghost use Rattle.heap_gate.specs.Token.{Always, now};
ghost use Rattle.vs_layer.specs.Kept.{block_at, place_for};
ghost use Rattle.vs_layer.specs.Standing.{layer_of};
ghost use Rattle.call_parts.specs.Entries.{HasEnded};
ghost use Rattle.vs_calls.specs.Blocks.{HasHeld, HasVsAndBack};

use backend_fit::Back;
use call_parts::{State, give_back, give_vs};
use heap_gate::{Caller, Heap, prepare};
use heap_model::{Act, GRANULE_BYTES, Layer};
use vs_layer::Vs;

/// The granules of the place of the block at an address, its header included.
pub(crate) fn granules_at(vs: &Vs, addr: u64) -> u64
    requires { (p : Place) × (block_at vs.now addr ≡ Some p) }
    ensures { (p : Place) → block_at vs.now addr ≡ Some p → result ≡ p.granules }
{
    let start = addr - GRANULE_BYTES;
    u64::from(vs.heads().chunk_at(start).unwrap().units)
}

/// Places a block of `n` bytes at the front of the smallest gap that holds it, and has it in hand. The place is prepared under the lock
/// of the layer. It is the part that a request of the layer itself shares with one that the front end could not serve.
pub fn hold_in_gap(c: &mut Caller<State>, vs: &mut Vs, n: u64) -> u64
    requires size { n ≤ 131072 }
    requires fits { is_some (place_for vs.old n) ≡ true }
    requires room { length c.old.prepared < 16 }
    requires tells { Always c.old (λ s. StandsForVs c.old.opening (now s c.old).state (layer_of vs.old)) }
    requires may { (run : Run) → place_for vs.old n ≡ Some run → Always c.old (λ s. may_prepare s (now s c.old) c.old.number (APlace (16 * run.first) run.count layers.Vs) ≡ true) }
    ensures { HasHeld c.old c.new vs.old vs.new n result }
{
    let addr = vs.place(n);
    let granules = granules_at(vs, addr);
    prepare(
        c,
        Act::Place {
            start: addr - GRANULE_BYTES,
            granules,
            layer: Layer::Vs,
        },
    );
    addr
}

/// Says that no range fits a block of `n` bytes, and gives both locks back. It is the part that a request of the layer itself shares
/// with one that the front end could not serve.
pub fn refuse(heap: &Heap<State>, c: &mut Caller<State>, vs: Vs, back: Back, n: u64)
    requires table { c.old.table ≡ heap.now.table }
    requires both { HasVsAndBack c.old vs back }
    requires room { length c.old.prepared < 16 }
    requires may { Always c.old (λ s. may_prepare s (now s c.old) c.old.number (NoFit n) ≡ true) }
    ensures { HasEnded c.old c.new (NoFit n ∷ GiveLock whats.Back ∷ GiveLock whats.Vs ∷ []) [] }
{
    c.check();
    prepare(c, Act::NoFit { size: n });
    give_back(heap, c, back);
    give_vs(heap, c, vs);
}
