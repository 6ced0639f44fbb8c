//! The end of a move: the old block is taken, the new one given, and the old one dropped.
ghost use Rattle.std.specs.Prelude.{◌≡◌, ◌/◌, ◌<◌, ℕ, List, true, false, length};
ghost use Rattle.heap_model.specs.declared.Call.{Call as ACall};
ghost use Rattle.heap_model.specs.declared.Layer.TheVariants as layers;
ghost use Rattle.heap_model.specs.declared.What.TheVariants as whats;
ghost use Rattle.heap_model.specs.State.{Place, is_layer};
ghost use Rattle.heap_gate.specs.Token.{is_out};
ghost use Rattle.move_parts.specs.Moves.{IsHalfway, WillTellVs, WillTellBack, WillTellLarge};
ghost use Rattle.move_parts.specs.Places.{HasSwapped, EndsBack, EndsLarge, EndsVs, MayEnd, HasEndedSpan};

use backend_fit::Back;
use call_parts::{State, prepare_all};
use heap_gate::{Caller, prepare, rest};
use heap_model::Act;
use large_blocks::Large;
use vs_layer::Vs;

/// Takes the old block, gives the new one `n` bytes, and drops the old one, which is none of the back end. Nothing is in hand then.
fn swap(c: &mut Caller<State>, addr: u64, size: u64, b: u64, n: u64)
    requires halfway { (call : ACall) × (p q : Place) × (out : List ℕ) × IsHalfway c.old call addr size p b n q out × (is_layer p.layer layers.Back ≡ false) }
    ensures { (call : ACall) (p q : Place) (out : List ℕ) → IsHalfway c.old call addr size p b n q out → is_layer p.layer layers.Back ≡ false → HasSwapped c.old c.new addr size p b n q }
{
    c.check();
    prepare_all(
        c,
        &[
            Act::Take { addr, size },
            Act::Give { addr: b, size: n },
            Act::Drop { addr },
        ],
    );
    rest(c);
}

/// Ends the move of a block of the large area, under its lock, by entries that are prepared: the new block is given `n` bytes, and the
/// place of the old one goes.
pub fn end_large(c: &mut Caller<State>, large: &mut Large, addr: u64, size: u64, b: u64, n: u64)
    requires halfway { (call : ACall) × (p q : Place) × (out : List ℕ) × IsHalfway c.old call addr size p b n q out × (p.layer ≡ layers.Large) × WillTellLarge c.old q n large.old }
    ensures { (call : ACall) (p q : Place) (out : List ℕ) → IsHalfway c.old call addr size p b n q out → p.layer ≡ layers.Large → WillTellLarge c.old q n large.old → EndsLarge c.old c.new addr size b n q large.new }
{
    c.check();
    let _blocks = large.blocks();
    swap(c, addr, size, b, n);
    large.give(addr);
}

/// Ends the move of a block of the back end, which begins at page `first`, under its lock, by entries that are prepared: the new block
/// is given `n` bytes, and the place of the old one goes with its span.
pub fn end_back(
    c: &mut Caller<State>,
    back: &mut Back,
    first: u32,
    addr: u64,
    size: u64,
    b: u64,
    n: u64,
)
    requires page { first ≡ addr / 4096 }
    requires halfway { (call : ACall) × (p q : Place) × (out : List ℕ) × IsHalfway c.old call addr size p b n q out × (p.layer ≡ layers.Back) × WillTellBack c.old q n back.old }
    ensures { (call : ACall) (p q : Place) (out : List ℕ) → IsHalfway c.old call addr size p b n q out → p.layer ≡ layers.Back → WillTellBack c.old q n back.old → EndsBack c.old c.new addr size b n q back.new }
{
    c.check();
    let _region = back.region();
    prepare_all(
        c,
        &[
            Act::Take { addr, size },
            Act::Give { addr: b, size: n },
            Act::Drop { addr },
            Act::Unspan { first },
        ],
    );
    rest(c);
    back.give(first);
}

/// Gives the span of the variable-size layer that begins at a page, in which no block is left, to the back end, by an entry that is
/// prepared.
pub fn end_span(c: &mut Caller<State>, back: &mut Back, first: u32)
    requires ends { MayEnd c.old back.old first }
    requires room { length c.old.prepared < 16 }
    ensures { HasEndedSpan c.old c.new back.new first }
{
    c.check();
    let _region = back.region();
    back.give(first);
    prepare(c, Act::Unspan { first });
}

/// Ends the move of a block of the variable-size layer, under its lock and that of the back end, by entries that are prepared: the new
/// block is given `n` bytes, and the place of the old one goes, with its span where no block is left in it.
pub fn end_vs(
    c: &mut Caller<State>,
    vs: &mut Vs,
    back: &mut Back,
    addr: u64,
    size: u64,
    b: u64,
    n: u64,
)
    requires halfway { (call : ACall) × (p q : Place) × (out : List ℕ) × IsHalfway c.old call addr size p b n q out × (p.layer ≡ layers.Vs) × (is_out whats.Back out ≡ true) × WillTellVs c.old q n vs.old × WillTellBack c.old q n back.old }
    ensures { (call : ACall) (p q : Place) (out : List ℕ) → IsHalfway c.old call addr size p b n q out → p.layer ≡ layers.Vs → is_out whats.Back out ≡ true → WillTellVs c.old q n vs.old → WillTellBack c.old q n back.old → EndsVs c.old c.new addr size b n q vs.new back.new }
{
    c.check();
    let _region = back.region();
    let _heads = vs.heads();
    swap(c, addr, size, b, n);
    match vs.drop_block(addr) {
        Some((first, _)) => end_span(c, back, first),
        None => {}
    }
}
