//! A block of the front end that was taken moves to another layer, under the locks of the layers where it goes.
ghost use Rattle.std.specs.Prelude.{◌≡◌, ◌≤◌, ℕ, List, true, IfSome, IfNone};
ghost use Rattle.heap_model.specs.declared.Flags.{Flags as AFlags};
ghost use Rattle.heap_model.specs.declared.What.TheVariants as whats;
ghost use Rattle.heap_model.specs.State.{Place};
ghost use Rattle.claim_rule.specs.Entries.{have_slots};
ghost use Rattle.heap_gate.specs.Token.{is_out};
ghost use Rattle.vs_calls.specs.Blocks.{IsForVs};
ghost use Rattle.move_parts.specs.Moves.{TellsVs, TellsBack, TellsLarge};
ghost use Rattle.move_parts.specs.Places.{IsWithout};
ghost use Rattle.move_taken.specs.Holds.{HoldsTaken};
ghost use Rattle.move_taken.specs.Moved.{HasMovedTakenLow, HasMovedTakenFar, MayEndTaken, EndsTaken};

use backend_fit::Back;
use call_parts::State;
use heap_gate::{Caller, Heap, prepare, rest};
use heap_model::Act;
use large_blocks::Large;
use lfh_claims::{Tag, clear};
use move_parts::{hold_large, hold_low, move_words};
use vs_layer::Vs;

/// Gives the new block, whose words are there, `n` bytes, and gives the old one back to its subsegment. Nothing is in hand then.
pub fn end_taken(heap: &Heap<State>, c: &mut Caller<State>, tag: Tag, addr: u64, b: u64, n: u64)
    requires table { (c.old.table ≡ heap.now.table) × (c.old.opening ≡ heap.now.opening) }
    requires ends { (q : Place) × MayEndTaken c.old tag addr b n q }
    ensures { (q : Place) → MayEndTaken c.old tag addr b n q → EndsTaken c.old c.new addr b n q }
{
    c.check();
    prepare(c, Act::Give { addr: b, size: n });
    c.check();
    clear(heap, c, tag, addr);
    c.check();
    rest(c);
}

/// Moves the block to a new place of at most 520,192 bytes, which the front end does not serve, in the variable-size layer or the back
/// end, and zeroes the words that it gains where `zero` is asked. Where no range is there for it, nothing changes. Both locks are held
/// still. The tag is that of its subsegment.
pub fn move_taken_low(
    heap: &Heap<State>,
    c: &mut Caller<State>,
    vs: &mut Vs,
    back: &mut Back,
    tag: Tag,
    addr: u64,
    size: u64,
    n: u64,
    zero: bool,
) -> Option<u64>
    requires size { n ≤ 520192 }
    requires table { (c.old.table ≡ heap.now.table) × (c.old.opening ≡ heap.now.opening) }
    requires slots { have_slots c.old.opening.limits.slots c.old.roll ≡ true }
    requires moving { (flags : AFlags) × (out : List ℕ) × HoldsTaken c.old tag addr size n flags out × (is_out whats.Vs out ≡ true) × TellsVs c.old vs.old × (is_out whats.Back out ≡ true) × TellsBack c.old back.old }
    requires bucket { n ≤ 131072 → IsForVs c.old n }
    ensures moved { IfSome result (λ b. (flags : AFlags) (out : List ℕ) → flags.zero ≡ zero → HoldsTaken c.old tag addr size n flags out → is_out whats.Vs out ≡ true → TellsVs c.old vs.old → is_out whats.Back out ≡ true → TellsBack c.old back.old → HasMovedTakenLow c.old c.new tag addr size n flags b vs.new back.new) }
    ensures none { IfNone result (IsWithout c.old c.new n × (vs.new ≡ vs.old) × (back.new ≡ back.old)) }
{
    let _limits = heap.limits();
    c.check();
    let Some(b) = hold_low(heap, c, vs, back, n) else {
        return None;
    };
    c.check();
    move_words(heap, c, addr, size, b, n, zero);
    c.check();
    end_taken(heap, c, tag, addr, b, n);
    Some(b)
}

/// As [`move_taken_low`], to a new place of more than 520,192 bytes in the large area, whose lock is held.
pub fn move_taken_far(
    heap: &Heap<State>,
    c: &mut Caller<State>,
    large: &mut Large,
    tag: Tag,
    addr: u64,
    size: u64,
    n: u64,
    zero: bool,
) -> Option<u64>
    requires size { 520193 ≤ n }
    requires table { (c.old.table ≡ heap.now.table) × (c.old.opening ≡ heap.now.opening) }
    requires slots { have_slots c.old.opening.limits.slots c.old.roll ≡ true }
    requires moving { (flags : AFlags) × (out : List ℕ) × HoldsTaken c.old tag addr size n flags out × (is_out whats.Large out ≡ true) × TellsLarge c.old large.old }
    ensures moved { IfSome result (λ b. (flags : AFlags) (out : List ℕ) → flags.zero ≡ zero → HoldsTaken c.old tag addr size n flags out → is_out whats.Large out ≡ true → TellsLarge c.old large.old → HasMovedTakenFar c.old c.new tag addr size n flags b large.new) }
    ensures none { IfNone result (IsWithout c.old c.new n × (large.new ≡ large.old)) }
{
    let _limits = heap.limits();
    c.check();
    let Some(b) = hold_large(heap, c, large, n) else {
        return None;
    };
    c.check();
    move_words(heap, c, addr, size, b, n, zero);
    c.check();
    end_taken(heap, c, tag, addr, b, n);
    Some(b)
}
