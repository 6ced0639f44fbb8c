//! The end of a heap: what it leaves behind is an image of its metadata, and the list that its root has seen, the final history.
#![tactic(auto)]

ghost use Rattle.std.specs.Prelude.{◌≡◌, ◌<◌, ◌≤◌, ℕ, true, length, slice_index};
ghost use Rattle.heap_model.specs.declared.What.{What};
ghost use Rattle.heap_model.specs.State.{is_among, live};
ghost use Rattle.claim_rule.specs.Entries.{IsLegalWith, have_slots, setting_of};
ghost use Rattle.claim_rule.specs.Places.{made_word, gate_at, lock_at, IsLayerLock};
ghost use Rattle.heap_gate.specs.Roots.{AreTheirs, IsAtRest, is_of};
ghost use Rattle.layout_decode.specs.Decode.{decode, IsReadable};
ghost use Rattle.layout_decode.specs.Shows.{Shows};
ghost use Rattle.heap_closing.specs.Receipts.{last_of};

use call_parts::State;
use heap_gate::{Closed, Heap, Root, close_table};
use layout_decode::Image;
use std::snapshot::Snapshot;
use vs_headers::key_of;

/// What a heap leaves behind.
#[derive(Drop)]
pub struct Receipt {
    pub image: Image,
    /// The root at the end, for contracts alone.
    pub last: Snapshot<Root<State>>,
}

/// Closes a heap whose callers have all joined. It takes no memory.
pub fn close(heap: Heap<State>, root: Root<State>) -> Receipt
    requires table { (root.table ≡ heap.table) × (root.opening ≡ heap.opening) }
    requires joined { (n : ℕ) → n < length root.roll → is_among n root.joined ≡ true }
    requires slots { have_slots root.opening.limits.slots root.roll ≡ true }
    ensures last { result.last.value ≡ root }
    ensures legal { IsLegalWith root.opening root.roll root.seen }
    // each entry is of a caller that joined, and stands in the list with which it joined, and this list is a beginning of the history
    ensures joined { is_of root.joined root.seen ≡ true }
    ensures theirs { AreTheirs root.joined root.lists root.seen }
    ensures rest { IsAtRest (last_of root).state }
    ensures shows { Shows result.image (setting_of root.opening root.roll) (last_of root).state }
    // the blocks that it decodes to are the live ones
    ensures blocks { decode result.image ≡ live (last_of root).state }
    ensures readable { IsReadable result.image }
    ensures gate { slice_index result.image.words gate_at ≡ 0 }
    ensures locks { (what : What) → IsLayerLock what → slice_index result.image.words (lock_at what) ≡ 0 }
    ensures made { slice_index result.image.words made_word ≤ root.opening.limits.callers }
{
    let limits = heap.limits();
    let key = key_of(heap.seed());
    let Closed {
        words,
        vs,
        back,
        large,
        last,
    } = close_table(heap, root);
    let (State::Vs(vs), State::Back(back), State::Large(large)) = (vs, back, large) else {
        unreachable!()
    };
    let heads = vs.into_heads();
    let (region, descs) = back.into_parts();
    Receipt {
        image: Image {
            limits,
            region,
            descs,
            key,
            heads,
            large,
            words,
        },
        last,
    }
}

#[cfg(test)]
mod tests;
