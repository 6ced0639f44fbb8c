//! Words that a search reads, and blocks that it claims.
ghost use Rattle.std.specs.Prelude.{◌≡◌, ◌*◌, ◌<◌, true, false};
ghost use Rattle.block_steps.specs.Searches.{MaySee};
ghost use Rattle.step_parts.specs.Claims.{MayClaim};
ghost use Rattle.heap_gate.specs.Token.{Always, now};
ghost use Rattle.lfh_claims.specs.Search.{sought, own_slot, IsHintKnown, HasSeen, HasClaimed, HasLost};

use crate::steps::{claim_by, see_by};
use heap_gate::{Caller, Heap, Told};
use heap_model::{Stands, WORD_BITS};
use std::marker::Brand;
use table_words::bitmap_at;

/// Reads a word of the bitmap of a subsegment, in the search of the call. `head` is the first page of the subsegment, which the
/// caller has read since it entered. Each set bit is a block that somebody has.
pub fn see<T: Stands>(heap: &Heap<T>, c: &mut Caller<T>, head: u32, word: u32) -> u64
    requires table { (c.old.table ≡ heap.now.table) × (c.old.opening ≡ heap.now.opening) }
    requires whole { c.old.whole ≡ true }
    requires inside { c.old.inside ≡ true }
    requires there { (head < 256 * c.old.opening.limits.segments) × (word < 4) }
    requires may { Always c.old (λ s. MaySee s (now s c.old) c.old.number head (sought c.old) (own_slot c.old) word) }
    ensures { HasSeen c.old c.new head word result }
{
    let at = bitmap_at(&heap.limits(), head, word) as usize;
    let bits = see_by::<T, Brand, Brand>(
        &heap.table.shared,
        &mut c.place,
        &c.prepared,
        c.number,
        head,
        word,
        at,
    );
    c.prepared.clear();
    c.pending = false;
    bits
}

/// Claims the block that the search of the call has picked, by one fetch_or of its bit, and answers whether it was free. It was
/// not exactly where the word that was found had the bit.
pub fn claim<T: Stands>(heap: &Heap<T>, c: &mut Caller<T>, head: u32, index: u16) -> bool
    requires table { (c.old.table ≡ heap.now.table) × (c.old.opening ≡ heap.now.opening) }
    requires whole { c.old.whole ≡ true }
    requires inside { c.old.inside ≡ true }
    requires there { (head < 256 * c.old.opening.limits.segments) × (index < 256) }
    requires slot { own_slot c.old < 16 }
    requires may { Always c.old (λ s. MayClaim s (now s c.old) c.old.number head (sought c.old) (own_slot c.old) index) }
    requires hint { IsHintKnown c.old }
    ensures claimed { result ≡ true → HasClaimed c.old c.new head index }
    ensures lost { result ≡ false → HasLost c.old c.new head index }
{
    let number = u32::from(index);
    let at = bitmap_at(&heap.limits(), head, number / WORD_BITS) as usize;
    let bit = number % WORD_BITS;
    let bits = claim_by::<T, Brand, Brand>(
        &heap.table.shared,
        &mut c.place,
        &c.prepared,
        c.number,
        head,
        index,
        at,
        1u64 << bit,
    );
    c.prepared.clear();
    c.pending = false;
    let free = (bits >> bit) % 2 == 0;
    if free {
        c.free = Told::of(&false);
    }
    free
}
