//! Allocation.
ghost use Rattle.std.specs.Prelude.{◌≡◌, ◌≤◌, []};
ghost use Rattle.heap_model.specs.declared.Call.TheVariants as calls;
ghost use Rattle.call_parts.specs.Calls.{IsServing};
ghost use Rattle.small_calls.specs.Late.{IsLate, BacksLate};
ghost use Rattle.heap_now.specs.Calls.{IsReady, EndsWith, ServesWith, MayTake, alloc_answer};

use crate::frame::{enter_call, leave_call};
use call_parts::State;
use fall_calls::place_small;
use heap_gate::{Caller, Heap};
use heap_model::{AllocNo, Call, Flags};
use paged_calls::{place_huge, place_paged};

/// Places a block of more than 131,072 bytes, and gives it: in the back end up to 520,192 bytes, else in the large area.
#[inline(never)]
fn place_big(
    heap: &Heap<State>,
    c: &mut Caller<State>,
    n: u64,
    flags: Flags,
) -> Result<u64, AllocNo>
    requires size { 131073 ≤ n }
    requires table { (c.old.table ≡ heap.now.table) × (c.old.opening ≡ heap.now.opening) }
    requires serving { IsServing c.old (calls.Alloc n flags) [] }
    ensures { ServesWith (MayTake n) c.old c.new (calls.Alloc n flags) (alloc_answer result) }
{
    if n <= 520_192 {
        place_paged(heap, c, n, flags.zero)
    } else {
        place_huge(heap, c, n, flags.zero)
    }
}

/// Places a block of at most 131,072 bytes, and gives it: in the front end or the variable-size layer.
fn place_little(
    heap: &Heap<State>,
    c: &mut Caller<State>,
    n: u64,
    flags: Flags,
) -> Result<u64, AllocNo>
    requires size { n ≤ 131072 }
    requires table { (c.old.table ≡ heap.now.table) × (c.old.opening ≡ heap.now.opening) }
    requires serving { IsServing c.old (calls.Alloc n flags) [] }
    ensures serves { ServesWith (MayTake n) c.old c.new (calls.Alloc n flags) (alloc_answer result) }
    ensures late { IsLate c.old c.new n }
    ensures backs { BacksLate c.old c.new n }
{
    place_small(heap, c, n, flags.zero)
}

/// Places a block, and gives it, behind entering.
fn place_any(
    heap: &Heap<State>,
    c: &mut Caller<State>,
    n: u64,
    flags: Flags,
) -> Result<u64, AllocNo>
    requires table { (c.old.table ≡ heap.now.table) × (c.old.opening ≡ heap.now.opening) }
    requires serving { IsServing c.old (calls.Alloc n flags) [] }
    ensures serves { ServesWith (MayTake n) c.old c.new (calls.Alloc n flags) (alloc_answer result) }
    ensures late { IsLate c.old c.new n }
    ensures backs { n ≤ 131072 → BacksLate c.old c.new n }
{
    if n <= 131_072 {
        place_little(heap, c, n, flags)
    } else {
        place_big(heap, c, n, flags)
    }
}

/// Allocates `n` bytes, and answers the address. The words are 0 where `flags.zero` asks that; `flags.in_place` has no meaning. The
/// block is the caller's until somebody frees it. NoFit comes only where at one step of the call no range fits `n` bytes: of a size
/// of the front end no block in a subsegment of the caller's slot and no pages for one more, and in the variable-size layer no gap and
/// no pages. It is Busy where another caller is in the way: nothing waits, and each lock is tried once. Where the caller has seen the
/// bucket of `n` active, another caller that holds a lock of a layer is in the way only once the search from the hint on is spent. The
/// back end's lock is in the way of a size of at most 131,072 bytes only then, or where the variable-size layer has no gap for it.
pub fn alloc_now(
    heap: &Heap<State>,
    c: &mut Caller<State>,
    n: u64,
    flags: Flags,
) -> Result<u64, AllocNo>
    requires table { (c.old.table ≡ heap.now.table) × (c.old.opening ≡ heap.now.opening) }
    requires ready { IsReady c.old }
    ensures ends { EndsWith (MayTake n) c.old c.new (calls.Alloc n flags) (alloc_answer result) }
    ensures late { IsLate c.old c.new n }
    ensures backs { n ≤ 131072 → BacksLate c.old c.new n }
{
    if let Err(busy) = enter_call(heap, c, Call::Alloc { n, flags }) {
        return Err(AllocNo::Busy(busy));
    }
    let placed = place_any(heap, c, n, flags);
    leave_call(heap, c);
    placed
}
