//! A block of the front end that is to have another size where it is.
ghost use Rattle.std.specs.Prelude.{◌≡◌, ◌≤◌, ◌&&◌, nat_le, Some, true, false};
ghost use Rattle.heap_model.specs.declared.Call.TheVariants as calls;
ghost use Rattle.heap_model.specs.Buckets.{block_size as size_of_blocks};
ghost use Rattle.lfh_buckets.specs.Blocks.{IsBucket};
ghost use Rattle.address_calls.specs.Finds.{IsFront};
ghost use Rattle.stay_calls.specs.Stays.{IsTried};

use crate::hearing::hear;
use crate::tried::Tried;
use crate::words::zero_gained;
use address_calls::Found;
use call_parts::State;
use heap_gate::{Caller, Heap, rest};
use heap_model::{Flags, MOST_SMALL, ReNo};
use lfh_buckets::block_size;
use lfh_claims::{Tag, live_size, publish, take_live};

/// Whether a block of the subsegment keeps its address with `n` bytes.
fn keeps(tag: Tag, n: u64) -> bool
    requires { IsBucket tag.bucket }
    ensures { result ≡ (nat_le n 16368 && nat_le n (size_of_blocks tag.bucket)) }
{
    n <= MOST_SMALL && n <= u64::from(block_size(tag.bucket))
}

/// Takes the block, and gives it again with `n` bytes.
fn give_again(
    heap: &Heap<State>,
    c: &mut Caller<State>,
    tag: Tag,
    addr: u64,
    n: u64,
    flags: Flags,
) -> Result<Tried, ReNo>
    requires table { (c.old.table ≡ heap.now.table) × (c.old.opening ≡ heap.now.opening) }
    requires call { c.old.call ≡ Some (calls.Realloc addr n flags) }
    requires front { IsFront c.old addr tag }
    requires keeps { (n ≤ 16368) × (n ≤ size_of_blocks tag.bucket) }
    ensures { IsTried c.old c.new addr n flags result }
{
    c.check();
    let Some(size) = take_live(heap, c, tag, addr) else {
        return Err(ReNo::NotLive);
    };
    c.check();
    zero_gained(heap, c, addr, size, n, flags.zero);
    c.check();
    publish(heap, c, addr, n);
    c.check();
    rest(c);
    Ok(Tried::Stays)
}

/// Takes the block, which has to move.
fn take_to_move(
    heap: &Heap<State>,
    c: &mut Caller<State>,
    tag: Tag,
    addr: u64,
    n: u64,
    flags: Flags,
) -> Result<Tried, ReNo>
    requires table { (c.old.table ≡ heap.now.table) × (c.old.opening ≡ heap.now.opening) }
    requires call { c.old.call ≡ Some (calls.Realloc addr n flags) }
    requires front { IsFront c.old addr tag }
    requires may { flags.in_place ≡ false }
    requires leaves { (nat_le n 16368 && nat_le n (size_of_blocks tag.bucket)) ≡ false }
    ensures { IsTried c.old c.new addr n flags result }
{
    c.check();
    let Some(size) = take_live(heap, c, tag, addr) else {
        return Err(ReNo::NotLive);
    };
    c.check();
    let found = Found::Front(tag);
    Ok(Tried::Moves { found, size })
}

/// Tells the size of the block, which can't stay, and may not move.
fn refuse(
    heap: &Heap<State>,
    c: &mut Caller<State>,
    tag: Tag,
    addr: u64,
    n: u64,
    flags: Flags,
) -> Result<Tried, ReNo>
    requires table { (c.old.table ≡ heap.now.table) × (c.old.opening ≡ heap.now.opening) }
    requires call { c.old.call ≡ Some (calls.Realloc addr n flags) }
    requires front { IsFront c.old addr tag }
    requires stuck { flags.in_place ≡ true }
    requires leaves { (nat_le n 16368 && nat_le n (size_of_blocks tag.bucket)) ≡ false }
    ensures { IsTried c.old c.new addr n flags result }
{
    let _limits = heap.limits();
    let Some(_size) = live_size(heap, c, tag, addr) else {
        return Err(ReNo::NotLive);
    };
    c.check();
    hear(heap, c);
    c.check();
    Err(ReNo::NoRoomInPlace)
}

/// Gives the block of the front end that begins at an address `n` bytes, if it keeps its address so. No lock is taken. Whether it
/// can is decided by the tag of its page alone: the blocks of a subsegment have one length.
pub(crate) fn stay_front(
    heap: &Heap<State>,
    c: &mut Caller<State>,
    tag: Tag,
    addr: u64,
    n: u64,
    flags: Flags,
) -> Result<Tried, ReNo>
    requires table { (c.old.table ≡ heap.now.table) × (c.old.opening ≡ heap.now.opening) }
    requires call { c.old.call ≡ Some (calls.Realloc addr n flags) }
    requires front { IsFront c.old addr tag }
    ensures { IsTried c.old c.new addr n flags result }
{
    if keeps(tag, n) {
        give_again(heap, c, tag, addr, n, flags)
    } else if flags.in_place {
        refuse(heap, c, tag, addr, n, flags)
    } else {
        take_to_move(heap, c, tag, addr, n, flags)
    }
}
