//! A block of the large area that is to have another size where it is.
ghost use Rattle.std.specs.Prelude.{◌≡◌, [], ◌∷◌, Some, None, false, option_map};
ghost use Rattle.std.specs.List.{find};
ghost use Rattle.heap_model.specs.declared.Act.TheVariants.{GiveLock, NotLive};
ghost use Rattle.heap_model.specs.declared.Call.TheVariants as calls;
ghost use Rattle.heap_model.specs.declared.What.TheVariants as whats;
ghost use Rattle.large_blocks.specs.Effects.{InEach, TellsStay};
ghost use Rattle.large_blocks.specs.Table.{is_at};
ghost use Rattle.call_parts.specs.Entries.{HasEnded};
ghost use Rattle.address_calls.specs.Finds.{IsOfLarge};
ghost use Rattle.stay_calls.specs.Stays.{IsTried};

use crate::tried::Tried;
use crate::words::{granules_for, zero_gained};
use address_calls::Found;
use call_parts::{State, give_large, give_large_denying};
use heap_gate::{Caller, Heap, prepare, rest};
use heap_model::{Act, Flags, ReNo};
use large_blocks::Large;

/// Says that no live block has an address, and gives the lock back.
fn deny(heap: &Heap<State>, c: &mut Caller<State>, large: Large, addr: u64)
    requires table { (c.old.table ≡ heap.now.table) × (c.old.opening ≡ heap.now.opening) }
    requires large { IsOfLarge c.old addr large }
    requires none { option_map (λ b. b.size) (find (is_at addr) large.blocks) ≡ None }
    ensures { HasEnded c.old c.new (NotLive addr ∷ GiveLock whats.Large ∷ []) [] }
{
    c.check();
    let _blocks = large.blocks();
    give_large_denying(heap, c, large, addr);
}

/// The block can't stay: it has to move, or where it may not is as it was, and the lock is given back.
fn leave(
    heap: &Heap<State>,
    c: &mut Caller<State>,
    large: Large,
    addr: u64,
    size: u64,
    n: u64,
    flags: Flags,
) -> Result<Tried, ReNo>
    requires table { c.old.table ≡ heap.now.table }
    requires call { c.old.call ≡ Some (calls.Realloc addr n flags) }
    requires large { IsOfLarge c.old addr large }
    requires found { option_map (λ b. b.size) (find (is_at addr) large.blocks) ≡ Some size }
    requires leaves { InEach large (λ o st. TellsStay o st addr n false) }
    ensures { IsTried c.old c.new addr n flags result }
{
    c.check();
    let _blocks = large.blocks();
    if !flags.in_place {
        let found = Found::Large(large);
        return Ok(Tried::Moves { found, size });
    }
    prepare(c, Act::Sized { addr, size });
    give_large(heap, c, large);
    Err(ReNo::NoRoomInPlace)
}

/// Makes the block, which has `size` bytes, `n` bytes long where it is, if it can be.
fn resize(
    heap: &Heap<State>,
    c: &mut Caller<State>,
    mut large: Large,
    addr: u64,
    size: u64,
    n: u64,
    flags: Flags,
) -> Result<Tried, ReNo>
    requires table { (c.old.table ≡ heap.now.table) × (c.old.opening ≡ heap.now.opening) }
    requires call { c.old.call ≡ Some (calls.Realloc addr n flags) }
    requires large { IsOfLarge c.old addr large }
    requires found { option_map (λ b. b.size) (find (is_at addr) large.blocks) ≡ Some size }
    ensures { IsTried c.old c.new addr n flags result }
{
    c.check();
    let _before = large.blocks();
    if !large.resize_in_place(addr, n) {
        return leave(heap, c, large, addr, size, n, flags);
    }
    let _blocks = large.blocks();
    zero_gained(heap, c, addr, size, n, flags.zero);
    c.check();
    let granules = granules_for(n);
    prepare(
        c,
        Act::Resize {
            addr,
            granules,
            size: n,
        },
    );
    rest(c);
    give_large(heap, c, large);
    Ok(Tried::Stays)
}

/// Gives the block of the large area that begins at an address `n` bytes, if it keeps its address so.
pub(crate) fn stay_large(
    heap: &Heap<State>,
    c: &mut Caller<State>,
    large: Large,
    addr: u64,
    n: u64,
    flags: Flags,
) -> Result<Tried, ReNo>
    requires table { (c.old.table ≡ heap.now.table) × (c.old.opening ≡ heap.now.opening) }
    requires call { c.old.call ≡ Some (calls.Realloc addr n flags) }
    requires large { IsOfLarge c.old addr large }
    ensures { IsTried c.old c.new addr n flags result }
{
    match large.find(addr) {
        Some(size) => resize(heap, c, large, addr, size, n, flags),
        None => {
            deny(heap, c, large, addr);
            Err(ReNo::NotLive)
        }
    }
}
