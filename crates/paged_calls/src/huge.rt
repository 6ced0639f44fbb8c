//! Blocks of the large area.
ghost use Rattle.std.specs.Prelude.{◌≡◌, ◌*◌, ◌/◌, ◌≤◌, IfOk, IfErr, IfSome, IfNone, Some, None, [], ◌∷◌, option_map};
ghost use Rattle.std.specs.List.{find};
ghost use Rattle.heap_model.specs.declared.Act.TheVariants.{GiveLock, NotLive, Sized, Take, Drop, NoFit};
ghost use Rattle.heap_model.specs.Geometry.{pages_of};
ghost use Rattle.large_blocks.specs.Table.{is_at};
ghost use Rattle.call_parts.specs.Entries.{HasEnded};
ghost use Rattle.heap_model.specs.declared.Call.TheVariants as calls;
ghost use Rattle.heap_model.specs.declared.Flags.{Flags as AFlags};
ghost use Rattle.call_parts.specs.Calls.{HoldsLarge};
ghost use Rattle.heap_model.specs.declared.What.TheVariants as whats;
ghost use Rattle.paged_calls.specs.Parts.{IsAllocating, Places, IsRefused, Shows, HasPlaced, HasLarge, Measures, Drops};

use call_parts::{State, give_large, give_large_denying, hand_over, prepare_all, take_large};
use heap_gate::{Caller, Heap, prepare, rest};
use heap_model::{Act, AllocNo, Layer, PAGE_BYTES, PAGE_GRANULES};
use large_blocks::Large;

/// The granules of the pages of a block of `n` bytes.
fn granules_for(n: u64) -> u64
    ensures { result ≡ 256 * pages_of n }
{
    u64::from(PAGE_GRANULES) * n.div_ceil(PAGE_BYTES)
}

/// Places a block under the lock of the large area, which is given back.
fn place_in(
    heap: &Heap<State>,
    c: &mut Caller<State>,
    mut large: Large,
    n: u64,
    zero: bool,
) -> Option<u64>
    requires size { 520193 ≤ n }
    requires table { (c.old.table ≡ heap.now.table) × (c.old.opening ≡ heap.now.opening) }
    requires holds { (flags : AFlags) × (flags.zero ≡ zero) × HoldsLarge c.old (calls.Alloc n flags) large }
    ensures placed { IfSome result (λ addr. HasPlaced c.old c.new addr n zero) }
    ensures refused { IfNone result (Shows c.old c.new (NoFit n ∷ [])) }
{
    c.check();
    let Some(addr) = large.take(n) else {
        prepare(c, Act::NoFit { size: n });
        give_large(heap, c, large);
        return None;
    };
    let _blocks = large.blocks();
    let granules = granules_for(n);
    let layer = Layer::Large;
    prepare(
        c,
        Act::Place {
            start: addr,
            granules,
            layer,
        },
    );
    hand_over(heap, c, addr, n, zero);
    give_large(heap, c, large);
    Some(addr)
}

/// Places a block of more than 520,192 bytes in the large area, and gives it; where `zero` is asked its words are 0. Its pages go
/// to the lowest run that has them.
pub fn place_huge(
    heap: &Heap<State>,
    c: &mut Caller<State>,
    n: u64,
    zero: bool,
) -> Result<u64, AllocNo>
    requires size { 520193 ≤ n }
    requires table { (c.old.table ≡ heap.now.table) × (c.old.opening ≡ heap.now.opening) }
    requires allocating { IsAllocating c.old n zero }
    ensures placed { IfOk result (λ addr. Places c.old c.new addr) }
    ensures refused { IfErr result (λ no. IsRefused whats.Large c.old c.new no) }
{
    let large = match take_large(heap, c) {
        Ok(large) => large,
        Err(busy) => return Err(AllocNo::Busy(busy)),
    };
    match place_in(heap, c, large, n, zero) {
        Some(addr) => Ok(addr),
        None => Err(AllocNo::NoFit),
    }
}

/// Says that no live block has an address, and gives the lock back.
fn deny(heap: &Heap<State>, c: &mut Caller<State>, large: Large, addr: u64)
    requires table { (c.old.table ≡ heap.now.table) × (c.old.opening ≡ heap.now.opening) }
    requires large { HasLarge c.old large }
    requires behind { 256 * c.old.opening.limits.segments ≤ addr / 4096 }
    requires none { option_map (λ b. b.size) (find (is_at addr) large.blocks) ≡ None }
    ensures { HasEnded c.old c.new (NotLive addr ∷ GiveLock whats.Large ∷ []) [] }
{
    c.check();
    let _blocks = large.blocks();
    give_large_denying(heap, c, large, addr);
}

/// Says the size of a block, and gives the lock back.
fn tell_size(heap: &Heap<State>, c: &mut Caller<State>, large: Large, addr: u64, size: u64)
    requires table { (c.old.table ≡ heap.now.table) × (c.old.opening ≡ heap.now.opening) }
    requires large { HasLarge c.old large }
    requires found { option_map (λ b. b.size) (find (is_at addr) large.blocks) ≡ Some size }
    ensures { HasEnded c.old c.new (Sized addr size ∷ GiveLock whats.Large ∷ []) [] }
{
    c.check();
    let _blocks = large.blocks();
    prepare(c, Act::Sized { addr, size });
    give_large(heap, c, large);
}

/// Takes a block and gives its place back, and then the lock.
fn drop_block(heap: &Heap<State>, c: &mut Caller<State>, mut large: Large, addr: u64, size: u64)
    requires table { (c.old.table ≡ heap.now.table) × (c.old.opening ≡ heap.now.opening) }
    requires large { HasLarge c.old large }
    requires found { option_map (λ b. b.size) (find (is_at addr) large.blocks) ≡ Some size }
    ensures { HasEnded c.old c.new (Take addr size ∷ Drop addr ∷ GiveLock whats.Large ∷ []) [] }
{
    c.check();
    let _blocks = large.blocks();
    large.give(addr);
    prepare_all(c, &[Act::Take { addr, size }, Act::Drop { addr }]);
    rest(c);
    give_large(heap, c, large);
}

/// The size of the block of the large area that begins at an address behind the segments, or `None` where no live block has it.
/// The lock is given back.
pub fn measure_huge(
    heap: &Heap<State>,
    c: &mut Caller<State>,
    large: Large,
    addr: u64,
) -> Option<u64>
    requires table { (c.old.table ≡ heap.now.table) × (c.old.opening ≡ heap.now.opening) }
    requires large { HasLarge c.old large }
    requires behind { 256 * c.old.opening.limits.segments ≤ addr / 4096 }
    ensures { Measures c.old c.new addr result }
{
    match large.find(addr) {
        Some(size) => {
            tell_size(heap, c, large, addr, size);
            Some(size)
        }
        None => {
            deny(heap, c, large, addr);
            None
        }
    }
}

/// Gives the place of the block of the large area that begins at an address behind the segments back, or answers `false` where no
/// live block has it. The lock is given back.
pub fn drop_huge(heap: &Heap<State>, c: &mut Caller<State>, large: Large, addr: u64) -> bool
    requires table { (c.old.table ≡ heap.now.table) × (c.old.opening ≡ heap.now.opening) }
    requires large { HasLarge c.old large }
    requires behind { 256 * c.old.opening.limits.segments ≤ addr / 4096 }
    ensures { Drops c.old c.new addr result }
{
    match large.find(addr) {
        Some(size) => {
            drop_block(heap, c, large, addr, size);
            true
        }
        None => {
            deny(heap, c, large, addr);
            false
        }
    }
}
