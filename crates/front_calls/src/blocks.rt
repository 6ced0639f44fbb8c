//! A block of the front end that is found by its address, in a subsegment whose tag the caller has read since it entered.
ghost use Rattle.std.specs.Prelude.{◌≡◌, ◌*◌, ◌<◌, []};
ghost use Rattle.heap_model.specs.declared.Call.{Call as ACall};
ghost use Rattle.lfh_buckets.specs.Blocks.{IsBucket};
ghost use Rattle.block_steps.specs.Blocks.{MayAsk};
ghost use Rattle.heap_gate.specs.Token.{Always, now};
ghost use Rattle.call_parts.specs.Calls.{IsServing};
ghost use Rattle.front_calls.specs.Parts.{Measures, Drops};

use call_parts::State;
use heap_gate::{Caller, Heap, rest};
use lfh_claims::{Tag, clear, live_size, take_live};

/// The size of the live block that begins at an address, or `None` where no live block has it. The tag is that of the address's
/// page, which the caller has read since it entered.
pub fn measure_front(heap: &Heap<State>, c: &mut Caller<State>, tag: Tag, addr: u64) -> Option<u64>
    requires table { (c.old.table ≡ heap.now.table) × (c.old.opening ≡ heap.now.opening) }
    requires serving { (call : ACall) × IsServing c.old call [] }
    requires there { addr < 1048576 * c.old.opening.limits.segments }
    requires may { Always c.old (λ s. MayAsk (now s c.old) c.old.number tag.head tag.bucket tag.slot addr) }
    ensures { Measures c.old c.new addr result }
{
    live_size(heap, c, tag, addr)
}

/// Takes the live block that begins at an address and gives it back, or answers `false` where no live block has it. The tag is as
/// for [`measure_front`].
#[inline(always)]
pub fn drop_front(heap: &Heap<State>, c: &mut Caller<State>, tag: Tag, addr: u64) -> bool
    requires table { (c.old.table ≡ heap.now.table) × (c.old.opening ≡ heap.now.opening) }
    requires serving { (call : ACall) × IsServing c.old call [] }
    requires there { addr < 1048576 * c.old.opening.limits.segments }
    requires bucket { IsBucket tag.bucket }
    requires may { Always c.old (λ s. MayAsk (now s c.old) c.old.number tag.head tag.bucket tag.slot addr) }
    ensures { Drops c.old c.new addr result }
{
    c.check();
    let Some(_size) = take_live(heap, c, tag, addr) else {
        return false;
    };
    c.check();
    clear(heap, c, tag, addr);
    c.check();
    rest(c);
    true
}
