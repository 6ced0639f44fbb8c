//! Blocks among the runs of the back end.
ghost use Rattle.std.specs.Prelude.{◌≡◌, ◌*◌, ◌+◌, ◌≤◌, ◌<◌};
ghost use Rattle.std.specs.List.{find};
ghost use Rattle.heap_model.specs.Geometry.{pages_of};
ghost use Rattle.heap_model.specs.State.{is_kind};
ghost use Rattle.heap_model.specs.declared.Kind.TheVariants as kinds;
ghost use Rattle.backend_fit.specs.Kept.{is_block_at, spans_of};
ghost use Rattle.paged_calls.specs.Blocks.{Carves, block_size};

use backend_fit::Back;
use heap_model::{Kind, Mark, PAGE_BYTES, Run};

/// Takes the pages of a block of `n` bytes where they fit best, and answers the first of them.
pub(crate) fn carve(back: &mut Back, n: u64) -> Option<u32>
    requires { (131073 ≤ n) × (n ≤ 520192) }
    ensures { Carves back.old back.new n result }
{
    let pages = pages_for(n);
    let mark = Mark::back((PAGE_BYTES as u32 * pages - n as u32) as u16);
    let first = back.take(pages, mark);
    let _region = back.region();
    first
}

/// The pages of a block of `n` bytes.
pub(crate) fn pages_for(n: u64) -> u32
    requires { (131073 ≤ n) × (n ≤ 520192) }
    ensures pages { result ≡ pages_of n }
    ensures some { (0 < result) × (result ≤ 127) }
    ensures unused { (n ≤ 4096 * result) × (4096 * result ≤ n + 4095) }
{
    n.div_ceil(PAGE_BYTES) as u32
}

/// The bytes of the block that a run is.
pub(crate) fn size_of(run: &Run) -> u64
    ensures { result ≡ block_size run.now }
{
    (PAGE_BYTES * u64::from(run.pages)).saturating_sub(u64::from(run.mark.unused))
}

/// The run of the block that begins at an address, found by its page in constant time.
pub(crate) fn block_at(back: &Back, addr: u64) -> Option<Run>
    ensures { result ≡ find (is_block_at addr) (spans_of back.now) }
{
    let pages = u64::from(back.descs().pages());
    let page = addr / PAGE_BYTES;
    if addr % PAGE_BYTES != 0 {
        return None;
    }
    if page >= pages {
        return None;
    }
    let Some(run) = back.run_at(page as u32) else {
        return None;
    };
    if run.first != page as u32 {
        return None;
    }
    if !is_back(&run) {
        return None;
    }
    Some(run)
}

fn is_back(run: &Run) -> bool
    ensures { result ≡ is_kind run.now.mark.kind kinds.Back }
{
    match run.mark.kind {
        Kind::Back => true,
        _ => false,
    }
}
