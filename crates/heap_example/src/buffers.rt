// Buffers of whole pages, from the back end.
ghost use Rattle.std.specs.Prelude.{◌≡◌, ◌≤◌, ◌*◌, ◌-◌, ◌==◌, ◌&&◌, Option, option_map, IfSome, IfNone, is_some};
ghost use Rattle.heap_model.specs.Geometry.{pages_of};
ghost use Rattle.heap_model.specs.Backend.{back_place};
ghost use Rattle.heap_model.specs.Legal.{with_span};
ghost use Rattle.heap_model.specs.Search.{span_at};
ghost use Rattle.page_ranges.specs.Spans.{is_of_span};
ghost use Rattle.backend_fit.specs.Kept.{area_of};
ghost use Rattle.backend_fit.specs.Effects.{with_segment, without_span, marked_span};
ghost use Rattle.heap_model.specs.Marks.{back_mark};

use backend_fit::Back;
use heap_model::{Kind, Mark, Run};

/// Takes the pages of a buffer where they fit best, and answers the first of them. Where they have no place it answers `None`, and
/// nothing changes.
pub fn buffer(back: &mut Back, bytes: u32) -> Option<u32>
    requires { (1 ≤ bytes) × (bytes ≤ 520192) }
    ensures place { result ≡ back_place (area_of back.old) back.old.limits.segments (pages_of bytes) }
    ensures area { IfSome result (λ first. area_of back.new ≡ with_span (with_segment (area_of back.old) first) (marked_span first (pages_of bytes) (back_mark (4096 * pages_of bytes - bytes)))) }
    ensures none { IfNone result (back.new ≡ back.old) }
{
    let pages = bytes.div_ceil(4096);
    back.take(pages, Mark::back((4096 * pages - bytes) as u16))
}

/// Gives back the buffer that begins at a page, and answers its number of pages; they stay committed. `None`, and nothing changes,
/// where none begins there.
pub fn give_back(back: &mut Back, page: u32) -> Option<u32>
    ensures pages { result ≡ option_map (λ x. x.pages) (span_at (area_of back.old) page) }
    ensures gone { IfSome result (λ _. area_of back.new ≡ without_span (area_of back.old) page) }
    ensures none { IfNone result (back.new ≡ back.old) }
{
    if begins_at(back, page) {
        Some(back.give(page))
    } else {
        None
    }
}

/// Whether a buffer begins at a page.
fn begins_at(back: &Back, page: u32) -> bool
    ensures { result ≡ is_some (span_at (area_of back.now) page) }
{
    // Its contract says that the descriptors are whole.
    let _descs = back.descs();
    match back.run_at(page) {
        Some(run) => is_span_from(&run, page),
        None => false,
    }
}

fn is_span_from(run: &Run, page: u32) -> bool
    ensures { result ≡ (run.now.first == page && is_of_span run.now.mark.kind) }
{
    match run.mark.kind {
        Kind::Vs | Kind::Lfh | Kind::Back => run.first == page,
        Kind::Header | Kind::Free => false,
    }
}
