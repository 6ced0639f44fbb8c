//! The search for the best fit, over the free runs.
ghost use Rattle.std.specs.Prelude.{◌≡◌, ◌+◌, ◌*◌, ◌≤◌, [], option_map, count_by, IfSome, if◌then◌else◌};
ghost use Rattle.heap_model.specs.Runs.{fitting, least};
ghost use Rattle.heap_model.specs.Backend.{numbers, free_runs, is_better};
ghost use Rattle.page_region.specs.Held.{committed_of};
ghost use Rattle.page_ranges.specs.Spans.{plain};
ghost use Rattle.backend_fit.specs.Pages.{pages_area};
ghost use Rattle.backend_fit.specs.Sound.{AreSound};
ghost use Rattle.backend_fit.specs.Best.{with_run, run_in, IsCounted, IsCandidate};

use crate::ranges::Ranges;
use heap_model::{Run, SEGMENT_PAGES};
use page_region::Region;

/// The best run so far, and how many of its pages are committed, once that was asked.
#[derive(Clone, Copy)]
pub(crate) struct Best {
    run: Run,
    committed: Option<u32>,
}

/// The free run that a request for n pages takes the front of.
pub(crate) fn best_fit(region: &Region, descs: &Ranges, n: u32) -> Option<Run>
    requires { AreSound (record { region = region.now; words = descs.now }) }
    ensures { let a = pages_area (record { region = region.now; words = descs.now }) in option_map plain result ≡ least (is_better a) (fitting n (free_runs a)) }
{
    if n > descs.longest() {
        return None;
    }
    let end = SEGMENT_PAGES * region.reserved();
    let mut best = None;
    let mut from = 0;
    while let Some(run) = descs.next_free(from, end) {
        best = better_of(region, best, run, n);
        from = run.first + 1;
    }
    match best {
        Some(best) => Some(best.run),
        None => None,
    }
}

fn better_of(region: &Region, best: Option<Best>, run: Run, n: u32) -> Option<Best>
    requires run { run.first + run.pages ≤ 256 * region.now.segments }
    requires best { IfSome best (IsCandidate region.now run.first) }
    ensures best { option_map run_in result ≡ with_run (is_better (pages_area (record { region = region.now; words = [] }))) n (option_map run_in best) run }
    ensures candidate { IfSome result (IsCandidate region.now (run.first + 1)) }
{
    if run.pages < n {
        return best;
    }
    match best {
        Some(best) => Some(better(region, best, run)),
        None => Some(Best {
            run,
            committed: None,
        }),
    }
}

/// The shorter comes first.
fn better(region: &Region, best: Best, run: Run) -> Best
    requires run { run.first + run.pages ≤ 256 * region.now.segments }
    requires best { IsCandidate region.now run.first best }
    ensures best { result.run ≡ (if is_better (pages_area (record { region = region.now; words = [] })) (plain run) (plain best.run) then run else best.run) }
    ensures candidate { IsCandidate region.now (run.first + 1) result }
{
    if run.pages < best.run.pages {
        Best {
            run,
            committed: None,
        }
    } else if best.run.pages < run.pages {
        best
    } else {
        more_committed(region, best, run)
    }
}

/// Of equal lengths the one with more committed pages, then the lower, which is the best so far.
fn more_committed(region: &Region, best: Best, run: Run) -> Best
    requires run { run.first + run.pages ≤ 256 * region.now.segments }
    requires best { IsCandidate region.now run.first best }
    requires equal { run.pages ≡ best.run.pages }
    ensures best { result.run ≡ (if is_better (pages_area (record { region = region.now; words = [] })) (plain run) (plain best.run) then run else best.run) }
    ensures candidate { IsCandidate region.now (run.first + 1) result }
{
    let most = committed_in(region, &best);
    // no run has more than all of its pages
    if most < run.pages {
        let committed = region.count_committed(run.first, run.pages);
        if most < committed {
            return Best {
                run,
                committed: Some(committed),
            };
        }
    }
    Best {
        run: best.run,
        committed: Some(most),
    }
}

/// How many pages of the best so far are committed. They are counted once.
fn committed_in(region: &Region, best: &Best) -> u32
    requires inside { best.now.run.first + best.now.run.pages ≤ 256 * region.now.segments }
    requires counted { IsCounted region.now best.now }
    ensures { result ≡ count_by (committed_of region.now) (numbers best.now.run.first best.now.run.pages) }
{
    match best.committed {
        Some(committed) => committed,
        None => region.count_committed(best.run.first, best.run.pages),
    }
}
