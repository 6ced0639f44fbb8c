//! The back end: spans of pages, each taken where it fits best.
//!
//! A free run is a maximal run of usable pages of one reserved segment that lie in no span; the first two of a segment's 256
//! pages are its header, and not usable. A request for n pages takes the front of the shortest free run of at least n pages,
//! of equal lengths the one with more committed pages, then the lowest. Where no run fits, the next segment is reserved and
//! opened, if there is one. Taking pages commits them, giving them back leaves them committed, and a span that goes back
//! joins the free runs on both sides. This is the published back end of the segment heap with its best fit over ranges of
//! pages.
//!
//! Everything is written over the number of segments, and a page is only a unit: nothing here rests on its bytes but the
//! condition of `resize` that the unused bytes are fewer than those of a page, and the places that a back end stands for.
#![tactic(auto)]

pub mod laws;
mod page_bits;
mod ranges;
mod search;

ghost use Rattle.std.specs.Prelude.{◌≡◌, ◌+◌, ◌*◌, ◌<◌, ◌≤◌, Option, option_map, None, Some, IfSome, IfNone, IfOk, IsSome, is_some, nat_le, count_by, true, false, length, [], if◌then◌else◌};
ghost use Rattle.std.specs.Bool.{OnTrue, OnFalse};
ghost use Rattle.std.specs.List.{find};
ghost use Rattle.heap_model.specs.declared.Kind.TheVariants as kinds;
ghost use Rattle.heap_model.specs.Limits.{AreValid};
ghost use Rattle.heap_model.specs.declared.Opening.{Opening};
ghost use Rattle.heap_model.specs.Layers.{StandsForBack};
ghost use Rattle.heap_model.specs.State.{change_found, remove_found, opening};
ghost use Rattle.heap_model.specs.Backend.{numbers, is_usable, back_place, next_segment};
ghost use Rattle.heap_model.specs.Search.{span_at};
ghost use Rattle.heap_model.specs.Legal.{with_span, with_area};
ghost use Rattle.page_ranges.specs.Words.{runs_of};
ghost use Rattle.page_ranges.specs.Ranges.{IsWhole, has_page};
ghost use Rattle.page_ranges.specs.Spans.{is_of_free};
ghost use Rattle.backend_fit.specs.Pages.{pages_area, taken_in};
ghost use Rattle.backend_fit.specs.Kept.{area_of, spans_of, layer_of, Becomes};
ghost use Rattle.backend_fit.specs.Effects.{part_with, part_without, part_resized, with_segment, marked_run, marked_span, insert_run, starts_at, with_mark, without_span, with_size, reach_of, is_idle, decommitted};
ghost use Rattle.heap_model.specs.Marks.{back_mark};
ghost use Rattle.backend_fit.specs.Sound.{AreSound, IsSound, IsFreeRun, IsSpan, IsSpanMark, start_of, end_of};

use heap_model::{HEADER_PAGES, Kind, Limits, Mark, OutOfMemory, Run, SEGMENT_PAGES, Stands};
use page_ranges::Descs;
use page_region::Region;
use ranges::Ranges;
use search::best_fit;
use std::alloc::Global;
use std::marker::Model;

/// A back end: its region and the descriptors of its pages, made for some limits.
///
/// Contracts see what it keeps by what this stands for. `area_of` are its reserved segments, its committed pages and its spans,
/// `spans_of` the runs of its spans by place, each with its mark and so with its unused bytes, and `layer_of` the part of a heap
/// that the lock of the back end guards. No call after `new` takes memory.
#[derive(Drop)]
pub struct Back {
    limits: Limits,
    region: Region,
    descs: Ranges,
}

impl Model for Back {
    ghost use Rattle.backend_fit.specs.Kept.{Kept};
    ghost use Rattle.backend_fit.specs.Sound.{IsSound};

    ghost Value = { Kept };

    ghost view = { λ b. record { limits = b.limits; region = b.region; words = b.descs } };

    ghost invariant = { λ b. IsSound (record { limits = b.limits; region = b.region; words = b.descs }) };
}

impl Stands for Back {
    ghost use Rattle.backend_fit.specs.Kept.{layer_of};

    ghost stands = { λ b. layer_of b };
}

impl Back {
    /// A back end with no segment reserved. It takes all the memory that it will ever use.
    pub fn new(alloc: Global, limits: &Limits) -> Result<Back, OutOfMemory>
        requires { AreValid limits.now }
        ensures area { IfOk result (λ b. area_of b ≡ opening.back.area) }
        ensures spans { IfOk result (λ b. spans_of b ≡ []) }
        ensures limits { IfOk result (λ b. b.limits ≡ limits.now) }
        ensures stands { IfOk result (λ b. (o : Opening) → o.limits ≡ limits.now → StandsForBack o opening (layer_of b)) }
    {
        let region = Region::new(alloc, limits)?;
        let descs = Ranges::new(alloc, limits)?;
        Ok(Back {
            limits: *limits,
            region,
            descs,
        })
    }

    /// The segments and the committed pages.
    pub fn region(&self) -> &Region
        ensures region { result.now ≡ self.now.region }
        ensures sound { IsSound self.now }
    {
        &self.region
    }

    /// The descriptors: the runs that they tell tile the usable pages of the reserved segments, no two free runs side by side.
    pub fn descs(&self) -> &Descs
        ensures words { result.now ≡ self.now.words }
        ensures sound { IsSound self.now }
    {
        self.descs.descs()
    }

    /// The region and the descriptors, unchanged.
    pub fn into_parts(self) -> (Region, Descs)
        ensures region { result.0 ≡ self.region }
        ensures descs { result.1 ≡ self.words }
        ensures sound { IsSound self }
    {
        let Back {
            limits: _,
            region,
            descs,
        } = self;
        (region, descs.into_descs())
    }

    /// The span or free run that a page belongs to; `None` where the page is beyond the segments, not reserved, or a header
    /// page.
    pub fn run_at(&self, page: u32) -> Option<Run>
        ensures { result ≡ (if is_usable (area_of self.now) page then find (has_page page) (runs_of self.now.words) else None) }
    {
        let behind_header = page % SEGMENT_PAGES >= HEADER_PAGES;
        if behind_header && page / SEGMENT_PAGES < self.region.reserved() {
            Some(self.descs.run_at(page))
        } else {
            None
        }
    }

    /// Whether a request for `n` pages has a place, one in a new segment included.
    pub fn fits(&self, n: u32) -> bool
        ensures { result ≡ is_some (back_place (area_of self.now) self.now.limits.segments n) }
    {
        best_fit(&self.region, &self.descs, n).is_some() || can_open(&self.region, n)
    }

    /// Takes `n` pages where they fit best, commits them, and answers the first of them. Where they have no place it answers
    /// `None`, and nothing changes. It looks at free runs alone, and at none of them where all are known to be shorter.
    pub fn take(&mut self, n: u32, mark: Mark) -> Option<u32>
        requires some { 0 < n }
        requires mark { IsSpanMark mark }
        ensures place { result ≡ back_place (area_of self.old) self.old.limits.segments n }
        ensures none { IfNone result (self.new ≡ self.old) }
        ensures area { IfSome result (λ first. area_of self.new ≡ with_span (with_segment (area_of self.old) first) (marked_span first n mark)) }
        ensures spans { IfSome result (λ first. spans_of self.new ≡ insert_run (marked_run first n mark) (spans_of self.old)) }
        ensures limits { self.new.limits ≡ self.old.limits }
        ensures stands { IfSome result (λ first. Becomes self.old self.new (λ b. part_with b (marked_run first n mark))) }
    {
        let run = find_room(&mut self.region, &mut self.descs, n)?;
        place(&mut self.region, &mut self.descs, run, n, mark);
        Some(run.first)
    }

    /// Gives back the span that starts at a page, and answers its number of pages. They stay committed.
    pub fn give(&mut self, first: u32) -> u32
        requires { IsSome (span_at (area_of self.old) first) }
        ensures pages { IfSome (span_at (area_of self.old) first) (λ x. result ≡ x.pages) }
        ensures area { area_of self.new ≡ without_span (area_of self.old) first }
        ensures spans { spans_of self.new ≡ remove_found (starts_at first) (spans_of self.old) }
        ensures limits { self.new.limits ≡ self.old.limits }
        ensures stands { Becomes self.old self.new (λ b. part_without b first) }
    {
        let run = self.descs.run_at(first);
        free_run(&self.region, &mut self.descs, run);
        run.pages
    }

    /// Makes a block of the back end `n` pages long where it stands, with so many unused bytes, and answers `true`, if the free
    /// run right behind it lets it be so long. All its pages are committed then. Else it answers `false`, and nothing changes.
    pub fn resize(&mut self, first: u32, n: u32, unused: u16) -> bool
        requires span { IsSome (span_at (area_of self.old) first) }
        requires kind { IfSome (span_at (area_of self.old) first) (λ x. x.kind ≡ kinds.Back) }
        requires some { 0 < n }
        requires unused { unused < 4096 }
        ensures fits { result ≡ nat_le n (reach_of (area_of self.old) (span_at (area_of self.old) first)) }
        ensures stays { OnFalse result (self.new ≡ self.old) }
        ensures area { OnTrue result (area_of self.new ≡ with_size (area_of self.old) first n) }
        ensures spans { OnTrue result (spans_of self.new ≡ change_found (starts_at first) (with_mark n (back_mark unused)) (spans_of self.old)) }
        ensures limits { self.new.limits ≡ self.old.limits }
        ensures stands { OnTrue result (Becomes self.old self.new (λ b. part_resized b first n unused)) }
    {
        let run = self.descs.run_at(first);
        let end = end_with_free(&self.descs, run.first + run.pages);
        if n > end - run.first {
            return false;
        }
        resize_run(&mut self.region, &mut self.descs, run, end, n, unused);
        true
    }

    /// Clears the marks of all free pages, and answers how many of them were committed.
    pub fn decommit_free(&mut self) -> u32
        ensures cleared { result ≡ count_by (is_idle (area_of self.old)) (numbers 0 (256 * (area_of self.old).reserved)) }
        ensures area { area_of self.new ≡ decommitted (area_of self.old) }
        ensures spans { spans_of self.new ≡ spans_of self.old }
        ensures limits { self.new.limits ≡ self.old.limits }
        ensures stands { Becomes self.old self.new (λ b. with_area b (decommitted b.area)) }
    {
        sweep(&mut self.region, &self.descs)
    }
}

/// Decommits each free run.
fn sweep(region: &mut Region, descs: &Ranges) -> u32
    requires { AreSound (record { region = region.old; words = descs.now }) }
    ensures cleared { result ≡ count_by (is_idle (pages_area (record { region = region.old; words = descs.now }))) (numbers 0 (256 * region.old.reserved)) }
    ensures area { pages_area (record { region = region.new; words = descs.now }) ≡ decommitted (pages_area (record { region = region.old; words = descs.now })) }
    ensures sound { AreSound (record { region = region.new; words = descs.now }) }
    ensures segments { region.new.segments ≡ region.old.segments }
{
    let end = SEGMENT_PAGES * region.reserved();
    let mut cleared = 0;
    let mut page = 0;
    while page < end {
        let run = descs.run_at(page);
        if is_free(run.mark.kind) {
            cleared += region.decommit(page, run.pages);
        }
        page += run.pages;
    }
    cleared
}

/// Makes a block n pages long; what is left up to a later page becomes free.
fn resize_run(region: &mut Region, descs: &mut Ranges, run: Run, end: u32, n: u32, unused: u16)
    requires sound { AreSound (record { region = region.old; words = descs.old }) }
    requires span { IsSpan descs.old run }
    requires kind { run.mark.kind ≡ kinds.Back }
    requires end { end ≡ end_of descs.old (run.first + run.pages) }
    requires some { 0 < n }
    requires within { run.first + n ≤ end }
    ensures area { pages_area (record { region = region.new; words = descs.new }) ≡ with_size (pages_area (record { region = region.old; words = descs.old })) run.first n }
    ensures marks { taken_in descs.new ≡ change_found (starts_at run.first) (with_mark n (back_mark unused)) (taken_in descs.old) }
    ensures sound { AreSound (record { region = region.new; words = descs.new }) }
    ensures segments { region.new.segments ≡ region.old.segments }
{
    descs.mark(run.first, n, Mark::back(unused));
    let rest = run.first + n;
    if rest < end {
        descs.mark(rest, end - rest, Mark::FREE);
    }
    region.commit(run.first, n);
}

/// Makes a span free, joined with the free runs beside it.
fn free_run(region: &Region, descs: &mut Ranges, run: Run)
    requires sound { AreSound (record { region = region.now; words = descs.old }) }
    requires span { IsSpan descs.old run }
    ensures area { pages_area (record { region = region.now; words = descs.new }) ≡ without_span (pages_area (record { region = region.now; words = descs.old })) run.first }
    ensures marks { taken_in descs.new ≡ remove_found (starts_at run.first) (taken_in descs.old) }
    ensures sound { AreSound (record { region = region.now; words = descs.new }) }
{
    let start = start_with_free(descs, run.first);
    let end = end_with_free(descs, run.first + run.pages);
    descs.mark(start, end - start, Mark::FREE);
}

/// Where the free run begins that ends before a page, or this page.
fn start_with_free(descs: &Ranges, page: u32) -> u32
    requires whole { IsWhole descs.now }
    requires some { 0 < page }
    requires inside { page < length descs.now }
    ensures { result ≡ start_of descs.now page }
{
    let before = descs.run_at(page - 1);
    if is_free(before.mark.kind) {
        before.first
    } else {
        page
    }
}

/// Where the free run ends that begins at a page, or this page.
fn end_with_free(descs: &Ranges, page: u32) -> u32
    requires whole { IsWhole descs.now }
    requires inside { page ≤ length descs.now }
    ensures { result ≡ end_of descs.now page }
{
    if page == descs.pages() {
        return page;
    }
    let after = descs.run_at(page);
    if is_free(after.mark.kind) {
        page + after.pages
    } else {
        page
    }
}

fn can_open(region: &Region, n: u32) -> bool
    ensures { result ≡ is_some (next_segment (pages_area (record { region = region.now; words = [] })) region.now.segments n) }
{
    n <= SEGMENT_PAGES - HEADER_PAGES && region.reserved() < region.segments()
}

/// A free run for n pages, in another segment where no run fits.
fn find_room(region: &mut Region, descs: &mut Ranges, n: u32) -> Option<Run>
    requires sound { AreSound (record { region = region.old; words = descs.old }) }
    requires some { 0 < n }
    ensures place { option_map (λ r. r.first) result ≡ back_place (pages_area (record { region = region.old; words = descs.old })) region.old.segments n }
    ensures none { IfNone result ((region.new ≡ region.old) × (descs.new ≡ descs.old)) }
    ensures area { IfSome result (λ r. pages_area (record { region = region.new; words = descs.new }) ≡ with_segment (pages_area (record { region = region.old; words = descs.old })) r.first) }
    ensures marks { taken_in descs.new ≡ taken_in descs.old }
    ensures sound { AreSound (record { region = region.new; words = descs.new }) }
    ensures free { IfSome result (λ r. IsFreeRun descs.new r.first r.pages × (n ≤ r.pages)) }
    ensures segments { region.new.segments ≡ region.old.segments }
{
    match best_fit(region, descs, n) {
        Some(run) => Some(run),
        None => {
            descs.none_has(n);
            open_next(region, descs, n)
        }
    }
}

/// The free run of the next segment, where it has n pages.
fn open_next(region: &mut Region, descs: &mut Ranges, n: u32) -> Option<Run>
    requires { AreSound (record { region = region.old; words = descs.old }) }
    ensures place { option_map (λ r. r.first) result ≡ next_segment (pages_area (record { region = region.old; words = descs.old })) region.old.segments n }
    ensures none { IfNone result ((region.new ≡ region.old) × (descs.new ≡ descs.old)) }
    ensures area { IfSome result (λ r. pages_area (record { region = region.new; words = descs.new }) ≡ with_segment (pages_area (record { region = region.old; words = descs.old })) r.first) }
    ensures marks { taken_in descs.new ≡ taken_in descs.old }
    ensures sound { AreSound (record { region = region.new; words = descs.new }) }
    ensures free { IfSome result (λ r. IsFreeRun descs.new r.first r.pages × (n ≤ r.pages)) }
    ensures segments { region.new.segments ≡ region.old.segments }
{
    if n > SEGMENT_PAGES - HEADER_PAGES {
        return None;
    }
    let segment = region.reserve_next()?;
    descs.open_segment(segment);
    Some(Run {
        first: SEGMENT_PAGES * segment + HEADER_PAGES,
        pages: SEGMENT_PAGES - HEADER_PAGES,
        mark: Mark::FREE,
    })
}

/// Makes the front of a free run a span of n pages, and commits them.
fn place(region: &mut Region, descs: &mut Ranges, run: Run, n: u32, mark: Mark)
    requires sound { AreSound (record { region = region.old; words = descs.old }) }
    requires free { IsFreeRun descs.old run.first run.pages }
    requires some { 0 < n }
    requires within { n ≤ run.pages }
    requires mark { IsSpanMark mark }
    ensures area { pages_area (record { region = region.new; words = descs.new }) ≡ with_span (pages_area (record { region = region.old; words = descs.old })) (marked_span run.first n mark) }
    ensures marks { taken_in descs.new ≡ insert_run (marked_run run.first n mark) (taken_in descs.old) }
    ensures sound { AreSound (record { region = region.new; words = descs.new }) }
    ensures segments { region.new.segments ≡ region.old.segments }
{
    descs.mark(run.first, n, mark);
    if n < run.pages {
        descs.mark(run.first + n, run.pages - n, Mark::FREE);
    }
    region.commit(run.first, n);
}

fn is_free(kind: Kind) -> bool
    ensures { result ≡ is_of_free kind }
{
    match kind {
        Kind::Free => true,
        Kind::Header | Kind::Vs | Kind::Lfh | Kind::Back => false,
    }
}

#[cfg(test)]
mod tests {
    use super::*;
    use std::vec::Vec;

    const BACK: Mark = Mark {
        kind: Kind::Back,
        bucket: 0,
        slot: 0,
        unused: 0,
    };

    const ONE: Limits = Limits {
        segments: 1,
        large_pages: 0,
        slots: 1,
        callers: 1,
    };

    const SIXTEEN: Limits = Limits {
        segments: 16,
        large_pages: 0,
        slots: 1,
        callers: 1,
    };

    /// Gives back the span that starts at a page, where one does.
    fn give_span(back: &mut Back, first: u32) -> Option<u32> {
        let run = back.run_at(first)?;
        match run.mark.kind {
            Kind::Back if run.first == first => Some(back.give(first)),
            _ => None,
        }
    }

    #[test]
    fn resizes_and_gives(rt: HostRuntime) {
        let mut back = Back::new(rt.alloc(), &ONE).expect(&rt, "memory");
        assert_eq!(rt; back.take(33, BACK), Some(2));
        assert_eq!(rt; back.take(33, BACK), Some(35));
        assert!(rt; !back.resize(2, 34, 0));
        assert_eq!(rt; back.give(35), 33);
        assert!(rt; back.resize(2, 127, 0));
        assert!(rt; back.fits(127));
        assert!(rt; !back.fits(128));
        assert!(rt; back.run_at(1).is_none());
        let free = Run {
            first: 129,
            pages: 127,
            mark: Mark::FREE,
        };
        assert!(rt; back.run_at(129) == Some(free));
    }

    #[test]
    fn prefers_committed(rt: HostRuntime) {
        let mut back = Back::new(rt.alloc(), &ONE).expect(&rt, "memory");
        assert_eq!(rt; back.take(33, BACK), Some(2));
        assert_eq!(rt; back.take(33, BACK), Some(35));
        assert_eq!(rt; back.take(33, BACK), Some(68));
        assert_eq!(rt; back.take(33, BACK), Some(101));
        assert_eq!(rt; back.give(2), 33);
        assert_eq!(rt; back.decommit_free(), 33);
        assert_eq!(rt; give_span(&mut back, 68), Some(33));
        assert_eq!(rt; back.take(33, BACK), Some(68));
        let (region, descs) = back.into_parts();
        assert!(rt; region.is_committed(68));
        assert!(rt; !region.is_committed(2));
        assert!(rt; descs.next_run(0).is_some());
    }

    /// Flags of all pages, each looked at by itself: a page is true in the first list where it may not be taken.
    #[derive(Drop)]
    struct Plain {
        used: Vec<bool>,
        committed: Vec<bool>,
        reserved: u32,
    }

    fn set(flags: &mut [bool], first: u32, n: u32, value: bool) {
        for page in 0..n {
            if let Some(flag) = flags.get_mut(first.wrapping_add(page) as usize) {
                *flag = value;
            }
        }
    }

    /// The shortest run of at least `n` flags that are false, of equals that with most committed pages, then the lowest.
    fn best_by_rule(used: &[bool], committed: &[bool], n: u32) -> Option<u32> {
        let mut best: Option<(u32, u32, u32)> = None;
        let mut pages: u32 = 0;
        let mut marks: u32 = 0;
        for page in 0..4097u32 {
            if used.get(page as usize) == Some(&false) {
                pages = pages.wrapping_add(1);
                if committed.get(page as usize) == Some(&true) {
                    marks = marks.wrapping_add(1);
                }
            } else {
                let is_best = match best {
                    Some((_, length, most)) => pages < length || (pages == length && marks > most),
                    None => true,
                };
                if pages > 0 && pages >= n && is_best {
                    best = Some((page.wrapping_sub(pages), pages, marks));
                }
                pages = 0;
                marks = 0;
            }
        }
        match best {
            Some((first, _, _)) => Some(first),
            None => None,
        }
    }

    fn take_by_rule(plain: &mut Plain, n: u32) -> Option<u32> {
        let first = match best_by_rule(&plain.used, &plain.committed, n) {
            Some(first) => first,
            None if n <= 254 && plain.reserved < 16 => {
                let first = plain.reserved.wrapping_mul(256).wrapping_add(2);
                plain.reserved = plain.reserved.wrapping_add(1);
                set(&mut plain.used, first, 254, false);
                first
            }
            None => return None,
        };
        set(&mut plain.used, first, n, true);
        set(&mut plain.committed, first, n, true);
        Some(first)
    }

    #[test]
    fn fills_sixteen_segments(rt: HostRuntime) {
        let mut back = Back::new(rt.alloc(), &SIXTEEN).expect(&rt, "memory");
        let mut plain = Plain {
            used: vec![in rt.alloc(); true; 4096].expect(&rt, "memory"),
            committed: vec![in rt.alloc(); false; 4096].expect(&rt, "memory"),
            reserved: 0,
        };
        for _ in 0..33 {
            assert_eq!(rt; back.take(127, BACK), take_by_rule(&mut plain, 127));
        }
        for k in 0..20u32 {
            let block = k * 11 % 32;
            let first = 256 * (block / 2) + 2 + 127 * (block % 2);
            assert_eq!(rt; give_span(&mut back, first), Some(127));
            set(&mut plain.used, first, 127, false);
        }
        for k in 1..9u32 {
            assert_eq!(rt; back.take(15 * k, BACK), take_by_rule(&mut plain, 15 * k));
        }
        back.decommit_free();
        for page in 0..4096u32 {
            if plain.used.get(page as usize) == Some(&false) {
                set(&mut plain.committed, page, 1, false);
            }
        }
        assert_eq!(rt; give_span(&mut back, 2818), None);
        for k in 1..30u32 {
            assert_eq!(rt; back.take(9 * k, BACK), take_by_rule(&mut plain, 9 * k));
        }
    }
}
