//! The descriptors of pages, with what finds their free runs without a look at any span.
ghost use Rattle.std.specs.Prelude.{◌≡◌, ℕ, ◌+◌, ◌*◌, ◌<◌, ◌≤◌, ◌⊎◌, [], IfOk, length, replicate, slice_index, true, false};
ghost use Rattle.std.specs.List.{find, AllByRecursion};
ghost use Rattle.heap_model.specs.Limits.{AreValid};
ghost use Rattle.heap_model.specs.Marks.{free_mark};
ghost use Rattle.heap_model.specs.Runs.{fitting};
ghost use Rattle.page_ranges.specs.Words.{runs_of};
ghost use Rattle.page_ranges.specs.Ranges.{IsWhole, IsHeadered, IsMark, IsMarked, IsInSegment, is_open, has_page};
ghost use Rattle.page_ranges.specs.Spans.{frees_in};
ghost use Rattle.backend_fit.specs.Bits.{has};
ghost use Rattle.backend_fit.specs.Starts.{begins_free, is_free_from};

use crate::is_free;
use crate::page_bits::{clear, first_in, insert};
use heap_model::{HEADER_PAGES, Limits, Mark, OutOfMemory, Run, SEGMENT_PAGES};
use page_ranges::Descs;
use std::alloc::{AllocError, Global};
use std::marker::Model;

/// The most pages of a back end, by words of 64.
const WORDS: usize = 64;

/// The descriptors, and the pages at which their free runs begin. Contracts see the words.
#[derive(Drop)]
pub(crate) struct Ranges {
    descs: Descs,
    /// The first pages of the free runs.
    starts: Box<[u64; WORDS]>,
    /// No free run is longer.
    longest: u32,
}

impl Model for Ranges {
    ghost use Rattle.std.specs.Prelude.{ℕ, List};
    ghost use Rattle.backend_fit.specs.Starts.{AreStarts};

    ghost Value = { List ℕ };

    ghost view = { λ r. r.descs };

    ghost invariant = { λ r. AreStarts r.starts.value r.longest r.descs };
}

impl Ranges {
    /// The descriptors with no segment open. It takes all the memory that they will ever use.
    pub(crate) fn new(alloc: Global, limits: &Limits) -> Result<Ranges, OutOfMemory>
        requires { AreValid limits.now }
        ensures words { IfOk result (λ r. r ≡ replicate (256 * limits.now.segments) 0) }
    {
        let descs = Descs::new(alloc, limits)?;
        let starts = match Box::new(alloc, [0; WORDS]) {
            Ok(starts) => starts,
            Err(failed) => return Err(AllocError::from(failed).into()),
        };
        Ok(Ranges {
            descs,
            starts,
            longest: 0,
        })
    }

    pub(crate) fn descs(&self) -> &Descs
        ensures { result.now ≡ self.now }
    {
        &self.descs
    }

    pub(crate) fn into_descs(self) -> Descs
        ensures { result ≡ self }
    {
        let Ranges { descs, .. } = self;
        descs
    }

    /// How many pages there are, in open segments and others.
    pub(crate) fn pages(&self) -> u32
        ensures pages { result ≡ length self.now }
        ensures headered { IsHeadered self.now }
    {
        self.descs.pages()
    }

    /// The run that a page belongs to.
    pub(crate) fn run_at(&self, page: u32) -> Run
        requires whole { IsWhole self.now }
        requires inside { page < length self.now }
        ensures { find (has_page page) (runs_of self.now) ≡ Some result }
    {
        self.descs.run_at(page)
    }

    /// The first free run that begins at a page or behind it, where none begins behind a later page. It looks at no span.
    pub(crate) fn next_free(&self, from: u32, to: u32) -> Option<Run>
        requires whole { IsWhole self.now }
        requires inside { to ≤ length self.now }
        requires none { (page : ℕ) → to ≤ page → begins_free page (slice_index self.now page) ≡ false }
        ensures { result ≡ find (is_free_from from) (runs_of self.now) }
    {
        let _pages = self.descs.pages();
        let page = first_in(&*self.starts, from, to)?;
        Some(self.descs.run_at(page))
    }

    /// A number of pages that no free run exceeds.
    pub(crate) fn longest(&self) -> u32
        requires { IsWhole self.now }
        ensures { AllByRecursion (λ r. r.count ≤ result) (frees_in (runs_of self.now)) }
    {
        self.longest
    }

    /// Keeps in mind that no free run has `n` pages, so that `longest` tells it from now on.
    pub(crate) fn none_has(&mut self, n: u32)
        requires whole { IsWhole self.old }
        requires some { 0 < n }
        requires none { fitting n (frees_in (runs_of self.old)) ≡ [] }
        ensures { self.new ≡ self.old }
    {
        self.longest = self.longest.min(n - 1);
    }

    /// Opens a segment: makes the pages behind its header one free run.
    pub(crate) fn open_segment(&mut self, segment: u32)
        requires inside { 256 * segment + 256 ≤ length self.old }
        requires closed { is_open self.old segment ≡ false }
        ensures marked { IsMarked self.old self.new (record { first = 256 * segment + 2; pages = 254; mark = free_mark }) }
    {
        let _pages = self.descs.pages();
        self.descs.open_segment(segment);
        let pages = SEGMENT_PAGES - HEADER_PAGES;
        note(
            &mut *self.starts,
            SEGMENT_PAGES * segment + HEADER_PAGES,
            pages,
            true,
        );
        self.longest = self.longest.max(pages);
    }

    /// Writes the words of one run, and leaves those of all other pages. The pages lie behind the header of one open segment.
    pub(crate) fn mark(&mut self, first: u32, n: u32, mark: Mark)
        requires some { 0 < n }
        requires inside { IsInSegment self.old first n }
        requires mark { IsMark mark }
        ensures marked { IsMarked self.old self.new (record { first = first; pages = n; mark = mark }) }
        ensures same_open { (segment : ℕ) → is_open self.new segment ≡ is_open self.old segment }
    {
        let _pages = self.descs.pages();
        let free = is_free(mark.kind);
        self.descs.mark(first, n, mark);
        note(&mut *self.starts, first, n, free);
        if free {
            self.longest = self.longest.max(n);
        }
    }
}

/// Notes a run that was marked: its first page is a start where it is free, and no other page of it is.
fn note(starts: &mut [u64], first: u32, n: u32, free: bool)
    requires few { length starts.old ≤ 64 }
    requires some { 0 < n }
    requires inside { first + n ≤ 64 * length starts.old }
    ensures first { has starts.new first ≡ free }
    ensures rest { (page : ℕ) → first < page → page < first + n → has starts.new page ≡ false }
    ensures others { (page : ℕ) → (page < first) ⊎ (first + n ≤ page) → has starts.new page ≡ has starts.old page }
{
    clear(starts, first, first + n);
    if free {
        insert(starts, first);
    }
}
