//! The region of pages: which segments are reserved, and which pages are committed.
//!
//! A segment has 256 pages, and pages are numbered through all segments. Segments are reserved one after the other, from
//! 0 on, and stay so. A page's commitment is a mark that is kept here alone. A page is only a unit: nothing here rests on
//! its number of bytes.
#![tactic(auto)]

ghost use Rattle.std.specs.Prelude.{◌≡◌, ℕ, ◌+◌, ◌*◌, ◌<◌, ◌≤◌, false, true, replicate, count_by, MatchOption, IfOk, length};
ghost use Rattle.heap_model.specs.Limits.{AreValid};
ghost use Rattle.heap_model.specs.Backend.{numbers};
ghost use Rattle.heap_model.specs.Legal.{commit};
ghost use Rattle.page_region.specs.Held.{Held, mark_at, committed_of, decommit, IsHeld};

use heap_model::{Limits, OutOfMemory, SEGMENT_PAGES, filled};
use std::alloc::Global;
use std::marker::Model;

/// The reserved segments and the committed pages of a heap.
///
/// Contracts see the number of segments that there are, the number of those that are reserved, and by `committed_of` which
/// pages are committed.
#[derive(Drop)]
pub struct Region {
    segments: u32,
    reserved: u32,
    marks: Vec<bool>,
}

impl Model for Region {
    ghost use Rattle.std.specs.Prelude.{◌≡◌, length};
    ghost use Rattle.std.specs.Vec.{vec_capacity};
    ghost use Rattle.page_region.specs.Held.{Held, IsHeld};

    ghost Value = { Held };

    ghost view = { λ r. record { segments = r.segments; reserved = r.reserved; marks = r.marks.items } };

    ghost invariant = { λ r. IsHeld (record { segments = r.segments; reserved = r.reserved; marks = r.marks.items }) × (vec_capacity r.marks ≡ length r.marks.items) };
}

impl Region {
    /// A region with no segment reserved and no page committed. It takes all the memory that it will ever use.
    pub fn new(alloc: Global, limits: &Limits) -> Result<Region, OutOfMemory>
        requires { AreValid limits.now }
        ensures { IfOk result (λ r. r ≡ record { segments = limits.now.segments; reserved = 0; marks = replicate (256 * limits.now.segments) false }) }
    {
        let pages = SEGMENT_PAGES * limits.segments;
        let marks = filled(alloc, false, pages as usize)?;
        Ok(Region {
            segments: limits.segments,
            reserved: 0,
            marks,
        })
    }

    /// How many segments there are, reserved or not: at most 16.
    pub fn segments(&self) -> u32
        ensures segments { result ≡ self.now.segments }
        ensures held { IsHeld self.now }
    {
        self.segments
    }

    /// How many segments are reserved: those with a lower number.
    pub fn reserved(&self) -> u32
        ensures reserved { result ≡ self.now.reserved }
        ensures held { IsHeld self.now }
    {
        self.reserved
    }

    /// Reserves the next segment and answers its number, or answers `None` where every segment is reserved.
    pub fn reserve_next(&mut self) -> Option<u32>
        ensures next { MatchOption result (self.old.segments ≤ self.old.reserved) (λ s. (s < self.old.segments) × (s ≡ self.old.reserved)) }
        ensures new { MatchOption result (self.new ≡ self.old) (λ s. self.new ≡ record self.old { reserved = s + 1 }) }
    {
        if self.reserved == self.segments {
            return None;
        }
        let segment = self.reserved;
        self.reserved = segment + 1;
        Some(segment)
    }

    /// Marks `n` pages as committed, whether they were or not.
    pub fn commit(&mut self, first: u32, n: u32)
        requires { first + n ≤ 256 * self.old.reserved }
        ensures marks { committed_of self.new ≡ commit first n (committed_of self.old) }
        ensures reserved { self.new.reserved ≡ self.old.reserved }
        ensures segments { self.new.segments ≡ self.old.segments }
        ensures held { IsHeld self.new }
    {
        set_marks(&mut self.marks, first, n);
    }

    /// Clears the marks of `n` pages, and answers how many of them were set.
    pub fn decommit(&mut self, first: u32, n: u32) -> u32
        requires { first + n ≤ 256 * self.old.reserved }
        ensures marks { committed_of self.new ≡ decommit first n (committed_of self.old) }
        ensures cleared { result ≡ count_by (committed_of self.old) (numbers first n) }
        ensures reserved { self.new.reserved ≡ self.old.reserved }
        ensures segments { self.new.segments ≡ self.old.segments }
        ensures held { IsHeld self.new }
    {
        let cleared = count_marks(&self.marks, first, n);
        clear_marks(&mut self.marks, first, n);
        cleared
    }

    /// Whether a page is committed. One beyond the segments is not.
    pub fn is_committed(&self, page: u32) -> bool
        ensures { result ≡ committed_of self.now page }
    {
        (page as usize) < self.marks.len() && self.marks[page as usize]
    }

    /// How many of `n` pages are committed. It looks at each of them.
    pub fn count_committed(&self, first: u32, n: u32) -> u32
        requires { first + n ≤ 256 * self.now.segments }
        ensures { result ≡ count_by (committed_of self.now) (numbers first n) }
    {
        count_marks(&self.marks, first, n)
    }
}

fn set_marks(marks: &mut [bool], first: u32, n: u32)
    requires inside { first + n ≤ length marks.old }
    requires few { length marks.old ≤ 4096 }
    ensures { (page : ℕ) → mark_at marks.new page ≡ commit first n (mark_at marks.old) page }
{
    for page in first..first + n {
        marks[page as usize] = true;
    }
}

fn clear_marks(marks: &mut [bool], first: u32, n: u32)
    requires inside { first + n ≤ length marks.old }
    requires few { length marks.old ≤ 4096 }
    ensures { (page : ℕ) → mark_at marks.new page ≡ decommit first n (mark_at marks.old) page }
{
    for page in first..first + n {
        marks[page as usize] = false;
    }
}

fn count_marks(marks: &[bool], first: u32, n: u32) -> u32
    requires inside { first + n ≤ length marks.now }
    requires few { length marks.now ≤ 4096 }
    ensures { result ≡ count_by (mark_at marks.now) (numbers first n) }
{
    let mut count = 0;
    for page in first..first + n {
        if marks[page as usize] {
            count += 1;
        }
    }
    count
}

#[cfg(test)]
mod tests {
    use super::*;

    const TWO: Limits = Limits {
        segments: 2,
        large_pages: 0,
        slots: 1,
        callers: 1,
    };

    #[test]
    fn reserves_commits_and_decommits(rt: HostRuntime) {
        let mut region = Region::new(rt.alloc(), &TWO).expect(&rt, "memory");
        assert_eq!(rt; region.segments(), 2);
        assert_eq!(rt; region.reserve_next(), Some(0));
        assert_eq!(rt; region.reserve_next(), Some(1));
        assert_eq!(rt; region.reserve_next(), None);
        assert_eq!(rt; region.reserved(), 2);
        region.commit(258, 3);
        assert_eq!(rt; region.count_committed(256, 256), 3);
        assert_eq!(rt; region.decommit(259, 200), 2);
        assert_eq!(rt; region.decommit(259, 200), 0);
        assert!(rt; region.is_committed(258));
        assert!(rt; !region.is_committed(259));
    }
}
