// The index of the gaps, as the layer sees it: a set, whatever tree holds it.
ghost use Rattle.std.specs.Prelude.{◌≡◌, ◌<◌, false, IfOk, MatchOption};
ghost use Rattle.std.specs.FinSet as set;
ghost use Rattle.vs_free_tree.specs.Gaps.{empty_index, NoneFits, IsBest};

use heap_model::OutOfMemory;
use std::alloc::Global;
use std::marker::Model;
use vs_free_tree::FreeIndex;

/// The gaps of all spans.
#[derive(Drop)]
pub(crate) struct GapSet {
    index: FreeIndex,
}

impl Model for GapSet {
    ghost use Rattle.vs_free_tree.specs.Gaps.{GapIndex, gap_index_code};

    ghost Value = { GapIndex };

    ghost coded = { gap_index_code };

    ghost use Rattle.vs_free_tree.specs.Index.{index_of};

    ghost view = { λ gaps. index_of gaps.index };
}

impl GapSet {
    /// No gap, with room for so many.
    pub(crate) fn new(alloc: Global, capacity: u32) -> Result<GapSet, OutOfMemory>
        ensures { IfOk result (λ gaps. gaps ≡ empty_index capacity) }
    {
        let index = FreeIndex::new(alloc, capacity)?;
        Ok(GapSet { index })
    }

    /// Puts a gap into the set.
    pub(crate) fn add(&mut self, units: u16, at: u32)
        requires room { set.len self.old.gaps < self.old.capacity }
        requires absent { set.contains self.old.gaps (units, at) ≡ false }
        ensures { self.new ≡ record self.old { gaps = set.insert self.old.gaps (units, at) } }
    {
        self.index.add(units, at);
    }

    /// Takes a gap out of the set, and answers whether it was there.
    pub(crate) fn remove(&mut self, units: u16, at: u32) -> bool
        ensures found { result ≡ set.contains self.old.gaps (units, at) }
        ensures gaps { self.new ≡ record self.old { gaps = set.remove self.old.gaps (units, at) } }
        ensures unchanged { result ≡ false → self.new ≡ self.old }
    {
        self.index.remove(units, at)
    }

    /// The smallest gap of at least `units`, the lowest among equals.
    pub(crate) fn best(&self, units: u16) -> Option<(u16, u32)>
        ensures { MatchOption result (NoneFits units self.now.gaps) (IsBest units self.now.gaps) }
    {
        self.index.best(units)
    }
}
