//! The index of the gaps of the variable-size layer: a set of gaps, ordered by size and then by address.
//!
//! A gap is a pair: how many granules of 16 bytes it has, its header included, and the number of its first granule,
//! counted through all segments. A request takes the smallest gap that holds it, and the lowest among equals, as the
//! published description of the segment heap has it for its tree of free chunks.
//!
//! The pairs stand in a height-balanced search tree, so that each call looks at no more nodes than a small multiple of its
//! height. A node is a slot of 16 bytes in one array, named by its number. The array is made when the index is, with room
//! for all its gaps, and no later call takes memory: the nodes that hold no gap are chained in it.
#![tactic(auto)]

mod removal;
#[cfg(test)]
mod tests;
mod tree;

ghost use Rattle.std.specs.Prelude.{◌≡◌, ◌+◌, ◌*◌, ◌<◌, false, IfOk, MatchOption};
ghost use Rattle.std.specs.FinSet as set;
ghost use Rattle.vs_free_tree.specs.Gaps.{NoneFits, IsBest};
ghost use Rattle.vs_free_tree.specs.Index.{empty_tree, node_at, root_height, IsTreeOfGaps, DifferInAtMost};
ghost use Rattle.vs_free_tree.specs.Kept.{number_seen};

use heap_model::OutOfMemory;
use removal::take_out;
use std::alloc::Global;
use std::marker::Model;
use tree::{NONE, Slot};

/// A set of gaps. A contract sees the set, how many gaps there is room for, and the tree by the answers of `root` and `node`.
#[derive(Drop)]
pub struct FreeIndex {
    nodes: Vec<Slot>,
    root: u32,
    /// The first node that holds no gap.
    free: u32,
    spare: u32,
}

/// A node of the tree: its gap, the numbers of the nodes below it on both sides, and the height of the tree under it, 1 where
/// it has no node below.
#[derive(Clone, Copy, PartialEq, Eq, Debug)]
pub struct Node {
    pub units: u16,
    pub at: u32,
    pub left: Option<u32>,
    pub right: Option<u32>,
    pub height: u8,
}

impl Model for FreeIndex {
    ghost use Rattle.vs_free_tree.specs.Index.{GapTree, gap_tree_code};

    ghost Value = { GapTree };

    ghost coded = { gap_tree_code };

    ghost use Rattle.std.specs.Vec.{vec_capacity};
    ghost use Rattle.vs_free_tree.specs.Kept.{seen_as, IsKept};

    ghost view = { λ index. seen_as index.nodes.items index.root (vec_capacity index.nodes) };

    ghost invariant = { λ index. IsKept index.nodes.items index.root index.free index.spare };
}

impl FreeIndex {
    /// An empty index with room for so many gaps. It takes all the memory that it will ever use.
    pub fn new(alloc: Global, capacity: u32) -> Result<FreeIndex, OutOfMemory>
        ensures { IfOk result (λ index. index ≡ empty_tree capacity index.reserved) }
    {
        let mut nodes = Vec::with_capacity(alloc, capacity as usize)?;
        let mut free = NONE;
        for number in 0..capacity {
            nodes.push(Slot::free(free)).unwrap();
            free = number;
        }
        Ok(FreeIndex {
            nodes,
            root: NONE,
            free,
            spare: capacity,
        })
    }

    /// How many more gaps there is room for.
    pub fn spare(&self) -> u32
        ensures { result + set.len self.now.gaps ≡ self.now.capacity }
    {
        self.spare
    }

    /// Puts a gap into the set.
    pub fn add(&mut self, units: u16, at: u32)
        requires room { set.len self.old.gaps < self.old.capacity }
        requires absent { set.contains self.old.gaps (units, at) ≡ false }
        ensures gaps { self.new ≡ record self.old { gaps = set.insert self.old.gaps (units, at); root = self.new.root; nodes = self.new.nodes } }
        ensures changed { DifferInAtMost (3 * root_height self.old + 4) self.old self.new }
    {
        let fresh = self.free;
        self.free = self.nodes[fresh as usize].left;
        self.spare -= 1;
        self.root = tree::insert(&mut self.nodes, self.root, (units, at), fresh);
    }

    /// Takes a gap out of the set, and answers whether it was there.
    pub fn remove(&mut self, units: u16, at: u32) -> bool
        ensures found { result ≡ set.contains self.old.gaps (units, at) }
        ensures gaps { self.new ≡ record self.old { gaps = set.remove self.old.gaps (units, at); root = self.new.root; nodes = self.new.nodes } }
        ensures unchanged { result ≡ false → self.new ≡ self.old }
        ensures changed { DifferInAtMost (3 * root_height self.old + 4) self.old self.new }
    {
        let Some(taken) = take_out(&mut self.nodes, self.root, (units, at)) else {
            return false;
        };
        self.nodes[taken.node as usize] = Slot::free(self.free);
        self.free = taken.node;
        self.root = taken.root;
        self.spare += 1;
        true
    }

    /// The smallest gap of at least `units`, the lowest among equals.
    pub fn best(&self, units: u16) -> Option<(u16, u32)>
        ensures { MatchOption result (NoneFits units self.now.gaps) (IsBest units self.now.gaps) }
    {
        tree::best(&self.nodes, self.root, units)
    }

    /// The number of the root, None where no gap is held.
    pub fn root(&self) -> Option<u32>
        ensures number { result ≡ self.now.root }
        ensures tree { IsTreeOfGaps self.now }
    {
        number_told(self.root)
    }

    /// The node of a number, None where it holds no gap.
    pub fn node(&self, i: u32) -> Option<Node>
        ensures node { result ≡ node_at self.now i }
        ensures tree { IsTreeOfGaps self.now }
    {
        let slot = self.nodes.get(i as usize)?;
        if slot.height == 0 {
            return None;
        }
        Some(Node {
            units: slot.units,
            at: slot.at,
            left: number_told(slot.left),
            right: number_told(slot.right),
            height: slot.height,
        })
    }
}

/// A number, None where it is that of no node.
fn number_told(number: u32) -> Option<u32>
    ensures { result ≡ number_seen number }
{
    if number == NONE { None } else { Some(number) }
}
