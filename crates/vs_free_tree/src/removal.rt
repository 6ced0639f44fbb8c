//! How a pair is taken out of the tree.
ghost use Rattle.vs_free_tree.specs.Slots.{CanTakeLeast, IsLeastTaken, CanMerge, IsMerged, CanTakeOut, IsTakenOut};

use crate::tree::{NONE, Slot, comes_before, join};

/// What is left of a tree from which a node was taken.
#[derive(Drop)]
pub(crate) struct Taken {
    pub(crate) root: u32,
    pub(crate) node: u32,
}

/// Takes the least node out of a tree that has one.
fn take_least(nodes: &mut [Slot], root: u32) -> Taken
    requires { CanTakeLeast nodes.old root }
    ensures { IsLeastTaken nodes.old nodes.new root result }
{
    let slot = nodes[root as usize];
    if slot.left == NONE {
        return Taken {
            root: slot.right,
            node: root,
        };
    }
    let rest = take_least(nodes, slot.left);
    Taken {
        root: join(nodes, root, rest.root, slot.right),
        node: rest.node,
    }
}

/// Makes one tree of two, all pairs of the left before those of the right, whose heights differ by at most 1.
fn merge(nodes: &mut [Slot], left: u32, right: u32) -> u32
    requires { CanMerge nodes.old left right }
    ensures { IsMerged nodes.old nodes.new left right result }
{
    if right == NONE {
        return left;
    }
    let rest = take_least(nodes, right);
    join(nodes, rest.node, left, rest.root)
}

/// Takes the node with this gap out of a tree. Where it has none, it stays as it is.
pub(crate) fn take_out(nodes: &mut [Slot], root: u32, gap: (u16, u32)) -> Option<Taken>
    requires { CanTakeOut nodes.old root }
    ensures { IsTakenOut nodes.old nodes.new root gap result }
{
    if root == NONE {
        return None;
    }
    let slot = nodes[root as usize];
    if comes_before(gap, (slot.units, slot.at)) {
        let rest = take_out(nodes, slot.left, gap)?;
        return Some(Taken {
            root: join(nodes, root, rest.root, slot.right),
            node: rest.node,
        });
    }
    if comes_before((slot.units, slot.at), gap) {
        let rest = take_out(nodes, slot.right, gap)?;
        return Some(Taken {
            root: join(nodes, root, slot.left, rest.root),
            node: rest.node,
        });
    }
    Some(Taken {
        root: merge(nodes, slot.left, slot.right),
        node: root,
    })
}
