//! The tree itself, over the slots of its nodes: how a pair is searched for and put in, and how the sides are kept level.
ghost use Rattle.std.specs.Prelude.{◌≡◌, ◌+◌};
ghost use Rattle.vs_free_tree.specs.Gaps.{is_before};
ghost use Rattle.vs_free_tree.specs.Slots.{height_at, linked, CanLink, CanJoin, IsJoined, IsLeftHigh, IsLowered, IsRightHigh, IsRaised, CanInsert, IsInserted, CanSearch, IsFound};

/// The number of no node.
pub(crate) const NONE: u32 = u32::MAX;

/// A node: a gap, its two sides, and the height of the tree that it is the root of. A free one has height 0, and names the
/// next free one as its left side.
#[derive(Clone, Copy)]
pub(crate) struct Slot {
    pub(crate) at: u32,
    pub(crate) left: u32,
    pub(crate) right: u32,
    pub(crate) units: u16,
    pub(crate) height: u8,
}

impl Slot {
    /// A node that holds no gap, and the next such.
    pub(crate) fn free(next: u32) -> Slot
        ensures { result ≡ record { at = 0; left = next; right = NONE; units = 0; height = 0 } }
    {
        Slot {
            at: 0,
            left: next,
            right: NONE,
            units: 0,
            height: 0,
        }
    }
}

/// The height of the tree under a node, 0 where there is none.
fn height(nodes: &[Slot], node: u32) -> u8
    ensures { result ≡ height_at nodes.now node }
{
    match nodes.get(node as usize) {
        Some(slot) => slot.height,
        None => 0,
    }
}

/// Makes two trees the sides of a node.
fn link(nodes: &mut [Slot], node: u32, left: u32, right: u32)
    requires { CanLink nodes.old node left right }
    ensures { nodes.new ≡ linked nodes.old node left right }
{
    let height = 1 + height(nodes, left).max(height(nodes, right));
    let slot = &mut nodes[node as usize];
    slot.left = left;
    slot.right = right;
    slot.height = height;
}

/// Makes one tree of a node and two trees, all pairs of the left before its own and all of the right behind it, whose heights
/// differ by at most 2, and answers its root.
pub(crate) fn join(nodes: &mut [Slot], node: u32, left: u32, right: u32) -> u32
    requires { CanJoin nodes.old node left right }
    ensures { IsJoined nodes.old nodes.new node left right result }
{
    let left_height = height(nodes, left);
    let right_height = height(nodes, right);
    if left_height > right_height + 1 {
        return lower_left(nodes, node, left, right);
    }
    if right_height > left_height + 1 {
        return lower_right(nodes, node, left, right);
    }
    link(nodes, node, left, right);
    node
}

/// The same, where the left tree is 2 higher: it is turned to the right.
fn lower_left(nodes: &mut [Slot], node: u32, left: u32, right: u32) -> u32
    requires { IsLeftHigh nodes.old node left right }
    ensures { IsLowered nodes.old nodes.new node left right result }
{
    let Slot {
        left: outer,
        right: inner,
        ..
    } = nodes[left as usize];
    if height(nodes, inner) <= height(nodes, outer) {
        link(nodes, node, inner, right);
        link(nodes, left, outer, node);
        return left;
    }
    let middle = nodes[inner as usize];
    link(nodes, left, outer, middle.left);
    link(nodes, node, middle.right, right);
    link(nodes, inner, left, node);
    inner
}

/// The same, where the right tree is 2 higher: it is turned to the left.
fn lower_right(nodes: &mut [Slot], node: u32, left: u32, right: u32) -> u32
    requires { IsRightHigh nodes.old node left right }
    ensures { IsRaised nodes.old nodes.new node left right result }
{
    let Slot {
        left: inner,
        right: outer,
        ..
    } = nodes[right as usize];
    if height(nodes, inner) <= height(nodes, outer) {
        link(nodes, node, left, inner);
        link(nodes, right, node, outer);
        return right;
    }
    let middle = nodes[inner as usize];
    link(nodes, right, middle.right, outer);
    link(nodes, node, left, middle.left);
    link(nodes, inner, node, right);
    inner
}

/// Puts a gap into a tree, as the node `fresh`, and answers the root.
pub(crate) fn insert(nodes: &mut [Slot], root: u32, gap: (u16, u32), fresh: u32) -> u32
    requires { CanInsert nodes.old root gap fresh }
    ensures { IsInserted nodes.old nodes.new root gap fresh result }
{
    if root == NONE {
        nodes[fresh as usize] = Slot {
            at: gap.1,
            left: NONE,
            right: NONE,
            units: gap.0,
            height: 1,
        };
        return fresh;
    }
    let slot = nodes[root as usize];
    if comes_before(gap, (slot.units, slot.at)) {
        let left = insert(nodes, slot.left, gap, fresh);
        return join(nodes, root, left, slot.right);
    }
    let right = insert(nodes, slot.right, gap, fresh);
    join(nodes, root, slot.left, right)
}

/// The least gap of a tree that has at least so many granules.
pub(crate) fn best(nodes: &[Slot], root: u32, units: u16) -> Option<(u16, u32)>
    requires { CanSearch nodes.now root }
    ensures { IsFound nodes.now root units result }
{
    if root == NONE {
        return None;
    }
    let slot = &nodes[root as usize];
    if slot.units < units {
        return best(nodes, slot.right, units);
    }
    match best(nodes, slot.left, units) {
        Some(gap) => Some(gap),
        None => Some((slot.units, slot.at)),
    }
}

/// Whether a gap comes before another: the smaller does, and the lower of equals.
pub(crate) fn comes_before(gap: (u16, u32), other: (u16, u32)) -> bool
    ensures { result ≡ is_before gap other }
{
    gap.0 < other.0 || gap.0 == other.0 && gap.1 < other.1
}
