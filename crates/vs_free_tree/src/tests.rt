use super::*;
use rand_core::Rng;
use rand_pcg::Pcg32;
use std::collections::BTreeSet;
use std::test::Fail;

/// Puts in a gap that is not there yet, where there is room.
fn put(index: &mut FreeIndex, units: u16, at: u32) -> bool {
    if index.spare() == 0 || index.remove(units, at) {
        return false;
    }
    index.add(units, at);
    true
}

/// Each call: four gaps go in, the best of them are asked for, and one comes out.
#[test]
fn the_smallest_gap_and_the_lowest(rt: HostRuntime) -> Result<(), Fail> {
    let mut index = FreeIndex::new(rt.alloc(), 4)?;
    assert_eq!(rt; index.root(), None);
    assert_eq!(rt; index.node(0), None);
    for (units, at) in [(5, 100), (3, 200), (5, 50), (9, 7)] {
        assert!(rt; put(&mut index, units, at), "{units} at {at}");
    }
    assert!(rt; !put(&mut index, 9, 9), "there is no room");
    assert_eq!(rt; index.spare(), 0);
    assert_eq!(rt; index.best(4), Some((5, 50)));
    assert_eq!(rt; index.best(10), None);
    assert!(rt; index.remove(5, 50));
    assert!(rt; !index.remove(5, 50));
    assert_eq!(rt; index.best(4), Some((5, 100)));
    assert_eq!(rt; index.spare(), 1);
    Ok(())
}

/// Three gaps in rising order: the root turns to the middle one.
#[test]
fn shows_its_tree(rt: HostRuntime) -> Result<(), Fail> {
    let mut index = FreeIndex::new(rt.alloc(), 3)?;
    for at in [10, 20, 30] {
        assert!(rt; put(&mut index, 4, at), "at {at}");
    }
    let root = index.root().and_then(|i| index.node(i));
    assert_eq!(rt;
        root.map(|node| (node.units, node.at, node.height)),
        Some((4, 20, 2))
    );
    let left = root.and_then(|node| node.left).and_then(|i| index.node(i));
    let right = root.and_then(|node| node.right).and_then(|i| index.node(i));
    for (side, at) in [(left, 10), (right, 30)] {
        assert_eq!(rt;
            side,
            Some(Node {
                units: 4,
                at,
                left: None,
                right: None,
                height: 1
            })
        );
    }
    Ok(())
}

/// The gaps of many draws go in and out, beside a set of std.
#[test]
fn agrees_with_a_set(rt: HostRuntime) -> Result<(), Fail> {
    let mut index = FreeIndex::new(rt.alloc(), 1024)?;
    let mut set: BTreeSet<(u16, u32)> = BTreeSet::new(rt.alloc());
    let mut draws = Pcg32::new(1, 1);
    for _ in 0..5000 {
        let draw = draws.next_u32();
        let (units, at) = ((2 + draw % 16) as u16, draw / 16 % 64);
        let was_there = index.remove(units, at);
        assert_eq!(rt; was_there, set.remove(&(units, at)), "{units} at {at}");
        if !was_there {
            assert!(rt; put(&mut index, units, at), "{units} at {at}");
            set.insert((units, at))?;
        }
        let least = (draw / 1024 % 20) as u16;
        assert_eq!(rt;
            index.best(least),
            set.range((least, 0)..).next().copied(),
            "for {least}"
        );
    }
    Ok(())
}

/// As many gaps as segments of the largest heap can have, each call on a few nodes.
#[test]
fn holds_all_gaps_of_the_largest_heap(rt: HostRuntime) -> Result<(), Fail> {
    let mut index = FreeIndex::new(rt.alloc(), 262_144)?;
    for i in (0..262_144u32).rev() {
        assert!(rt; put(&mut index, (1 + i / 8) as u16, i), "at {i}");
    }
    for i in 0..4_000_000u32 {
        let j = i % 32768;
        let units = (1 + j) as u16;
        assert_eq!(rt; index.best(units), Some((units, 8 * j)));
    }
    let mut before = Vec::with_capacity(rt.alloc(), 262_144)?;
    for i in 0..262_144u32 {
        before.push(index.node(i))?;
    }
    assert!(rt; index.remove(1, 0));
    let mut changed = 0u32;
    for i in 0..262_144u32 {
        if before.get(i as usize).copied() != Some(index.node(i)) {
            changed = changed.saturating_add(1);
        }
    }
    assert!(rt; changed <= 79, "{changed} nodes");
    assert_eq!(rt; index.best(1), Some((1, 1)));
    Ok(())
}
