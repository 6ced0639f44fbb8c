use crate::{buffer, drop_small, give_back, small_block};
use backend_fit::Back;
use heap_model::{Limits, Mark};
use vs_layer::Vs;

const ONE: Limits = Limits {
    segments: 1,
    large_pages: 0,
    slots: 1,
    callers: 1,
};

/// Two buffers of 34 and 33 pages with others between them: a third of 33 takes the second hole, which fits best.
#[test]
fn buffers_go_where_they_fit_best(rt: HostRuntime) {
    let mut back = Back::new(rt.alloc(), &ONE).expect(&rt, "memory");
    assert_eq!(rt; buffer(&mut back, 139264), Some(2));
    assert_eq!(rt; buffer(&mut back, 163840), Some(36));
    assert_eq!(rt; buffer(&mut back, 135168), Some(76));
    assert_eq!(rt; buffer(&mut back, 163840), Some(109));
    assert_eq!(rt; give_back(&mut back, 2), Some(34));
    assert_eq!(rt; give_back(&mut back, 2), None);
    assert_eq!(rt; give_back(&mut back, 37), None);
    assert_eq!(rt; give_back(&mut back, 76), Some(33));
    assert_eq!(rt; buffer(&mut back, 135000), Some(76));
    assert_eq!(rt; buffer(&mut back, 520192), None);
}

/// A subsegment of 16 pages serves small blocks, and is closed with its last one.
#[test]
fn small_blocks_share_a_subsegment(rt: HostRuntime) {
    let mut back = Back::new(rt.alloc(), &ONE).expect(&rt, "memory");
    let mut vs = Vs::new(rt.alloc(), &ONE, 1).expect(&rt, "memory");
    assert_eq!(rt; small_block(&mut vs, 1), None);
    assert_eq!(rt; back.take(Vs::span_pages(1), Mark::VS), Some(2));
    vs.add_span(2, 16);
    assert_eq!(rt; small_block(&mut vs, 1), Some(8256));
    assert_eq!(rt; small_block(&mut vs, 100), Some(8288));
    assert_eq!(rt; drop_small(&mut vs, 8256), Some(None));
    assert_eq!(rt; drop_small(&mut vs, 8256), None);
    assert!(rt; drop_small(&mut vs, 8288) == Some(Some((2, 16))));
    assert_eq!(rt; give_back(&mut back, 2), Some(16));
}
