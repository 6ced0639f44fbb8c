ghost use Rattle.std.specs.Prelude.{◌≡◌, ◌<◌, IfOk};
ghost use Rattle.vs_layer.specs.Effects.{nothing_kept};

use super::*;
use Step::*;
use vs_headers::Head;

/// A call, and what it has to answer.
#[derive(Clone, Copy)]
enum Step {
    /// A block of so many bytes, and its address, None where no gap holds it.
    Place(u64, Option<u64>),
    /// The address of a block, and the first page and the pages of the span that is closed, if one is.
    Drop(u64, Option<(u32, u32)>),
    /// The address of a block, the bytes that it gets where it is, and whether it could.
    Resize(u64, u64, bool),
    /// An address, and the size of the block there.
    Find(u64, Option<u64>),
}

/// Each does what its name says where it may.
fn place(vs: &mut Vs, n: u64) -> Option<u64> {
    if n <= 131_072 && vs.fit(n) {
        Some(vs.place(n))
    } else {
        None
    }
}

fn drop_block(vs: &mut Vs, addr: u64) -> Option<(u32, u32)> {
    let Some(_size) = vs.find(addr) else {
        return None;
    };
    vs.drop_block(addr)
}

fn resize(vs: &mut Vs, addr: u64, n: u64) -> bool {
    let Some(_size) = vs.find(addr) else {
        return false;
    };
    vs.resize_in_place(addr, n)
}

/// Whether the block at an address is there, and the last one of its span.
fn is_last(vs: &Vs, addr: u64) -> bool {
    let Some(_size) = vs.find(addr) else {
        return false;
    };
    vs.empties(addr)
}

/// Whether the step is answered so. A block is the last one of its span where its drop closes it.
fn is_answered(vs: &mut Vs, step: Step) -> bool {
    match step {
        Place(n, addr) => place(vs, n) == addr,
        Drop(addr, closed) => is_last(vs, addr) == closed.is_some()
            && drop_block(vs, addr) == closed,
        Resize(addr, n, could) => resize(vs, addr, n) == could,
        Find(addr, size) => vs.find(addr) == size,
    }
}

/// The first step that is answered otherwise.
fn first_wrong(vs: &mut Vs, steps: &[Step]) -> Option<usize> {
    for (i, step) in steps.iter().enumerate() {
        if !is_answered(vs, *step) {
            return Some(i);
        }
    }
    None
}

/// A heap of one segment.
fn empty(alloc: Global) -> Result<Vs, OutOfMemory>
    ensures { IfOk result (λ vs. vs ≡ nothing_kept (record { segments = 1; large_pages = 0; slots = 1; callers = 1 }) 42) }
{
    let limits = Limits {
        segments: 1,
        large_pages: 0,
        slots: 1,
        callers: 1,
    };
    Vs::new(alloc, &limits, 42)
}

/// .. with a span of 16 pages behind the header pages.
fn one_span(alloc: Global) -> Result<Vs, OutOfMemory> {
    let mut vs = empty(alloc)?;
    vs.add_span(2, 16);
    Ok(vs)
}

/// .. with one of 33 pages, and one of 16 behind it.
fn two_spans(alloc: Global) -> Result<Vs, OutOfMemory> {
    let mut vs = empty(alloc)?;
    vs.add_span(2, 33);
    vs.add_span(35, 16);
    Ok(vs)
}

#[test]
fn blocks_have_the_pages_that_they_need(rt: HostRuntime) {
    for (n, pages) in [(0, 16), (65_472, 16), (65_473, 17), (131_072, 33)] {
        assert_eq!(rt; Vs::span_pages(n), pages, "at {n}");
    }
}

#[test]
fn the_fourth_large_block_does_not_fit(rt: HostRuntime) -> Result<(), OutOfMemory> {
    let mut vs = one_span(rt.alloc())?;
    let steps = [
        Place(16384, Some(8256)),
        Place(16384, Some(24656)),
        Place(16384, Some(41056)),
        Place(16384, None),
    ];
    assert_eq!(rt; first_wrong(&mut vs, &steps), None);
    Ok(())
}

#[test]
fn a_size_of_0_has_an_address(rt: HostRuntime) -> Result<(), OutOfMemory> {
    let mut vs = one_span(rt.alloc())?;
    let steps = [
        Place(1, Some(8256)),
        Place(1, Some(8288)),
        Place(0, Some(8320)),
        Find(8320, Some(0)),
        Find(8321, None),
        Find(8304, None),
        Place(16368, Some(8352)),
        Place(16369, Some(24736)),
        Find(24736, Some(16369)),
        Place(131072, None),
    ];
    assert_eq!(rt; first_wrong(&mut vs, &steps), None);
    Ok(())
}

/// The gap of 3 granules goes to a block that needs 2.
#[test]
fn one_granule_is_never_left_alone(rt: HostRuntime) -> Result<(), OutOfMemory> {
    let mut vs = one_span(rt.alloc())?;
    let steps = [
        Place(32, Some(8256)),
        Place(16, Some(8304)),
        Drop(8256, None),
        Place(16, Some(8256)),
        Place(16, Some(8336)),
        Resize(8256, 32, true),
        Find(8256, Some(32)),
        Resize(8256, 33, false),
        Find(8256, Some(32)),
    ];
    assert_eq!(rt; first_wrong(&mut vs, &steps), None);
    Ok(())
}

/// It is no shorter for a granule less.
#[test]
fn a_block_grows_into_the_gap_behind_it(rt: HostRuntime) -> Result<(), OutOfMemory> {
    let mut vs = one_span(rt.alloc())?;
    let steps = [
        Place(32, Some(8256)),
        Place(16, Some(8304)),
        Resize(8256, 33, false),
        Resize(8304, 17, true),
        Resize(8304, 16, true),
        Place(16, Some(8336)),
        Drop(8336, None),
        Resize(8256, 16, true),
        Resize(8256, 32, true),
        Resize(8304, 65536, false),
        Resize(8304, 131_073, false),
        Drop(8304, None),
        Resize(8256, 65_456, true),
        Place(0, None),
        Resize(8256, 0, true),
        Drop(8256, Some((2, 16))),
        Place(0, None),
    ];
    assert_eq!(rt; first_wrong(&mut vs, &steps), None);
    Ok(())
}

#[test]
fn gaps_on_both_sides_become_one(rt: HostRuntime) -> Result<(), OutOfMemory> {
    let mut vs = one_span(rt.alloc())?;
    let steps = [
        Place(16, Some(8256)),
        Place(32, Some(8288)),
        Place(48, Some(8336)),
        Place(16, Some(8400)),
        Drop(8256, None),
        Drop(8336, None),
        Drop(8288, None),
        Place(144, Some(8432)),
        Place(128, Some(8256)),
        Drop(8432, None),
        Drop(8256, None),
        Drop(8400, Some((2, 16))),
    ];
    assert_eq!(rt; first_wrong(&mut vs, &steps), None);
    Ok(())
}

#[test]
fn the_smallest_gap_is_taken_and_the_lower_of_two(rt: HostRuntime) -> Result<(), OutOfMemory> {
    let mut vs = one_span(rt.alloc())?;
    let steps = [
        Place(32, Some(8256)),
        Place(16, Some(8304)),
        Place(16, Some(8336)),
        Place(16, Some(8368)),
        Place(16, Some(8400)),
        Drop(8256, None),
        Drop(8304, None),
        Drop(8368, None),
        Place(16, Some(8368)),
        Drop(8336, None),
        Place(32, Some(8256)),
    ];
    assert_eq!(rt; first_wrong(&mut vs, &steps), None);
    Ok(())
}

#[test]
fn the_smaller_span_is_taken(rt: HostRuntime) -> Result<(), OutOfMemory> {
    let mut vs = two_spans(rt.alloc())?;
    let steps = [
        Place(1, Some(143_424)),
        Place(131_072, Some(8256)),
        Place(131_072, None),
        Drop(143_424, Some((35, 16))),
        Place(4016, Some(139_344)),
        Place(1, None),
        Drop(8256, None),
        Drop(139_344, Some((2, 33))),
    ];
    assert_eq!(rt; first_wrong(&mut vs, &steps), None);
    Ok(())
}

/// Places the smallest blocks until none fits, and answers how many.
fn filled(vs: &mut Vs) -> u64 {
    for i in 0..2046 {
        if place(vs, 1) != Some(8256 + 32 * i) {
            return i;
        }
    }
    2046
}

/// Drops the blocks in steps of so many, and answers how many were dropped before the span was closed.
fn emptied(vs: &mut Vs, step: u64) -> u64
    requires { step < 2046 }
{
    for i in 0..2046 {
        let addr = 8256 + 32 * (i * step % 2046);
        if drop_block(vs, addr).is_some() {
            return i;
        }
    }
    2046
}

#[test]
fn spans_are_filled_and_emptied(rt: HostRuntime) -> Result<(), OutOfMemory> {
    let mut vs = one_span(rt.alloc())?;
    assert!(rt; !vs.due(1));
    assert_eq!(rt; filled(&mut vs), 2046);
    assert!(rt; !vs.fit(0));
    assert!(rt; vs.due(1));
    assert_eq!(rt; emptied(&mut vs, 5), 2045);
    // So many were placed here.
    assert!(rt; vs.due(1));
    for step in [1, 2045] {
        let mut vs = one_span(rt.alloc())?;
        assert_eq!(rt; filled(&mut vs), 2046);
        assert_eq!(rt; emptied(&mut vs, step), 2045);
    }
    Ok(())
}

#[test]
fn buckets_become_due(rt: HostRuntime) -> Result<(), OutOfMemory> {
    let mut vs = one_span(rt.alloc())?;
    for i in 0..16 {
        assert_eq!(rt; place(&mut vs, 100), Some(8256 + 128 * i));
    }
    assert!(rt; !vs.due(7));
    assert_eq!(rt; place(&mut vs, 112), Some(10304));
    assert!(rt; vs.due(7));
    assert!(rt; !vs.due(8));
    assert!(rt; resize(&mut vs, 10304, 113));
    assert!(rt; !vs.due(7));
    assert!(rt; !vs.is_active(7));
    vs.set_active(7);
    assert!(rt; vs.is_active(7));
    assert!(rt; !vs.is_active(8));
    let head = vs.into_heads().chunk_at(10288);
    assert_eq!(rt;
        head,
        Some(Head {
            units: 9,
            prev: 8,
            unused: 15,
            busy: true
        })
    );
    Ok(())
}
