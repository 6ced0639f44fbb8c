ghost use Rattle.std.specs.Prelude.{◌≤◌};

use super::*;
use Step::*;
use std::alloc::{AllocError, Global};
use std::test::Fail;
use std::vec::Vec;

/// A call, and what it has to answer.
#[derive(Clone, Copy)]
enum Step {
    /// A block of so many bytes, and its address, `None` where no run holds it.
    Take(u64, Option<u64>),
    /// The address of a block.
    Give(u64),
    /// The address of a block, the bytes that it gets where it is, and whether it could.
    Resize(u64, u64, bool),
    /// An address, and the size of the block there.
    Find(u64, Option<u64>),
    /// An address, and the address and the size of the first block from there on.
    Next(u64, Option<(u64, u64)>),
}

/// Each does what its name says where it may.
fn take(large: &mut Large, n: u64) -> Option<u64> {
    if n >= 520_193 { large.take(n) } else { None }
}

fn give(large: &mut Large, addr: u64) -> bool {
    let Some(_size) = large.find(addr) else {
        return false;
    };
    large.give(addr);
    true
}

fn resize(large: &mut Large, addr: u64, n: u64) -> bool {
    let Some(_size) = large.find(addr) else {
        return false;
    };
    large.resize_in_place(addr, n)
}

fn next(large: &Large, from: u64) -> Option<(u64, u64)> {
    let block = large.next_block(from)?;
    if block.layer == Layer::Large {
        Some((block.addr, block.size))
    } else {
        None
    }
}

/// Whether the step is answered so. A block is taken exactly where it fits.
fn is_answered(large: &mut Large, step: Step) -> bool {
    match step {
        Take(n, addr) => large.fits(n) == addr.is_some() && take(large, n) == addr,
        Give(addr) => give(large, addr),
        Resize(addr, n, could) => resize(large, addr, n) == could,
        Find(addr, size) => large.find(addr) == size,
        Next(from, block) => next(large, from) == block,
    }
}

/// The first step that is answered otherwise, of a heap with so many large pages behind so many segments.
fn first_wrong(
    alloc: Global,
    segments: u32,
    large_pages: u32,
    steps: &[Step],
) -> Result<Option<usize>, OutOfMemory>
    requires some { 1 ≤ segments }
    requires segments { segments ≤ 16 }
    requires pages { large_pages ≤ 4096 }
{
    let limits = Limits {
        segments,
        large_pages,
        slots: 1,
        callers: 1,
    };
    let mut large = Large::new(alloc, &limits)?;
    for (i, step) in steps.iter().enumerate() {
        if !is_answered(&mut large, *step) {
            return Ok(Some(i));
        }
    }
    Ok(None)
}

#[test]
fn the_least_block_needs_128_pages(rt: HostRuntime) -> Result<(), Fail> {
    let steps = [
        Take(520_193, Some(1_048_576)),
        Find(1_048_576, Some(520_193)),
        Take(520_193, None),
    ];
    assert_eq!(rt; first_wrong(rt.alloc(), 1, 128, &steps)?, None);
    assert_eq!(rt;
        first_wrong(rt.alloc(), 1, 127, &[Take(520_193, None)])?,
        None
    );
    assert_eq!(rt;
        first_wrong(rt.alloc(), 16, 1024, &[Take(600_000, Some(16_777_216))])?,
        None
    );
    Ok(())
}

#[test]
fn sizes_near_the_largest_have_no_run(rt: HostRuntime) -> Result<(), Fail> {
    let steps = [
        Take(18_446_744_073_709_551_615, None),
        Take(18_446_744_073_709_547_521, None),
        Take(18_446_744_073_709_547_520, None),
        Take(16_777_217, None),
        Take(16_777_216, Some(1_048_576)),
        Resize(1_048_576, 18_446_744_073_709_551_615, false),
        Resize(1_048_576, 16_777_217, false),
    ];
    assert_eq!(rt; first_wrong(rt.alloc(), 1, 4096, &steps)?, None);
    Ok(())
}

/// A block of 600,000 bytes has 147 pages, all that there are; 100 bytes are none of this layer.
#[test]
fn a_block_of_147_pages(rt: HostRuntime) -> Result<(), Fail> {
    let steps = [
        Take(600_000, Some(1_048_576)),
        Resize(1_048_576, 100, false),
        Resize(1_048_576, 520_192, false),
        Resize(1_048_576, 602_113, false),
        Find(1_048_576, Some(600_000)),
        Resize(1_048_576, 602_112, true),
        Find(1_048_576, Some(602_112)),
        Give(1_048_576),
        Find(1_048_576, None),
        Next(0, None),
    ];
    assert_eq!(rt; first_wrong(rt.alloc(), 1, 147, &steps)?, None);
    Ok(())
}

/// Three blocks of 130 pages. The middle one can have the pages behind it once the last one is gone, and gives them back.
#[test]
fn the_pages_behind_a_block_are_its_room(rt: HostRuntime) -> Result<(), Fail> {
    let (a, b, c) = (1_048_576, 1_581_056, 2_113_536);
    let steps = [
        Take(532_480, Some(a)),
        Take(530_000, Some(b)),
        Take(532_480, Some(c)),
        Resize(b, 532_480, true),
        Resize(b, 532_481, false),
        Give(c),
        Resize(b, 1_064_961, false),
        Resize(b, 1_064_960, true),
        Take(520_193, None),
        Resize(b, 520_193, true),
        Take(540_672, Some(b + 524_288)),
        Next(a + 1, Some((b, 520_193))),
        Give(a),
        Take(532_481, None),
        Take(532_480, Some(a)),
        Find(a + 4096, None),
    ];
    assert_eq!(rt; first_wrong(rt.alloc(), 1, 390, &steps)?, None);
    Ok(())
}

/// The pages of an area, each looked at by itself, and the blocks in them by their first page and their pages.
#[derive(Drop)]
struct Plain {
    used: Vec<bool>,
    blocks: Vec<(u64, u64)>,
}

fn set(used: &mut [bool], first: u64, pages: u64, value: bool) {
    for page in 0..pages {
        if let Some(flag) = used.get_mut(first.wrapping_add(page) as usize) {
            *flag = value;
        }
    }
}

/// The first of so many pages in a row that are not used.
fn lowest_by_rule(used: &[bool], pages: u64) -> Option<u64> {
    let mut free: u64 = 0;
    for (page, is_used) in used.iter().enumerate() {
        free = if *is_used { 0 } else { free.wrapping_add(1) };
        if free == pages {
            return Some((page as u64).wrapping_add(1).wrapping_sub(pages));
        }
    }
    None
}

/// Takes a block in both, of so many pages less some bytes. Whether they agree.
fn both_take(
    large: &mut Large,
    plain: &mut Plain,
    pages: u64,
    less: u64,
) -> Result<bool, AllocError> {
    let first = lowest_by_rule(&plain.used, pages);
    if let Some(page) = first {
        set(&mut plain.used, page, pages, true);
        plain.blocks.push((page, pages))?;
    }
    let addr = take(large, pages.wrapping_mul(4096).wrapping_sub(less));
    Ok(addr == first.map(address_of))
}

/// The address of a page of an area behind two segments.
fn address_of(page: u64) -> u64 {
    page.wrapping_add(512).wrapping_mul(4096)
}

/// Gives back one of the blocks in both. Whether it was there.
fn both_give(large: &mut Large, plain: &mut Plain, number: usize) -> bool {
    if number >= plain.blocks.len() {
        return false;
    }
    let (page, pages) = plain.blocks.swap_remove(number);
    set(&mut plain.used, page, pages, false);
    give(large, address_of(page))
}

fn whole_area(alloc: Global) -> Result<(Large, Plain), OutOfMemory> {
    let limits = Limits {
        segments: 2,
        large_pages: 4096,
        slots: 1,
        callers: 1,
    };
    let plain = Plain {
        used: vec![in alloc; false; 4096]?,
        blocks: Vec::new(alloc),
    };
    Ok((Large::new(alloc, &limits)?, plain))
}

/// Blocks of the least size fill the table and the area at once, whatever order they go and come in.
#[test]
fn the_area_holds_32_blocks(rt: HostRuntime) -> Result<(), Fail> {
    let (mut large, mut plain) = whole_area(rt.alloc())?;
    for _ in 0..33 {
        assert!(rt; both_take(&mut large, &mut plain, 128, 4095)?);
    }
    assert_eq!(rt; plain.blocks.len(), 32);
    assert!(rt; !large.fits(520_193));
    for k in 0..32u64 {
        assert!(rt; both_give(&mut large, &mut plain, (k * 11 % 32) as usize));
        assert!(rt; large.fits(520_193));
        assert!(rt; both_take(&mut large, &mut plain, 128, k)?);
    }
    assert!(rt; !large.fits(520_193));
    Ok(())
}

/// Blocks of many sizes, gone and come in another order.
#[test]
fn the_lowest_run_is_taken(rt: HostRuntime) -> Result<(), Fail> {
    let (mut large, mut plain) = whole_area(rt.alloc())?;
    for k in 0..40u64 {
        assert!(rt;
            both_take(&mut large, &mut plain, 128 + k * 37 % 101, k)?,
            "at {k}"
        );
    }
    for k in 0..12u64 {
        assert!(rt;
            both_give(&mut large, &mut plain, (k * 7 % 11) as usize),
            "at {k}"
        );
    }
    for k in 0..60u64 {
        assert!(rt;
            both_take(&mut large, &mut plain, 128 + k * 53 % 397, k)?,
            "at {k}"
        );
        if k % 3 == 2 {
            assert!(rt;
                both_give(&mut large, &mut plain, (k % 5) as usize),
                "at {k}"
            );
        }
    }
    Ok(())
}
