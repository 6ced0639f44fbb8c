ghost use Rattle.std.specs.Prelude.{◌^◌, ◌<◌};

use super::*;

/// The key of the heap whose seed is 42.
const KEY: u64 = 0x9e37_79b9_7f4a_7c3f;

/// A heap of one segment, with a span of 16 pages behind the header pages.
fn opened(alloc: Global) -> Result<Heads, OutOfMemory> {
    let limits = Limits {
        segments: 1,
        large_pages: 0,
        slots: 1,
        callers: 1,
    };
    let mut heads = Heads::new(alloc, &limits, KEY)?;
    heads.open_span(2, 16);
    Ok(heads)
}

/// Each does what its name says where it may, and answers whether it could.
fn could_set(heads: &mut Heads, addr: u64, unused: u8, busy: bool) -> bool {
    let Some(_head) = heads.chunk_at(addr) else {
        return false;
    };
    heads.set(addr, unused, busy);
    true
}

fn could_split(heads: &mut Heads, addr: u64, units: u16) -> bool {
    let Some(head) = heads.chunk_at(addr) else {
        return false;
    };
    if units < 2 || head.units < units || head.units - units < 2 {
        return false;
    }
    heads.split(addr, units);
    true
}

fn could_join_next(heads: &mut Heads, addr: u64) -> bool
    requires { addr < 2 ^ 32 }
{
    let Some(head) = heads.chunk_at(addr) else {
        return false;
    };
    let Some(_next) = heads.chunk_at(addr + 16 * u64::from(head.units)) else {
        return false;
    };
    heads.join_next(addr);
    true
}

fn could_join_prev(heads: &mut Heads, addr: u64) -> Option<u64> {
    let head = heads.chunk_at(addr)?;
    if head.prev == 0 {
        return None;
    }
    Some(heads.join_prev(addr))
}

fn could_close(heads: &mut Heads, first: u32) -> bool
    requires { first < 2 ^ 16 }
{
    let front = 4096 * u64::from(first) + 48;
    let Some(head) = heads.chunk_at(front) else {
        return false;
    };
    if head.busy || head.prev != 0 {
        return false;
    }
    if heads.chunk_at(front + 16 * u64::from(head.units)).is_some() {
        return false;
    }
    heads.close_span(first);
    true
}

fn chunk(units: u16, prev: u16, unused: u8, busy: bool) -> Option<Head> {
    Some(Head {
        units,
        prev,
        unused,
        busy,
    })
}

/// A place of 2 granules at the front of a span, then one of 4, and both are dropped.
#[test]
fn chunks_are_cut_and_joined(rt: HostRuntime) -> Result<(), OutOfMemory> {
    let mut heads = opened(rt.alloc())?;
    assert_eq!(rt; heads.chunk_at(8240), chunk(4093, 0, 0, false));
    assert_eq!(rt; heads.chunk_at(8241), None);
    assert_eq!(rt; heads.chunk_at(8256), None);
    assert!(rt; could_split(&mut heads, 8240, 2));
    assert!(rt; could_set(&mut heads, 8240, 0, true));
    assert!(rt; could_split(&mut heads, 8272, 4));
    assert!(rt; could_set(&mut heads, 8272, 7, true));
    assert_eq!(rt; heads.chunk_at(8240), chunk(2, 0, 0, true));
    assert_eq!(rt; heads.chunk_at(8272), chunk(4, 2, 7, true));
    assert_eq!(rt; heads.chunk_at(8336), chunk(4087, 4, 0, false));
    // The header word of a place of 2 granules at this address and key.
    assert_eq!(rt; heads.word(515), 0x9e37_78b9_7f4a_5c0d);
    assert_eq!(rt; heads.word(516), 0);
    assert!(rt; could_set(&mut heads, 8272, 0, false));
    assert!(rt; could_join_next(&mut heads, 8272));
    assert_eq!(rt; heads.chunk_at(8272), chunk(4091, 2, 0, false));
    assert_eq!(rt; heads.word(521), 0);
    assert!(rt; !could_close(&mut heads, 2));
    assert!(rt; could_set(&mut heads, 8240, 0, false));
    assert_eq!(rt; could_join_prev(&mut heads, 8272), Some(8240));
    assert_eq!(rt; heads.chunk_at(8240), chunk(4093, 0, 0, false));
    assert!(rt; could_close(&mut heads, 2));
    assert_eq!(rt; heads.chunk_at(8240), None);
    Ok(())
}
