ghost use Rattle.heap_now.specs.Callers.{IsFreeCaller};

use super::full::{ALL, Blocks, bit_of, claim, fill, note_if_new};
use super::threads::{TRIES, alloc_some, free_some};
use super::*;
use std::alloc::AllocError;
use std::sync::atomic::{AtomicU64, Ordering};
use std::thread::{self, Threads};

// One thread: it claims blocks of 16 bytes until it gets one that is not of the subsegment, and answers which it got, and how many of
// them twice.
fn claim_all(heap: &Heap, mut c: Caller) -> (Caller, Blocks, u32)
    requires { IsFreeCaller heap.now c }
    ensures { IsFreeCaller heap.now result.0 }
{
    let mut blocks = Blocks { bits: [0; 4] };
    let mut twice = 0u32;
    for _ in 0..253u32 {
        let Some(addr) = alloc_some(heap, &mut c, 16) else {
            break;
        };
        let Some((word, bit)) = bit_of(addr) else {
            break;
        };
        if !note_if_new(&mut blocks, word, bit) {
            twice = twice.saturating_add(1);
        }
    }
    (c, blocks, twice)
}

fn claim_in_two<R: Threads + Sync>(
    rt: &R,
    heap: &Heap,
    a: Caller,
    b: Caller,
) -> ((Caller, Blocks, u32), (Caller, Blocks, u32))
    requires { IsFreeCaller heap.now a × IsFreeCaller heap.now b }
    ensures { IsFreeCaller heap.now result.0.0 × IsFreeCaller heap.now result.1.0 }
{
    thread::join(
        rt,
        move || -> (Caller, Blocks, u32)
            requires { IsFreeCaller heap.now a }
            ensures { IsFreeCaller heap.entry.now result.0 }
        { claim_all(heap, a) },
        move || -> (Caller, Blocks, u32)
            requires { IsFreeCaller heap.now b }
            ensures { IsFreeCaller heap.entry.now result.0 }
        { claim_all(heap, b) },
    )
}

// No page is free, so that both go on in one subsegment until it is full: each of its blocks goes to one of them, once.
#[test]
fn two_threads_fill_a_subsegment(rt: HostRuntime) -> Result<(), Fail> {
    let (heap, _root, mut a, b) = two(rt.alloc(), 0, 1, 0, 1)?;
    let first = fill(&rt, &heap, &mut a).bits;
    let ((_a, mine, twice), (_b, other, again)) = claim_in_two(&rt, &heap, a, b);
    assert_eq!(rt; (twice, again), (0, 0));
    for i in 0..4 {
        assert_eq!(rt; first[i] & mine.bits[i], 0);
        assert_eq!(rt; (first[i] | mine.bits[i]) & other.bits[i], 0);
        assert_eq!(rt; first[i] | mine.bits[i] | other.bits[i], ALL[i]);
    }
    Ok(())
}

// Addresses that one thread hands to the other. A cell of 0 is empty.
#[derive(Drop)]
struct Mail {
    cells: Vec<AtomicU64>,
}

// 128 empty cells.
fn make_mail(alloc: Global) -> Result<Mail, AllocError> {
    let mut cells = Vec::with_capacity(alloc, 128)?;
    for _ in 0..128u32 {
        cells.push(AtomicU64::new(0))?;
    }
    Ok(Mail { cells })
}

// Waits until a cell is empty, and puts an address in.
fn post(mail: &Mail, turn: u32, addr: u64) -> bool {
    let Some(cell) = mail.cells.get((turn % 128) as usize) else {
        return false;
    };
    for _ in 0..TRIES {
        if cell.load(Ordering::SeqCst) == 0 {
            cell.store(addr, Ordering::SeqCst);
            return true;
        }
    }
    false
}

// Waits until a cell is full, and takes the address out.
fn fetch(mail: &Mail, turn: u32) -> Option<u64> {
    let cell = mail.cells.get((turn % 128) as usize)?;
    for _ in 0..TRIES {
        let addr = cell.swap(0, Ordering::SeqCst);
        if addr != 0 {
            return Some(addr);
        }
    }
    None
}

// One thread: it claims blocks, and hands each to the other.
fn claim_and_post(heap: &Heap, mut c: Caller, mail: &Mail, turns: u32) -> (Caller, u32)
    requires { IsFreeCaller heap.now c }
    ensures { IsFreeCaller heap.now result.0 }
{
    let mut claimed = 0u32;
    for turn in 0..turns {
        let Some(addr) = alloc_some(heap, &mut c, 16) else {
            break;
        };
        if !post(mail, turn, addr) {
            break;
        }
        claimed = claimed.saturating_add(1);
    }
    (c, claimed)
}

// The other: it frees them, each of which has to be live.
fn fetch_and_free(heap: &Heap, mut c: Caller, mail: &Mail, turns: u32) -> (Caller, u32)
    requires { IsFreeCaller heap.now c }
    ensures { IsFreeCaller heap.now result.0 }
{
    let mut freed = 0u32;
    for turn in 0..turns {
        let Some(addr) = fetch(mail, turn) else {
            break;
        };
        if !free_some(heap, &mut c, addr) {
            break;
        }
        freed = freed.saturating_add(1);
    }
    (c, freed)
}

fn hand_on_in_two<R: Threads + Sync>(
    rt: &R,
    heap: &Heap,
    mail: &Mail,
    a: Caller,
    b: Caller,
    turns: u32,
) -> ((Caller, u32), (Caller, u32))
    requires { IsFreeCaller heap.now a × IsFreeCaller heap.now b }
    ensures { IsFreeCaller heap.now result.0.0 × IsFreeCaller heap.now result.1.0 }
{
    thread::join(
        rt,
        move || -> (Caller, u32)
            requires { IsFreeCaller heap.now a }
            ensures { IsFreeCaller heap.entry.now result.0 }
        { claim_and_post(heap, a, mail, turns) },
        move || -> (Caller, u32)
            requires { IsFreeCaller heap.now b }
            ensures { IsFreeCaller heap.entry.now result.0 }
        { fetch_and_free(heap, b, mail, turns) },
    )
}

// Each block that one claims is freed by the other, and behind that all are free.
#[test]
fn one_thread_frees_what_the_other_claims(rt: HostRuntime) -> Result<(), Fail> {
    let (heap, _root, mut a, b) = two(rt.alloc(), 0, 1, 0, 1)?;
    let mut blocks = fill(&rt, &heap, &mut a);
    let turns = 20_000;
    let cells = make_mail(rt.alloc())?;
    let ((mut a, claimed), (_b, freed)) = hand_on_in_two(&rt, &heap, &cells, a, b, turns);
    assert_eq!(rt; (claimed, freed), (turns, turns));
    claim(&rt, &heap, &mut a, &mut blocks, 251);
    assert_eq!(rt; blocks.bits, ALL);
    Ok(())
}
