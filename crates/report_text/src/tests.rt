// A report that was worked out by hand.
mod many;

ghost use Rattle.std.specs.Prelude.{◌≡◌, ℕ, ◌+◌, ◌*◌, ◌<◌, ◌≤◌, IfOk, IsTrue, List, slice_index};
ghost use Rattle.claim_rule.specs.Places.{sizes_region, data_region};
ghost use Rattle.table_words.specs.Told.{AreWords};
ghost use Rattle.vs_headers.specs.declared.Head.{Head};
ghost use Rattle.vs_split.specs.Laws.{IsRow};
ghost use Rattle.layout_decode.specs.Decode.{AreTold, IsReadable};

use crate::{Answers, report};
use heap_model::{Kind, Limits, Mark, OutOfMemory, Reply, Words};
use large_blocks::Large;
use layout_decode::Image;
use page_ranges::Descs;
use page_region::Region;
use script_text::read_script;
use std::alloc::Global;
use std::process::Abort;
use std::test::Fail;
use table_words::{bitmap_at, size_at, words_of};
use vs_split::Heads;

/// The key of the heap whose seed is 42.
const KEY: u64 = 0x9e37_79b9_7f4a_7c3f;

const ONE_SEGMENT: Limits = Limits {
    segments: 1,
    large_pages: 300,
    slots: 1,
    callers: 1,
};

/// The mark of a block of 131,073 bytes in 33 pages.
const BLOCK: Mark = Mark {
    kind: Kind::Back,
    bucket: 0,
    slot: 0,
    unused: 4095,
};

/// The mark of a subsegment of 126 blocks of 32 bytes.
const SUBSEGMENT: Mark = Mark {
    kind: Kind::Lfh,
    bucket: 2,
    slot: 0,
    unused: 0,
};

/// One segment, with chunks on 16 pages behind its header, and a block on the 33 pages behind those. The chunks are a place
/// of 2 granules, a gap of 3, a place of 5, and a gap.
fn three_blocks<R: Abort>(rt: &R, alloc: Global) -> Result<Image, OutOfMemory>
    ensures readable { IfOk result (λ image. IsReadable image) }
{
    let region = one_committed(alloc)?;
    let mut heads = Heads::new(alloc, &ONE_SEGMENT, KEY)?;
    heads.open_span(2, 16);
    let mut descs = Descs::new(alloc, &ONE_SEGMENT)?;
    descs.open_segment(0);
    descs.mark(2, 16, Mark::VS);
    descs.mark(18, 33, BLOCK);
    descs.mark(51, 205, Mark::FREE);
    let large = Large::new(alloc, &ONE_SEGMENT)?;
    let words = empty_words(alloc)?;
    let mut image = Image {
        limits: ONE_SEGMENT,
        region,
        descs,
        key: KEY,
        heads,
        large,
        words,
    };
    assert!(rt; could_cut(&mut image, 8240, 2, 0, true));
    assert!(rt; could_cut(&mut image, 8272, 3, 0, false));
    assert!(rt; could_cut(&mut image, 8320, 5, 7, true));
    assert!(rt; is_row(&image.heads, 0, 515, 4608));
    Ok(image)
}

/// One segment, with a subsegment on the page behind its header, and a block on the 33 pages behind that.
fn two_small_blocks<R: Abort>(rt: &R, alloc: Global) -> Result<Image, OutOfMemory>
    ensures readable { IfOk result (λ image. IsReadable image) }
{
    let region = one_committed(alloc)?;
    let heads = Heads::new(alloc, &ONE_SEGMENT, KEY)?;
    let mut descs = Descs::new(alloc, &ONE_SEGMENT)?;
    descs.open_segment(0);
    descs.mark(2, 1, SUBSEGMENT);
    descs.mark(3, 33, BLOCK);
    descs.mark(36, 220, Mark::FREE);
    let large = Large::new(alloc, &ONE_SEGMENT)?;
    let words = words_of_two_blocks(alloc)?;
    assert!(rt; are_small(&words));
    Ok(Image {
        limits: ONE_SEGMENT,
        region,
        descs,
        key: KEY,
        heads,
        large,
        words,
    })
}

/// The image with one more large block, where it fits.
fn with_large(image: Image, n: u64) -> Image
    requires readable { IsReadable image }
    requires large { 520193 ≤ n }
    ensures { IsReadable result }
{
    let mut image = image;
    let _addr = image.large.take(n);
    image
}

/// The words of a heap in which no bucket is active.
fn empty_words(alloc: Global) -> Result<Words, OutOfMemory>
    ensures { IfOk result (AreWords ONE_SEGMENT) }
{
    words_of(alloc, &ONE_SEGMENT)
}

/// The words of the subsegment. The bits are those of blocks 0, 5 and 64, and block 5 is in hand: it has no size yet.
fn words_of_two_blocks(alloc: Global) -> Result<Words, OutOfMemory>
    ensures { IfOk result (AreWords ONE_SEGMENT) }
{
    let mut words = empty_words(alloc)?;
    store(&mut words, bitmap_at(&ONE_SEGMENT, 2, 0), 0x21);
    store(&mut words, bitmap_at(&ONE_SEGMENT, 2, 1), 1);
    store(&mut words, size_at(&ONE_SEGMENT, 516), 33);
    store(&mut words, size_at(&ONE_SEGMENT, 644), 18);
    Ok(words)
}

fn store(words: &mut Words, at: u64, value: u64)
    requires words { AreWords ONE_SEGMENT words.old }
    requires at { at < (data_region ONE_SEGMENT).from }
    ensures { AreWords ONE_SEGMENT words.new }
{
    words.set(at, value);
}

/// Whether no block was asked for more than 32 bytes.
fn are_small(words: &Words) -> bool
    requires { AreWords ONE_SEGMENT words.now }
    ensures { IsTrue result → (k : ℕ) → k < (sizes_region ONE_SEGMENT).words
        → slice_index words.now ((sizes_region ONE_SEGMENT).from + k) ≤ 33 }
{
    let sizes = size_at(&ONE_SEGMENT, 0) as usize;
    words.as_slice()[sizes..sizes + 65_536]
        .iter()
        .all(|word| *word <= 33)
}

/// One segment, with 49 pages behind its header committed.
fn one_committed(alloc: Global) -> Result<Region, OutOfMemory>
    ensures { IfOk result (λ region. region.segments ≡ 1) }
{
    let mut region = Region::new(alloc, &ONE_SEGMENT)?;
    match region.reserve_next() {
        Some(_) => region.commit(2, 49),
        None => {}
    }
    Ok(region)
}

/// Cuts the chunk at an address behind its first `units`, makes the front of it a place or a gap, and answers whether it
/// could.
fn could_cut(image: &mut Image, addr: u64, units: u16, unused: u8, busy: bool) -> bool
    requires told { AreTold image.old }
    requires key { image.old.heads.key ≡ image.old.key }
    ensures told { AreTold image.new }
    ensures key { image.new.heads.key ≡ image.new.key }
    ensures descs { image.new.descs ≡ image.old.descs }
    ensures region { image.new.region ≡ image.old.region }
    ensures limits { image.new.limits ≡ image.old.limits }
    ensures large { image.new.large ≡ image.old.large }
    ensures words { image.new.words ≡ image.old.words }
{
    let Some(head) = image.heads.chunk_at(addr) else {
        return false;
    };
    if units < 2 || head.units < units || head.units - units < 2 {
        return false;
    }
    image.heads.split(addr, units);
    image.heads.set(addr, unused, busy);
    true
}

/// Whether chunks lie one behind the other from one granule up to another, behind a chunk of `prev` granules.
fn is_row(heads: &Heads, prev: u16, from: u32, to: u32) -> bool
    requires { to < 65536 }
    ensures { IsTrue result → (hs : List Head) × IsRow heads.now prev from to hs }
{
    if from >= to {
        return from == to;
    }
    let Some(head) = heads.chunk_at(16 * u64::from(from)) else {
        return false;
    };
    head.prev == prev && is_row(heads, head.units, from + u32::from(head.units), to)
}

#[test]
fn reports_three_blocks(rt: HostRuntime) -> Result<(), Fail> {
    let alloc = rt.alloc();
    let script = read_script(alloc, b"alloc a 16\nalloc b 131073\n")
        .ok()
        .ok_or("script")?;
    let mut answers = Answers::new(alloc);
    answers.add_round()?;
    answers.add_thread(vec![in alloc; Reply::Address(8256), Reply::Address(73_728)]?)?;
    let image = three_blocks(&rt, alloc)?;
    let text = report(alloc, &script, &answers, &image)?;
    let lines =
        "0 0 alloc 8256\n0 0 alloc 73728\nsegment 0\nvs 2 16\nback 18 33\nfree 51 205 committed 0\nblock 8256 16 vs\nblock 8336 57 vs\nblock 73728 131073 back\nblocks 3 bytes 131146\n";
    assert!(rt; text.as_bytes() == lines.as_bytes());
    Ok(())
}

/// The range of a subsegment, and its blocks in front of one of the back end.
#[test]
fn reports_two_small_blocks(rt: HostRuntime) -> Result<(), Fail> {
    let alloc = rt.alloc();
    let script = read_script(alloc, b"alloc a 32\nalloc b 131073\n")
        .ok()
        .ok_or("script")?;
    let mut answers = Answers::new(alloc);
    answers.add_round()?;
    answers.add_thread(vec![in alloc; Reply::Address(8256), Reply::Address(12_288)]?)?;
    let image = two_small_blocks(&rt, alloc)?;
    let text = report(alloc, &script, &answers, &image)?;
    let lines =
        "0 0 alloc 8256\n0 0 alloc 12288\nsegment 0\nlfh 2 1 bucket 2 slot 0\nback 3 33\nfree 36 220 committed 15\nblock 8256 32 lfh\nblock 10304 17 lfh\nblock 12288 131073 back\nblocks 3 bytes 131122\n";
    assert!(rt; text.as_bytes() == lines.as_bytes());
    Ok(())
}

/// Large blocks have their lines behind the pages, and theirs among the blocks.
#[test]
fn reports_large_blocks(rt: HostRuntime) -> Result<(), Fail> {
    let alloc = rt.alloc();
    let script = read_script(alloc, b"").ok().ok_or("script")?;
    let mut answers = Answers::new(alloc);
    answers.add_round()?;
    let image = with_large(with_large(two_small_blocks(&rt, alloc)?, 520_193), 600_000);
    let text = report(alloc, &script, &answers, &image)?;
    let lines =
        "segment 0\nlfh 2 1 bucket 2 slot 0\nback 3 33\nfree 36 220 committed 15\nlarge 256 128\nlarge 384 147\nblock 8256 32 lfh\nblock 10304 17 lfh\nblock 12288 131073 back\nblock 1048576 520193 large\nblock 1572864 600000 large\nblocks 5 bytes 1251315\n";
    assert!(rt; text.as_bytes() == lines.as_bytes());
    Ok(())
}
