// Images written by hand, and the blocks that they tell of.
ghost use Rattle.std.specs.Prelude.{◌≡◌, ◌<◌, ◌≤◌, IfOk, IsTrue, List, slice_index, ℕ, ◌+◌};
ghost use Rattle.claim_rule.specs.Places.{sizes_region, data_region};
ghost use Rattle.table_words.specs.Told.{AreWords};
ghost use Rattle.vs_headers.specs.declared.Head.{Head};
ghost use Rattle.vs_split.specs.Laws.{IsRow};
ghost use Rattle.layout_decode.specs.Decode.{AreTold, IsReadable};

use crate::{Image, count_blocks, next_block};
use heap_model::{Block, Kind, Layer, Limits, Mark, OutOfMemory, Words};
use large_blocks::Large;
use page_ranges::Descs;
use page_region::Region;
use std::alloc::Global;
use std::process::Abort;
use std::test::Fail;
use table_words::{bitmap_at, size_at, words_of};
use vs_split::Heads;

/// The key of the heap whose seed is 42.
const KEY: u64 = 0x9e37_79b9_7f4a_7c3f;

const ONE_SEGMENT: Limits = Limits {
    segments: 1,
    large_pages: 300,
    slots: 1,
    callers: 1,
};

/// The mark of a block of 131,073 bytes in 33 pages.
const BLOCK: Mark = Mark {
    kind: Kind::Back,
    bucket: 0,
    slot: 0,
    unused: 4095,
};

/// The mark of a subsegment of 126 blocks of 32 bytes.
const SUBSEGMENT: Mark = Mark {
    kind: Kind::Lfh,
    bucket: 2,
    slot: 0,
    unused: 0,
};

/// One segment, with one block on the pages behind its header.
fn one_block(alloc: Global) -> Result<Image, OutOfMemory>
    ensures readable { IfOk result (λ image. IsReadable image) }
{
    let region = Region::new(alloc, &ONE_SEGMENT)?;
    let heads = Heads::new(alloc, &ONE_SEGMENT, KEY)?;
    let mut descs = Descs::new(alloc, &ONE_SEGMENT)?;
    descs.open_segment(0);
    descs.mark(2, 33, BLOCK);
    descs.mark(35, 221, Mark::FREE);
    let large = Large::new(alloc, &ONE_SEGMENT)?;
    let words = empty_words(alloc)?;
    Ok(Image {
        limits: ONE_SEGMENT,
        region,
        descs,
        key: KEY,
        heads,
        large,
        words,
    })
}

/// One segment, with chunks on 16 pages behind its header, and a block on the 33 pages behind those. The chunks are a place
/// of 2 granules, one of 4, a gap of 3, a place of 5, and a gap.
fn four_blocks<R: Abort>(rt: &R, alloc: Global) -> Result<Image, OutOfMemory>
    ensures readable { IfOk result (λ image. IsReadable image) }
{
    let region = Region::new(alloc, &ONE_SEGMENT)?;
    let mut heads = Heads::new(alloc, &ONE_SEGMENT, KEY)?;
    heads.open_span(2, 16);
    let mut descs = Descs::new(alloc, &ONE_SEGMENT)?;
    descs.open_segment(0);
    descs.mark(2, 16, Mark::VS);
    descs.mark(18, 33, BLOCK);
    descs.mark(51, 205, Mark::FREE);
    let large = Large::new(alloc, &ONE_SEGMENT)?;
    let words = empty_words(alloc)?;
    let mut image = Image {
        limits: ONE_SEGMENT,
        region,
        descs,
        key: KEY,
        heads,
        large,
        words,
    };
    assert!(rt; could_cut(&mut image, 8240, 2, 0, true));
    assert!(rt; could_cut(&mut image, 8272, 4, 7, true));
    assert!(rt; could_cut(&mut image, 8336, 3, 0, false));
    assert!(rt; could_cut(&mut image, 8384, 5, 0, true));
    assert!(rt; is_row(&image.heads, 0, 515, 4608));
    Ok(image)
}

/// One segment, with a subsegment on the page behind its header, and a block on the 33 pages behind that.
fn five_blocks<R: Abort>(rt: &R, alloc: Global) -> Result<Image, OutOfMemory>
    ensures readable { IfOk result (λ image. IsReadable image) }
{
    let region = Region::new(alloc, &ONE_SEGMENT)?;
    let heads = Heads::new(alloc, &ONE_SEGMENT, KEY)?;
    let mut descs = Descs::new(alloc, &ONE_SEGMENT)?;
    descs.open_segment(0);
    descs.mark(2, 1, SUBSEGMENT);
    descs.mark(3, 33, BLOCK);
    descs.mark(36, 220, Mark::FREE);
    let large = Large::new(alloc, &ONE_SEGMENT)?;
    let words = words_of_four_blocks(alloc)?;
    assert!(rt; are_small(&words));
    Ok(Image {
        limits: ONE_SEGMENT,
        region,
        descs,
        key: KEY,
        heads,
        large,
        words,
    })
}

/// The image with one more large block, where it fits.
fn with_large(image: Image, n: u64) -> Image
    requires readable { IsReadable image }
    requires large { 520193 ≤ n }
    ensures { IsReadable result }
{
    let mut image = image;
    let _addr = image.large.take(n);
    image
}

/// The words of a heap in which no bucket is active.
fn empty_words(alloc: Global) -> Result<Words, OutOfMemory>
    ensures { IfOk result (AreWords ONE_SEGMENT) }
{
    words_of(alloc, &ONE_SEGMENT)
}

/// The words of the subsegment. The bits are those of blocks 0, 5, 63, 64 and 125, and block 5 is in hand: it has no size
/// yet. Block 100 has a size, and no bit.
fn words_of_four_blocks(alloc: Global) -> Result<Words, OutOfMemory>
    ensures { IfOk result (AreWords ONE_SEGMENT) }
{
    let mut words = empty_words(alloc)?;
    store(
        &mut words,
        bitmap_at(&ONE_SEGMENT, 2, 0),
        0x8000_0000_0000_0021,
    );
    store(
        &mut words,
        bitmap_at(&ONE_SEGMENT, 2, 1),
        0x2000_0000_0000_0001,
    );
    store(&mut words, size_at(&ONE_SEGMENT, 516), 33);
    store(&mut words, size_at(&ONE_SEGMENT, 642), 18);
    store(&mut words, size_at(&ONE_SEGMENT, 644), 1);
    store(&mut words, size_at(&ONE_SEGMENT, 716), 31);
    store(&mut words, size_at(&ONE_SEGMENT, 766), 21);
    Ok(words)
}

fn store(words: &mut Words, at: u64, value: u64)
    requires words { AreWords ONE_SEGMENT words.old }
    requires at { at < (data_region ONE_SEGMENT).from }
    ensures { AreWords ONE_SEGMENT words.new }
{
    words.set(at, value);
}

/// Whether no block was asked for more than 32 bytes.
fn are_small(words: &Words) -> bool
    requires { AreWords ONE_SEGMENT words.now }
    ensures { IsTrue result → (k : ℕ) → k < (sizes_region ONE_SEGMENT).words → slice_index words.now ((sizes_region ONE_SEGMENT).from + k) ≤ 33 }
{
    let sizes = size_at(&ONE_SEGMENT, 0) as usize;
    words.as_slice()[sizes..sizes + 65_536]
        .iter()
        .all(|word| *word <= 33)
}

/// Cuts the chunk at an address behind its first `units`, makes the front of it a place or a gap, and answers whether it
/// could.
fn could_cut(image: &mut Image, addr: u64, units: u16, unused: u8, busy: bool) -> bool
    requires told { AreTold image.old }
    requires key { image.old.heads.key ≡ image.old.key }
    ensures told { AreTold image.new }
    ensures key { image.new.heads.key ≡ image.new.key }
    ensures descs { image.new.descs ≡ image.old.descs }
    ensures region { image.new.region ≡ image.old.region }
    ensures limits { image.new.limits ≡ image.old.limits }
    ensures large { image.new.large ≡ image.old.large }
    ensures words { image.new.words ≡ image.old.words }
{
    let Some(head) = image.heads.chunk_at(addr) else {
        return false;
    };
    if units < 2 || head.units < units || head.units - units < 2 {
        return false;
    }
    image.heads.split(addr, units);
    image.heads.set(addr, unused, busy);
    true
}

/// Whether chunks lie one behind the other from one granule up to another, behind a chunk of `prev` granules.
fn is_row(heads: &Heads, prev: u16, from: u32, to: u32) -> bool
    requires { to < 65536 }
    ensures { IsTrue result → (hs : List Head) × IsRow heads.now prev from to hs }
{
    if from >= to {
        return from == to;
    }
    let Some(head) = heads.chunk_at(16 * u64::from(from)) else {
        return false;
    };
    head.prev == prev && is_row(heads, head.units, from + u32::from(head.units), to)
}

#[test]
fn reads_one_block(rt: HostRuntime) -> Result<(), Fail> {
    let image = one_block(rt.alloc())?;
    let block = Block {
        addr: 8192,
        size: 131_073,
        layer: Layer::Back,
    };
    assert!(rt; next_block(&image, 0) == Some(block));
    assert!(rt; next_block(&image, 8192) == Some(block));
    assert!(rt; next_block(&image, 8193) == None);
    assert!(rt; count_blocks(&image) == (1, 131_073));
    Ok(())
}

fn block(addr: u64, size: u64, layer: Layer) -> Option<Block> {
    Some(Block { addr, size, layer })
}

/// Each block from its own address on, and from the address behind it.
#[test]
fn reads_four_blocks(rt: HostRuntime) -> Result<(), Fail> {
    let image = four_blocks(&rt, rt.alloc())?;
    // The header word of a place of 2 granules at this address and key.
    assert_eq!(rt; image.heads.word(515), 0x9e37_78b9_7f4a_5c0d);
    let first = block(8256, 16, Layer::Vs);
    let second = block(8288, 41, Layer::Vs);
    let third = block(8400, 64, Layer::Vs);
    let fourth = block(73_728, 131_073, Layer::Back);
    assert_eq!(rt; next_block(&image, 0), first);
    assert_eq!(rt; next_block(&image, 8256), first);
    assert_eq!(rt; next_block(&image, 8257), second);
    assert_eq!(rt; next_block(&image, 8288), second);
    assert_eq!(rt; next_block(&image, 8289), third);
    assert_eq!(rt; next_block(&image, 8352), third);
    assert_eq!(rt; next_block(&image, 8400), third);
    assert_eq!(rt; next_block(&image, 8401), fourth);
    assert_eq!(rt; next_block(&image, 73_727), fourth);
    assert_eq!(rt; next_block(&image, 73_728), fourth);
    assert_eq!(rt; next_block(&image, 73_729), None);
    assert_eq!(rt; next_block(&image, 1_048_576), None);
    assert_eq!(rt; next_block(&image, u64::MAX), None);
    assert_eq!(rt; count_blocks(&image), (4, 131_194));
    Ok(())
}

/// A subsegment whose blocks have the bits of two words, in front of a block of the back end.
#[test]
fn reads_five_blocks(rt: HostRuntime) -> Result<(), Fail> {
    let image = five_blocks(&rt, rt.alloc())?;
    let first = block(8256, 32, Layer::Lfh);
    let second = block(10_272, 17, Layer::Lfh);
    let third = block(10_304, 0, Layer::Lfh);
    let fourth = block(12_256, 20, Layer::Lfh);
    let fifth = block(12_288, 131_073, Layer::Back);
    assert_eq!(rt; next_block(&image, 0), first);
    assert_eq!(rt; next_block(&image, 8192), first);
    assert_eq!(rt; next_block(&image, 8256), first);
    assert_eq!(rt; next_block(&image, 8257), second);
    assert_eq!(rt; next_block(&image, 8416), second);
    assert_eq!(rt; next_block(&image, 10_272), second);
    assert_eq!(rt; next_block(&image, 10_273), third);
    assert_eq!(rt; next_block(&image, 10_305), fourth);
    assert_eq!(rt; next_block(&image, 11_456), fourth);
    assert_eq!(rt; next_block(&image, 12_256), fourth);
    assert_eq!(rt; next_block(&image, 12_257), fifth);
    assert_eq!(rt; next_block(&image, 12_289), None);
    assert_eq!(rt; count_blocks(&image), (5, 131_142));
    Ok(())
}

/// Large blocks behind the pages.
#[test]
fn reads_large_blocks(rt: HostRuntime) -> Result<(), Fail> {
    let five = five_blocks(&rt, rt.alloc())?;
    let image = with_large(with_large(with_large(five, 600_000), 520_193), 520_193);
    let first = block(1_048_576, 600_000, Layer::Large);
    let second = block(1_650_688, 520_193, Layer::Large);
    assert_eq!(rt;
        next_block(&image, 12_257),
        block(12_288, 131_073, Layer::Back)
    );
    assert_eq!(rt; next_block(&image, 12_289), first);
    assert_eq!(rt; next_block(&image, 1_048_576), first);
    assert_eq!(rt; next_block(&image, 1_048_577), second);
    assert_eq!(rt; next_block(&image, 1_650_688), second);
    assert_eq!(rt; next_block(&image, 1_650_689), None);
    assert_eq!(rt; count_blocks(&image), (7, 1_251_335));
    Ok(())
}
