//! The large area: blocks of more than 520,192 bytes, each in whole pages of its own.
//!
//! The area has up to 4,096 pages of 4,096 bytes and lies behind the segments of the back end. A block takes as many pages as its bytes need,
//! at the front of the lowest run of free pages that has them. The published description of the segment heap gives such blocks to the system's
//! virtual memory; the area, its place and the lowest fit are this project's own.
//!
//! The table of blocks takes the memory for 32 when it is made, which are never exceeded, since each block has 128 pages or more: so no
//! later call takes memory.
#![tactic(auto)]

#[cfg(test)]
mod tests;

ghost use Rattle.std.specs.Prelude.{◌≡◌, ◌+◌, ◌-◌, ◌*◌, ◌/◌, ◌<◌, ◌≤◌, ◌&&◌, nat_le, nat_lt, IfOk, IfSome, IfNone, IsSome, is_some, length, [], drop, map, option_map, slice_set, slice_index_or};
ghost use Rattle.std.specs.Vec.{vec_capacity};
ghost use Rattle.std.specs.Bool.{OnTrue, OnFalse};
ghost use Rattle.std.specs.List.{find, position};
ghost use Rattle.heap_model.specs.Geometry.{pages_of};
ghost use Rattle.heap_model.specs.Limits.{AreValid};
ghost use Rattle.heap_model.specs.Ranges.{large_place};
ghost use Rattle.heap_model.specs.State.{opening, change_found, remove_found};
ghost use Rattle.heap_model.specs.Layers.{StandsForLarge};
ghost use Rattle.heap_model.specs.declared.Opening.{Opening};
ghost use Rattle.large_blocks.specs.declared.LargeBlock.{LargeBlock};
ghost use Rattle.large_blocks.specs.Table.{place_of, places_of, layer_of, is_at, is_from, block_in, insert_block, with_blocks, with_bytes};
ghost use Rattle.large_blocks.specs.Effects.{InEach, TellsStay, Becomes, size_at, block_from, with_block, without_block, with_length};
ghost use Rattle.large_blocks.specs.Sound.{AreLaid, IsSound, IsRoom, IsRow, page_behind, reach_at};

use heap_model::{
    Block, Layer, Limits, MOST_PAGED, OutOfMemory, PAGE_BYTES, SEGMENT_PAGES, Stands,
};
use std::alloc::Global;
use std::marker::Model;

/// A block has 128 pages or more, and the area at most 4,096.
const MOST_BLOCKS: usize = 32;

/// A row of the table: the address of a block, and the size that was asked.
#[derive(Clone, Copy, Debug, Default, PartialEq, Eq)]
pub struct LargeBlock {
    pub addr: u64,
    pub size: u64,
}

/// The large blocks of a heap. Contracts see its limits and the blocks by address.
#[derive(Drop)]
pub struct Large {
    limits: Limits,
    blocks: Vec<LargeBlock>,
}

impl Model for Large {
    ghost use Rattle.large_blocks.specs.Table.{LargeTable};
    ghost use Rattle.large_blocks.specs.Sound.{IsSound};
    ghost use Rattle.std.specs.Prelude.{◌≤◌};
    ghost use Rattle.std.specs.Vec.{vec_capacity};

    ghost Value = { LargeTable };

    ghost view = { λ l. record { limits = l.limits; blocks = l.blocks.items } };

    ghost invariant = { λ l. IsSound (record { limits = l.limits; blocks = l.blocks.items }) × (32 ≤ vec_capacity l.blocks) };
}

impl Stands for Large {
    ghost use Rattle.large_blocks.specs.Table.{layer_of};

    ghost stands = { layer_of };
}

impl Large {
    /// No block, in a heap with these limits. It takes all the memory that it will ever use.
    pub fn new(alloc: Global, limits: &Limits) -> Result<Large, OutOfMemory>
        requires { AreValid limits.now }
        ensures limits { IfOk result (λ large. large.limits ≡ limits.now) }
        ensures blocks { IfOk result (λ large. large.blocks ≡ []) }
        ensures stands { IfOk result (λ large. (o : Opening) → o.limits ≡ limits.now → StandsForLarge o opening (layer_of large)) }
    {
        let blocks = Vec::with_capacity(alloc, MOST_BLOCKS)?;
        Ok(Large {
            limits: *limits,
            blocks,
        })
    }

    /// Whether there is a free run for a block of `n` bytes.
    pub fn fits(&self, n: u64) -> bool
        ensures fits { result ≡ is_some (large_place self.now.limits (places_of self.now) (pages_of n)) }
        ensures in_each { InEach self.now (λ o st. result ≡ is_some (large_place o.limits st.large (pages_of n))) }
    {
        lowest_room(&self.limits, &self.blocks, n.div_ceil(PAGE_BYTES)).is_some()
    }

    /// Takes the lowest free run for a block of `n` bytes, and answers its address. Where there is none it answers `None`, and
    /// nothing changes.
    pub fn take(&mut self, n: u64) -> Option<u64>
        requires { 520193 ≤ n }
        ensures place { result ≡ large_place self.old.limits (places_of self.old) (pages_of n) }
        ensures in_each { InEach self.old (λ o st. result ≡ large_place o.limits st.large (pages_of n)) }

        ensures taken { IfSome result (λ a. self.new ≡ with_blocks self.old (insert_block (record { addr = a; size = n }) self.old.blocks)) }
        ensures stands { IfSome result (λ a. Becomes self.old self.new (λ ps. with_block ps a n)) }
        ensures none { IfNone result (self.new ≡ self.old) }
        ensures limits { self.new.limits ≡ self.old.limits }
    {
        let room = lowest_room(&self.limits, &self.blocks, n.div_ceil(PAGE_BYTES))?;
        let block = LargeBlock {
            addr: room.addr,
            size: n,
        };
        self.blocks.insert(room.index, block).unwrap();
        Some(room.addr)
    }

    /// The size that was asked for the block at an address, if one starts there.
    pub fn find(&self, addr: u64) -> Option<u64>
        ensures found { result ≡ option_map (λ b. b.size) (find (is_at addr) self.now.blocks) }
        ensures in_each { InEach self.now (λ o st. result ≡ size_at addr st.large) }
    {
        size_of_block_at(&self.blocks, addr)
    }

    /// Gives back the block at an address.
    pub fn give(&mut self, addr: u64)
        requires { IsSome (find (is_at addr) self.old.blocks) }
        ensures given { self.new ≡ with_blocks self.old (remove_found (is_at addr) self.old.blocks) }
        ensures limits { self.new.limits ≡ self.old.limits }
        ensures stands { Becomes self.old self.new (λ ps. without_block ps addr) }
    {
        let index = row_at(&self.blocks, addr);
        self.blocks.remove(index);
    }

    /// Makes the block at an address `n` bytes long where it stands, and answers `true`, if `n` is a size of this layer and the free
    /// pages right behind the block let it be so long. Else it answers `false`, and nothing changes.
    pub fn resize_in_place(&mut self, addr: u64, n: u64) -> bool
        requires { IsSome (find (is_at addr) self.old.blocks) }
        ensures stays { InEach self.old (λ o st. TellsStay o st addr n result) }
        ensures resized { OnTrue result (self.new ≡ with_blocks self.old (change_found (is_at addr) (with_bytes n) self.old.blocks)) }
        ensures stands { OnTrue result (Becomes self.old self.new (λ ps. with_length ps addr n)) }
        ensures none { OnFalse result (self.new ≡ self.old) }
        ensures limits { self.new.limits ≡ self.old.limits }
    {
        let index = row_at(&self.blocks, addr);
        if !lets_stay(&self.limits, &self.blocks, index, n) {
            return false;
        }
        set_size(&mut self.blocks, index, n);
        true
    }

    /// The blocks, by address. They lie in the area, each behind the one before.
    pub fn blocks(&self) -> &[LargeBlock]
        ensures blocks { result.now ≡ self.now.blocks }
        ensures sound { IsSound self.now }
    {
        self.blocks.as_slice()
    }

    /// The first block at or after an address.
    pub fn next_block(&self, from: u64) -> Option<Block>
        ensures found { result ≡ option_map block_in (find (is_from from) self.now.blocks) }
        ensures in_each { InEach self.now (λ o st. result ≡ block_from from st.large) }
    {
        first_from(&self.blocks, from)
    }
}

/// Where a block goes: its row and its address.
#[derive(Drop)]
struct Room {
    index: usize,
    addr: u64,
}

/// The lowest free run of so many pages.
fn lowest_room(limits: &Limits, blocks: &[LargeBlock], pages: u64) -> Option<Room>
    requires valid { AreValid limits.now }
    requires laid { AreLaid limits.now 0 blocks.now }
    ensures place { option_map (λ r. r.addr) result ≡ large_place limits.now (map place_of blocks.now) pages }
    ensures room { IfSome result (λ r. IsRoom limits.now blocks.now pages r.index r.addr) }
{
    let mut addr = PAGE_BYTES * u64::from(SEGMENT_PAGES * limits.segments);
    for (index, block) in blocks.iter().enumerate() {
        if holds(addr, block.addr, pages) {
            return Some(Room { index, addr });
        }
        addr = block.addr + PAGE_BYTES * block.size.div_ceil(PAGE_BYTES);
    }
    if holds(addr, area_end(limits), pages) {
        Some(Room {
            index: blocks.len(),
            addr,
        })
    } else {
        None
    }
}

/// Whether so many pages, and at least one, lie between two addresses.
fn holds(from: u64, to: u64, pages: u64) -> bool
    ensures { result ≡ (nat_lt from to && nat_le pages ((to - from) / 4096)) }
{
    from < to && pages <= (to - from) / PAGE_BYTES
}

/// The address right behind the large area.
fn area_end(limits: &Limits) -> u64
    requires { AreValid limits.now }
    ensures { result ≡ 4096 * (256 * limits.now.segments + limits.now.large_pages) }
{
    PAGE_BYTES * u64::from(SEGMENT_PAGES * limits.segments + limits.large_pages)
}

fn size_of_block_at(blocks: &[LargeBlock], addr: u64) -> Option<u64>
    ensures { result ≡ option_map (λ b. b.size) (find (is_at addr) blocks.now) }
{
    blocks
        .iter()
        .find(|block| block.addr == addr)
        .map(|block| block.size)
}

fn first_from(blocks: &[LargeBlock], from: u64) -> Option<Block>
    ensures { result ≡ option_map block_in (find (is_from from) blocks.now) }
{
    blocks
        .iter()
        .find(|block| block.addr >= from)
        .map(|block| Block {
            addr: block.addr,
            size: block.size,
            layer: Layer::Large,
        })
}

/// The row of the block at an address.
fn row_at(blocks: &[LargeBlock], addr: u64) -> usize
    requires { IsSome (find (is_at addr) blocks.now) }
    ensures { IsRow blocks.now addr result }
{
    position_of(blocks, addr).unwrap()
}

fn position_of(blocks: &[LargeBlock], addr: u64) -> Option<usize>
    ensures { result ≡ position (is_at addr) blocks.now }
{
    blocks.iter().position(|block| block.addr == addr)
}

fn set_size(blocks: &mut Vec<LargeBlock>, index: usize, n: u64)
    requires { index < length blocks.old.items }
    ensures capacity { vec_capacity blocks.new ≡ vec_capacity blocks.old }
    ensures items { (d : LargeBlock) → blocks.new.items ≡ slice_set blocks.old.items index (with_bytes n (slice_index_or blocks.old.items index d)) }
{
    blocks[index].size = n;
}

/// Whether the block of a row can have so many bytes where it stands.
fn lets_stay(limits: &Limits, blocks: &[LargeBlock], index: usize, n: u64) -> bool
    requires valid { AreValid limits.now }
    requires laid { AreLaid limits.now 0 blocks.now }
    requires inside { index < length blocks.now }
    ensures { result ≡ (nat_le 520193 n && nat_le (pages_of n) (reach_at limits.now (drop index blocks.now))) }
{
    n > MOST_PAGED && n.div_ceil(PAGE_BYTES) <= reach(limits, blocks, index)
}

/// The pages of the block of a row and of the free run right behind it.
fn reach(limits: &Limits, blocks: &[LargeBlock], index: usize) -> u64
    requires valid { AreValid limits.now }
    requires laid { AreLaid limits.now 0 blocks.now }
    requires inside { index < length blocks.now }
    ensures { result ≡ reach_at limits.now (drop index blocks.now) }
{
    (end_behind(limits, blocks, index) - blocks[index].addr) / PAGE_BYTES
}

/// Where the next block begins behind a row, or the end of the area.
fn end_behind(limits: &Limits, blocks: &[LargeBlock], index: usize) -> u64
    requires valid { AreValid limits.now }
    requires laid { AreLaid limits.now 0 blocks.now }
    requires inside { index < length blocks.now }
    ensures { result ≡ 4096 * (256 * limits.now.segments + page_behind limits.now (drop (index + 1) blocks.now)) }
{
    match blocks.get(index + 1) {
        Some(next) => next.addr,
        None => area_end(limits),
    }
}
