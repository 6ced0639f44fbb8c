//! The header words and the marks, one of each for each granule of the segments.
ghost use Rattle.std.specs.Prelude.{◌≡◌, ◌*◌, ◌/◌, ◌^◌, ◌<◌, ◌≤◌, Some, None, IfOk, length};
ghost use Rattle.std.specs.Prelude.{replicate};
ghost use Rattle.vs_headers.specs.declared.Head.{Head};
ghost use Rattle.std.specs.Vec.{vec_capacity};
ghost use Rattle.vs_split.specs.Chunks.{head_at, chunk_at, word_at, with_head, with_prev};
ghost use Rattle.vs_split.specs.Table.{filled_up};

use heap_model::{GRANULE_BYTES, OutOfMemory};
use std::alloc::Global;
use std::marker::Model;
use std::vec::Vec;
use vs_headers::{Head, decode, encode};

/// A contract sees the head that each granule has, if a chunk starts there. An encoded word can be 0, and a word that
/// was never written could decode, so each chunk has a mark too. There are words and marks up to the last granule where a
/// chunk ever began, and room for all: what lies behind is not touched, and no call after `new` takes memory.
#[derive(Drop)]
pub(crate) struct HeadTable {
    words: Vec<u64>,
    starts: Vec<bool>,
    granules: u32,
    key: u64,
}

impl Model for HeadTable {
    ghost use Rattle.vs_split.specs.Chunks.{Chunks};
    ghost use Rattle.vs_split.specs.Table.{filled_up, chunks_kept, AreKept};
    ghost use Rattle.std.specs.Prelude.{◌≡◌, ◌≤◌, false, length};
    ghost use Rattle.std.specs.Vec.{vec_capacity};

    ghost Value = { Chunks };

    ghost view = { λ table. chunks_kept table.key table.granules table.words.items table.starts.items };

    ghost invariant = { λ table. AreKept table.key (filled_up table.granules 0 table.words.items) (filled_up table.granules false table.starts.items) × (vec_capacity table.words ≡ table.granules) × (vec_capacity table.starts ≡ table.granules) × (length table.words.items ≤ table.granules) × (length table.starts.items ≡ length table.words.items) };
}

impl HeadTable {
    /// A table of so many granules at none of which a chunk starts. It takes all the memory that it will ever use, and
    /// touches none of it.
    pub(crate) fn new(alloc: Global, granules: u32, key: u64) -> Result<HeadTable, OutOfMemory>
        ensures { IfOk result (λ table. table ≡ record { key = key; heads = replicate granules None }) }
    {
        let words = Vec::with_capacity(alloc, granules as usize)?;
        let starts = Vec::with_capacity(alloc, granules as usize)?;
        Ok(HeadTable {
            words,
            starts,
            granules,
            key,
        })
    }

    /// The head of the chunk that starts at a granule.
    pub(crate) fn get(&self, granule: u32) -> Option<Head>
        ensures { result ≡ head_at self.now granule }
    {
        let at = granule as usize;
        if at < self.starts.len() && self.starts[at] {
            decode(self.words[at], self.key, GRANULE_BYTES * u64::from(granule))
        } else {
            None
        }
    }

    /// The granule and the head of the chunk that starts at an address.
    pub(crate) fn chunk(&self, addr: u64) -> (u32, Head)
        requires { (h : Head) × (chunk_at self.now addr ≡ Some h) }
        ensures at { result.0 ≡ addr / 16 }
        ensures head { chunk_at self.now addr ≡ Some result.1 }
        ensures start { head_at self.now result.0 ≡ Some result.1 }
    {
        let _words = &self.words;
        let granule = (addr / GRANULE_BYTES) as u32;
        (granule, self.get(granule).unwrap())
    }

    /// The encoded header word of a granule, 0 where no chunk starts.
    pub(crate) fn word(&self, granule: u32) -> u64
        ensures { result ≡ word_at self.now granule }
    {
        self.words.get(granule as usize).copied().unwrap_or(0)
    }

    /// Makes a chunk with this head start at a granule.
    pub(crate) fn put(&mut self, granule: u32, head: Head)
        requires { granule < length self.old.heads }
        ensures { self.new ≡ with_head self.old granule (Some head) }
    {
        widths(&head);
        let at = granule as usize;
        fill_up(&mut self.words, 0, at + 1);
        fill_up(&mut self.starts, false, at + 1);
        self.words[at] = encode(head, self.key, GRANULE_BYTES * u64::from(granule));
        self.starts[at] = true;
    }

    /// Makes no chunk start at a granule.
    pub(crate) fn clear(&mut self, granule: u32)
        requires { granule < length self.old.heads }
        ensures { self.new ≡ with_head self.old granule None }
    {
        let at = granule as usize;
        fill_up(&mut self.words, 0, at + 1);
        fill_up(&mut self.starts, false, at + 1);
        self.words[at] = 0;
        self.starts[at] = false;
    }

    /// Tells the chunk that starts at a granule, if one does, how many granules the chunk before it has.
    pub(crate) fn set_prev(&mut self, granule: u32, units: u16)
        ensures { self.new ≡ with_prev self.old granule units }
    {
        if let Some(head) = self.get(granule) {
            self.put(
                granule,
                Head {
                    prev: units,
                    ..head
                },
            );
        }
    }
}

/// Makes a vector that is shorter so long, by values that are equal, in the room that it has.
fn fill_up<T: Copy>(values: &mut Vec<T>, value: T, n: usize)
    requires { n ≤ vec_capacity values.old }
    ensures items { values.new.items ≡ filled_up n value values.old.items }
    ensures room { vec_capacity values.new ≡ vec_capacity values.old }
{
    for _ in values.len()..n {
        values.push_reserved(value);
    }
}

/// Each field of a head has its width.
fn widths(head: &Head)
    ensures units { head.now.units < 2 ^ 16 }
    ensures prev { head.now.prev < 2 ^ 16 }
    ensures unused { head.now.unused < 2 ^ 8 }
{
    let _units = head.units;
    let _prev = head.prev;
    let _unused = head.unused;
}
