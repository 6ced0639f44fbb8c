//! What a bucket and a draw fix of a search.
ghost use Rattle.std.specs.Prelude.{◌≡◌, ◌+◌, ◌-◌, ◌*◌, ◌%◌, ◌^◌, ◌<◌, ◌==◌, min, if◌then◌else◌};
ghost use Rattle.heap_model.specs.Buckets.{block_count, valid_bits};
ghost use Rattle.lfh_buckets.specs.Blocks.{IsBucket};
ghost use Rattle.lfh_search.specs.Courses.{IsCourse};

use heap_model::WORD_BITS;
use random_pick::Draw;

/// How many blocks a subsegment of each bucket has, from bucket 1 on. A search looks it up and divides nothing.
const COUNTS: [u8; 128] = [
    252, 126, 84, 63, 50, 42, 36, 31, 28, 25, 22, 21, 19, 18, 16, 15, 60, 56, 53, 51, 48, 46, 44,
    42, 40, 39, 37, 36, 35, 34, 32, 31, 30, 30, 29, 28, 27, 26, 26, 25, 24, 24, 23, 23, 22, 22, 21,
    21, 20, 20, 20, 19, 19, 18, 18, 18, 17, 17, 17, 17, 16, 16, 16, 15, 60, 56, 53, 51, 48, 46, 44,
    42, 40, 39, 37, 36, 35, 34, 33, 31, 30, 28, 26, 25, 24, 23, 22, 21, 20, 19, 18, 18, 17, 17, 16,
    15, 60, 56, 53, 51, 48, 46, 44, 42, 40, 39, 37, 36, 35, 34, 33, 31, 30, 28, 26, 25, 24, 23, 22,
    21, 20, 19, 18, 18, 17, 17, 16, 15,
];

/// Where the searches for a bucket by a draw read first, and how many blocks count: worked out once.
#[derive(Clone, Copy, Debug)]
pub struct Course {
    pub bucket: u8,
    pub draw: Draw,
    /// The bit from which on a block is picked in a word.
    pub bit: u32,
    /// The word of a subsegment that is read first, and how many are in use.
    pub first: u32,
    pub words: u32,
    /// How many blocks a subsegment of the bucket has.
    pub blocks: u32,
}

impl Course {
    /// The course of the searches for a bucket by a draw.
    pub fn new(bucket: u8, draw: Draw) -> Course
        requires { IsBucket bucket }
        ensures course { IsCourse result }
        ensures bucket { result.bucket ≡ bucket }
        ensures draw { result.draw ≡ draw }
    {
        let blocks = blocks_of(bucket);
        let words = blocks.div_ceil(WORD_BITS);
        Course {
            bucket,
            draw,
            bit: draw.value % WORD_BITS,
            first: cyclic(draw.value / WORD_BITS, words),
            words,
            blocks,
        }
    }

    /// The bits of a word of a subsegment that stand for blocks.
    pub fn valid(&self, word: u32) -> u64
        requires course { IsCourse self.now }
        requires word { word < 4 }
        ensures { result ≡ valid_bits self.now.bucket word }
    {
        bits_of(self.blocks, word)
    }
}

/// How many blocks a subsegment of a bucket has.
fn blocks_of(bucket: u8) -> u32
    requires { IsBucket bucket }
    ensures { result ≡ block_count bucket }
{
    u32::from(COUNTS[usize::from(bucket) - 1])
}

/// The remainder of a number by how many words are in use, which mostly is a power of 2.
fn cyclic(number: u32, words: u32) -> u32
    requires { 0 < words }
    ensures { result ≡ number % words }
{
    match words {
        1 => 0,
        2 => number % 2,
        4 => number % 4,
        _ => number % words,
    }
}

/// The bits of a word, of so many blocks in all, that stand for blocks.
fn bits_of(blocks: u32, word: u32) -> u64
    requires { word < 4 }
    ensures { result ≡ 2 ^ (min 64 (blocks - 64 * word)) - 1 }
{
    let here = blocks.saturating_sub(64 * word);
    if here >= 64 {
        u64::MAX
    } else {
        (1 << here) - 1
    }
}

/// The word that is read behind another, of so many.
pub fn behind(word: u32, words: u32) -> u32
    requires { word < words }
    ensures { result ≡ (if word + 1 == words then 0 else word + 1) }
{
    if word + 1 == words { 0 } else { word + 1 }
}
