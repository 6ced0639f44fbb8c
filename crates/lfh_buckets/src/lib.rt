//! The buckets of the low-fragmentation front end of the segment heap: which bucket serves a size, how large its
//! blocks are, how many pages and blocks a subsegment of it has, and where each block stands.
//!
//! Sizes grow in five steps: by 16 bytes up to 1 KiB, then by 64, 128, 256 and 512 up to 16 KiB. The steps follow the
//! published description of the front end, and state nothing about any build of Windows. A subsegment is a run of
//! whole pages. Its first 64 bytes are reserved, and its blocks stand behind them, one after another.
#![tactic(auto)]

pub mod laws;
#[cfg(test)]
mod tests;

ghost use Rattle.std.specs.Prelude.{◌≡◌, ℕ, ◌+◌, ◌*◌, ◌<◌, IfSome};
ghost use Rattle.heap_model.specs.Buckets.{bucket_of, block_size, bucket_pages, block_count, valid_bits, block_address};
ghost use Rattle.lfh_buckets.specs.Blocks.{IsBucket, IsBlockAt};

use heap_model::PAGE_BYTES;

/// The bytes in front of the first block.
const RESERVED_BYTES: u32 = 64;

/// The bucket that serves `n` bytes: the smallest one whose blocks hold them. A size of 0 is served as 1. Sizes above
/// 16,368 bytes have none.
pub fn bucket_of(n: u64) -> Option<u8>
    ensures { result ≡ bucket_of n }
{
    let size = n.max(1);
    let bucket = match size {
        ..=1024 => size.div_ceil(16),
        ..=2048 => 64 + (size - 1024).div_ceil(64),
        ..=4096 => 80 + (size - 2048).div_ceil(128),
        ..=8192 => 96 + (size - 4096).div_ceil(256),
        ..=16368 => 112 + (size - 8192).div_ceil(512),
        _ => return None,
    };
    Some(bucket as u8)
}

/// The bytes of a block of a bucket.
pub fn block_size(bucket: u8) -> u32
    requires { IsBucket bucket }
    ensures { result ≡ block_size bucket }
{
    let bucket = u32::from(bucket);
    match bucket {
        ..=64 => 16 * bucket,
        ..=80 => 1024 + 64 * (bucket - 64),
        ..=96 => 2048 + 128 * (bucket - 80),
        ..=112 => 4096 + 256 * (bucket - 96),
        _ => 8192 + 512 * (bucket - 112),
    }
}

/// The pages of a subsegment of a bucket.
pub fn pages(bucket: u8) -> u32
    requires { IsBucket bucket }
    ensures { result ≡ bucket_pages bucket }
{
    match block_size(bucket) {
        ..=256 => 1,
        ..=1024 => 4,
        ..=4096 => 16,
        _ => 64,
    }
}

/// How many blocks a subsegment of a bucket has: at least 15 and at most 252.
pub fn count(bucket: u8) -> u32
    requires { IsBucket bucket }
    ensures { result ≡ block_count bucket }
{
    (PAGE_BYTES as u32 * pages(bucket) - RESERVED_BYTES) / block_size(bucket)
}

/// The bits of bitmap word `word` of a subsegment that stand for blocks. Block `i` stands in bit `i mod 64` of word
/// `i / 64`, and bit 0 is the lowest.
pub fn valid_bits(bucket: u8, word: u32) -> u64
    requires bucket { IsBucket bucket }
    requires word { word < 4 }
    ensures { result ≡ valid_bits bucket word }
{
    let blocks = count(bucket).saturating_sub(64 * word);
    if blocks >= 64 {
        u64::MAX
    } else {
        (1 << blocks) - 1
    }
}

/// The address of block `index` of the subsegment whose first page is `head`.
pub fn block_at(bucket: u8, head: u32, index: u16) -> u64
    requires bucket { IsBucket bucket }
    requires head { head < 4096 }
    requires index { index < block_count bucket }
    ensures { result ≡ block_address bucket head index }
{
    first_block(head) + u64::from(index) * u64::from(block_size(bucket))
}

/// The number of the block that starts at `addr`, in the subsegment whose first page is `head`. It is None for an
/// address in front of the blocks, inside one, or behind them.
pub fn index_of(bucket: u8, head: u32, addr: u64) -> Option<u16>
    requires bucket { IsBucket bucket }
    requires head { head < 4096 }
    ensures found { IfSome result (IsBlockAt bucket head addr) }
    // So it is None only where no block starts there.
    ensures each { (i : ℕ) → IsBlockAt bucket head addr i → result ≡ Some i }
{
    let offset = addr.checked_sub(first_block(head))?;
    let size = u64::from(block_size(bucket));
    let index = offset / size;
    if offset % size == 0 && index < u64::from(count(bucket)) {
        Some(index as u16)
    } else {
        None
    }
}

/// Where block 0 of the subsegment stands.
fn first_block(head: u32) -> u64
    requires { head < 4096 }
    ensures { result ≡ 4096 * head + 64 }
{
    PAGE_BYTES * u64::from(head) + u64::from(RESERVED_BYTES)
}
