ghost use Rattle.lfh_buckets.specs.Blocks.{IsBucket};

use super::*;
use std::process::Abort;

/// The bucket of each size at an end of a step.
#[test]
fn sizes_have_buckets(rt: HostRuntime) {
    let rows = [
        (0, Some(1)),
        (16, Some(1)),
        (17, Some(2)),
        (1024, Some(64)),
        (1025, Some(65)),
        (2048, Some(80)),
        (2049, Some(81)),
        (4096, Some(96)),
        (4097, Some(97)),
        (8192, Some(112)),
        (8193, Some(113)),
        (16368, Some(128)),
        (16369, None),
    ];
    for (size, bucket) in rows {
        assert_eq!(rt; bucket_of(size), bucket, "size {size}");
    }
}

/// Block size, pages and count of a bucket, one line of a table.
fn has_line(rt: &impl Abort, bucket: u8, size: u32, page_count: u32, blocks: u32)
    requires { IsBucket bucket }
{
    assert_eq!(rt; block_size(bucket), size, "bucket {bucket}");
    assert_eq!(rt; pages(bucket), page_count, "bucket {bucket}");
    assert_eq!(rt; count(bucket), blocks, "bucket {bucket}");
}

#[test]
fn buckets_have_sizes_pages_and_counts(rt: HostRuntime) {
    has_line(&rt, 1, 16, 1, 252);
    has_line(&rt, 4, 64, 1, 63);
    has_line(&rt, 16, 256, 1, 15);
    has_line(&rt, 17, 272, 4, 60);
    has_line(&rt, 64, 1024, 4, 15);
    has_line(&rt, 65, 1088, 16, 60);
    has_line(&rt, 80, 2048, 16, 31);
    has_line(&rt, 96, 4096, 16, 15);
    has_line(&rt, 97, 4352, 64, 60);
    has_line(&rt, 112, 8192, 64, 31);
    has_line(&rt, 113, 8704, 64, 30);
    has_line(&rt, 128, 16384, 64, 15);
}

/// The subsegment of 16-byte blocks at page 18, which has 252 of them.
#[test]
fn blocks_have_addresses(rt: HostRuntime) {
    assert_eq!(rt; block_at(1, 18, 0), 73792);
    assert_eq!(rt; block_at(1, 18, 183), 76720);
    assert_eq!(rt; index_of(1, 18, 73792), Some(0));
    assert_eq!(rt; index_of(1, 18, 76720), Some(183));
    assert_eq!(rt; index_of(1, 18, 73776), None);
    assert_eq!(rt; index_of(1, 18, 76721), None);
    assert_eq!(rt; index_of(1, 18, 77824), None);
    assert_eq!(rt; valid_bits(1, 0), u64::MAX);
    assert_eq!(rt; valid_bits(1, 3), 0x0fff_ffff_ffff_ffff);
    assert_eq!(rt; valid_bits(16, 0), 0x7fff);
    assert_eq!(rt; valid_bits(16, 1), 0);
}
