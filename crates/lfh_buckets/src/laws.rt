//! Laws of the buckets, each the contract of a function that does nothing.

ghost use Rattle.lfh_buckets.specs.Laws.{BucketsOfSizes, TableOfSubsegments, BucketIsSmallest, BucketsEndAt16368, SizesGrow, BlocksAreFew, BitsStandForBlocks, OneBlockAtAnAddress, BlocksLieApart, BlocksAreAligned, BlocksLieInside};

/// The bucket of each size at an end of a step.
pub fn buckets_of_sizes()
    ensures { BucketsOfSizes }
{}

/// Block size, pages and count at the ends of the steps.
pub fn table_of_subsegments()
    ensures { TableOfSubsegments }
{}

pub fn bucket_is_smallest()
    ensures { BucketIsSmallest }
{}

pub fn buckets_end_at_16368()
    ensures { BucketsEndAt16368 }
{}

pub fn sizes_grow()
    ensures { SizesGrow }
{}

pub fn blocks_are_few()
    ensures { BlocksAreFew }
{}

pub fn bits_stand_for_blocks()
    ensures { BitsStandForBlocks }
{}

/// So [`crate::index_of`] is the inverse of [`crate::block_at`].
pub fn one_block_at_an_address()
    ensures { OneBlockAtAnAddress }
{}

pub fn blocks_lie_apart()
    ensures { BlocksLieApart }
{}

pub fn blocks_are_aligned()
    ensures { BlocksAreAligned }
{}

pub fn blocks_lie_inside()
    ensures { BlocksLieInside }
{}
