//! The block that a draw picks in a new subsegment, and the lowest subsegment of a bucket and a slot.
ghost use Rattle.std.specs.Prelude.{◌≡◌, ◌<◌, ◌==◌, unwrap_or, if◌then◌else◌};
ghost use Rattle.heap_model.specs.Buckets.{block_count};
ghost use Rattle.heap_model.specs.Search.{first_of, spans_of};
ghost use Rattle.backend_fit.specs.Kept.{area_of};
ghost use Rattle.lfh_buckets.specs.Blocks.{IsBucket};
ghost use Rattle.lfh_spans.specs.Subsegments.{drawn_block, is_mark_of};

use crate::steps::Subsegment;
use backend_fit::Back;
use heap_model::{Kind, Mark, WORD_BITS};
use lfh_buckets::{count, valid_bits};
use random_pick::{Draw, pick};

/// The block that a draw picks in a subsegment that has none yet.
pub fn own_block(bucket: u8, draw: Draw) -> u16
    requires { IsBucket bucket }
    ensures drawn { result ≡ drawn_block bucket draw.value }
    ensures below { result < block_count bucket }
{
    let word = draw.value / WORD_BITS % count(bucket).div_ceil(WORD_BITS);
    let bit = pick(0, valid_bits(bucket, word), draw.value % WORD_BITS).unwrap_or(0);
    (WORD_BITS * word + u32::from(bit)) as u16
}

/// The hint behind a subsegment that goes back: as it was, or the lowest one that is left where it named this.
pub fn left_behind(back: &Back, at: Subsegment, hint: u64) -> u64
    ensures { result ≡ (if hint == at.head then unwrap_or (first_of (spans_of (area_of back.now) at.bucket at.slot)) 0 else hint) }
{
    if hint == u64::from(at.head) {
        u64::from(lowest(back, at.bucket, at.slot))
    } else {
        hint
    }
}

/// The first page of the lowest subsegment of a bucket and a slot, or 0.
fn lowest(back: &Back, bucket: u8, slot: u32) -> u32
    ensures { result ≡ unwrap_or (first_of (spans_of (area_of back.now) bucket slot)) 0 }
{
    let descs = back.descs();
    let end = descs.pages();
    let mut page = 0;
    while page < end {
        let run = descs.run_at(page);
        if is_of(run.mark, bucket, slot) {
            return run.first;
        }
        page += run.pages;
    }
    0
}

/// Whether a mark is that of a subsegment of a bucket and a slot.
fn is_of(mark: Mark, bucket: u8, slot: u32) -> bool
    ensures { result ≡ is_mark_of bucket slot mark }
{
    match mark.kind {
        Kind::Lfh => mark.bucket == bucket && u32::from(mark.slot) == slot,
        _ => false,
    }
}
