ghost use Rattle.std.specs.Prelude.{length};

use super::*;
use std::process::Abort;

#[test]
fn finds_the_first_word(rt: HostRuntime) {
    assert_eq!(rt; next_match(&[3, 19, 3], 16, 16, 0), Some(1));
    assert_eq!(rt; next_match(&[3, 19, 3], 16, 16, 2), None);
    assert_eq!(rt; next_match(&[3, 19, 3], 16, 16, usize::MAX), None);
    // The descriptor of a subsegment of one page, of bucket 1 and slot 0.
    assert_eq!(rt;
        next_match(&[0, 0, 16777483], 1099494850575, 16777227, 0),
        Some(2)
    );
}

/// The descriptor word of a page of a subsegment: kind 3, whether it is the first, pages or the way back to the first.
fn descriptor(first: bool, pages: u8, bucket: u8, slot: u8) -> u64 {
    let kind = if first { 11 } else { 3 };
    kind | u64::from(pages) << 8 | u64::from(bucket) << 24 | u64::from(slot) << 32
}

#[test]
fn finds_the_subsegments_of_a_bucket_and_a_slot(rt: HostRuntime) {
    let words = [
        0,
        descriptor(true, 2, 1, 1),
        descriptor(false, 1, 0, 0),
        descriptor(true, 1, 2, 0),
        descriptor(true, 2, 1, 0),
        descriptor(false, 1, 0, 0),
        descriptor(true, 1, 1, 0),
    ];
    for (from, found) in [(0, Some(4)), (4, Some(4)), (5, Some(6)), (7, None)] {
        assert_eq!(rt;
            next_match(&words, 1099494850575, 16777227, from),
            found,
            "from {from}"
        );
    }
    for (slot, found) in [(1u64, Some(1)), (2, None)] {
        let value = 16777227 + (slot << 32);
        assert_eq!(rt;
            next_match(&words, 1099494850575, value, 0),
            found,
            "slot {slot}"
        );
    }
}

/// One word after another.
fn plain_match(words: &[u64], mask: u64, value: u64, from: usize) -> Option<usize> {
    for (index, word) in words.iter().enumerate() {
        if index >= from && *word & mask == value {
            return Some(index);
        }
    }
    None
}

/// Compares the two searches at several starts.
fn agrees(rt: &impl Abort, words: &[u64]) {
    for from in [0, 1, 5, 7, 8, 9, 16, 62, 64, 69, 70, 71] {
        assert_eq!(rt;
            next_match(words, 16, 16, from),
            plain_match(words, 16, 16, from),
            "from {from} in {words:?}"
        );
    }
}

/// Compares them at each length up to 70.
fn agrees_at_each_length(rt: &impl Abort, words: &[u64; 70]) {
    for length in 0..=70 {
        agrees(rt, &words[..length]);
    }
}

#[test]
fn equals_a_plain_loop(rt: HostRuntime) {
    let mut words = [3u64; 70];
    agrees_at_each_length(&rt, &words);
    for place in 0..70 {
        words[place] = 19;
        agrees_at_each_length(&rt, &words);
        words[place] = 3;
    }
    agrees_at_each_length(&rt, &[16u64; 70]);
}
