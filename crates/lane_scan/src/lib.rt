//! A search over words, several at a time.
//!
//! It compares four words at once by the lanes of `std::simd`, and the words that are left one by one.
#![tactic(auto)]

#[cfg(test)]
mod tests;

ghost use Rattle.std.specs.Prelude.{◌+◌, ◌*◌, ◌/◌, ◌-◌, ◌≤◌, length, IfSome, IfNone};
ghost use Rattle.lane_scan.specs.Matches.{IsFirstMatch, NoneMatches};

use std::simd::prelude::*;

/// How many words are compared at once.
const LANES: usize = 4;

/// The least index `i` at or after `from` with `words[i] & mask == value`. It is None where there is none, as for a
/// `from` behind the last word, and for a value with a bit that the mask lacks.
pub fn next_match(words: &[u64], mask: u64, value: u64, from: usize) -> Option<usize>
    ensures found { IfSome result (IsFirstMatch words.now mask value from) }
    ensures none { IfNone result (NoneMatches words.now mask value from (length words.now)) }
{
    if from >= words.len() {
        return None;
    }
    if let Some(index) = match_in_blocks(words, mask, value, from) {
        return Some(index);
    }
    let rest = from + (words.len() - from) / LANES * LANES;
    match_one_by_one(words, mask, value, rest)
}

/// Searches the whole blocks of words that begin at `from`.
fn match_in_blocks(words: &[u64], mask: u64, value: u64, from: usize) -> Option<usize>
    requires { from ≤ length words.now }
    ensures found { IfSome result (IsFirstMatch words.now mask value from) }
    ensures none { IfNone result (NoneMatches words.now mask value from (from + (length words.now - from) / LANES * LANES)) }
{
    for block in 0..(words.len() - from) / LANES {
        if let Some(index) = match_in_block(words, mask, value, from + block * LANES) {
            return Some(index);
        }
    }
    None
}

/// Searches the block of words that begins at `at`.
#[inline(always)]
fn match_in_block(words: &[u64], mask: u64, value: u64, at: usize) -> Option<usize>
    requires { at + LANES ≤ length words.now }
    ensures found { IfSome result (IsFirstMatch words.now mask value at) }
    ensures none { IfNone result (NoneMatches words.now mask value at (at + LANES)) }
{
    let masked = u64x4::from_slice(&words[at..]) & u64x4::splat(mask);
    let matching = masked.simd_eq(u64x4::splat(value)).to_bitmask();
    if matching == 0 {
        None
    } else {
        Some(at + matching.trailing_zeros() as usize)
    }
}

/// Searches the words from `from` on.
fn match_one_by_one(words: &[u64], mask: u64, value: u64, from: usize) -> Option<usize>
    ensures found { IfSome result (IsFirstMatch words.now mask value from) }
    ensures none { IfNone result (NoneMatches words.now mask value from (length words.now)) }
{
    for index in from..words.len() {
        if words[index] & mask == value {
            return Some(index);
        }
    }
    None
}
