//! How many bits of words are set.

ghost use Rattle.std.specs.Prelude.{◌≡◌, ◌-◌, ◌*◌, ◌/◌, ◌^◌, ◌<◌, ◌≤◌, length, take, drop, count_ones};
ghost use Rattle.std.specs.List.{sum_by};

use crate::lanes::{LANES, block_at};
use std::simd::prelude::*;

fn count_in_blocks(words: &[u64]) -> u64
    requires { length words.now < 2 ^ 32 }
    ensures bits { result ≡ sum_by count_ones (take (8 * (length words.now / 8)) words.now) }
    ensures bound { result ≤ 64 * length words.now }
{
    let mut totals = u64x8::splat(0);
    for block in 0..words.len() / LANES {
        totals = totals + block_at(words, LANES * block).count_ones();
    }
    totals.reduce_sum()
}

fn count_in_rest(words: &[u64], from: usize) -> u64
    requires { (length words.now < 2 ^ 32) × (from ≤ length words.now) }
    ensures bits { result ≡ sum_by count_ones (drop from words.now) }
    ensures bound { result ≤ 64 * (length words.now - from) }
{
    let mut total = 0;
    for k in from..words.len() {
        total += u64::from(words[k].count_ones());
    }
    total
}

/// How many bits of the words are set.
pub(crate) fn count_of_ones(words: &[u64]) -> u64
    requires { length words.now < 2 ^ 32 }
    ensures { result ≡ sum_by count_ones words.now }
{
    count_in_blocks(words) + count_in_rest(words, LANES * (words.len() / LANES))
}
