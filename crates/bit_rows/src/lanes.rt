//! A block of words, as the lanes of a vector.

ghost use Rattle.std.specs.Prelude.{◌≡◌, ◌+◌, ◌≤◌, ◌↔◌, false, length};
ghost use Rattle.std.specs.Simd.Lanes.{chunk};
ghost use Rattle.bit_rows.specs.Words.{AreZero};

use std::simd::prelude::*;

pub(crate) const LANES: usize = 8;

/// The words at `at` and on, as lanes.
#[inline(always)]
pub(crate) fn block_at(words: &[u64], at: usize) -> u64x8
    requires { at + 8 ≤ length words.now }
    ensures { result ≡ chunk at 8 words.now }
{
    u64x8::from_slice(&words[at..])
}

/// Whether a lane is not zero.
#[inline(always)]
pub(crate) fn has_bits(lanes: u64x8) -> bool
    requires { length lanes ≡ 8 }
    ensures { result ≡ false ↔ AreZero lanes }
{
    lanes.reduce_or() != 0
}
