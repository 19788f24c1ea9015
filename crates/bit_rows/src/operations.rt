//! Operations on words, and what each does to the places that two words hold.

ghost use Rattle.std.specs.Prelude.{◌≡◌, ℕ, ◌≤◌, Bool, not, ◌&&◌, ◌||◌, List, length, bit_and, bit_or, bit_xor, if◌then◌else◌};
ghost use Rattle.std.specs.Int.{bit_not, w64};
ghost use Rattle.std.specs.Simd.Lanes.{zip2, mask_l};
ghost use Rattle.bit_rows.specs.Masks.{or-masks, and-masks, minus-masks, xor-masks};

use std::simd::prelude::*;

/// An operation on words, and what it does to each pair of their bits.
pub(crate) trait WordOperation {
    ghost bit: { Bool → Bool → Bool };

    ghost word: { ℕ → ℕ → ℕ };

    fn apply(a: u64, b: u64) -> u64
        ensures { result ≡ word a b };

    fn apply_to_lanes(a: u64x8, b: u64x8) -> u64x8
        requires { (length a ≡ 8) × (length b ≡ 8) }
        ensures { result ≡ zip2 word a b };

    ghost works_by_bits: { (xs ys : List Bool) → length xs ≡ length ys → length xs ≤ 64 → word (mask_l xs) (mask_l ys) ≡ mask_l (zip2 bit xs ys) };
}

pub(crate) struct Union;

pub(crate) struct Meet;

pub(crate) struct Minus;

pub(crate) struct Differ;

impl WordOperation for Union {
    ghost bit = { λ x y. x || y };

    ghost word = { bit_or };

    ghost works_by_bits = { or-masks };

    #[inline(always)]
    fn apply(a: u64, b: u64) -> u64 {
        a | b
    }

    #[inline(always)]
    fn apply_to_lanes(a: u64x8, b: u64x8) -> u64x8 {
        a | b
    }
}

impl WordOperation for Meet {
    ghost bit = { λ x y. x && y };

    ghost word = { bit_and };

    ghost works_by_bits = { and-masks };

    #[inline(always)]
    fn apply(a: u64, b: u64) -> u64 {
        a & b
    }

    #[inline(always)]
    fn apply_to_lanes(a: u64x8, b: u64x8) -> u64x8 {
        a & b
    }
}

impl WordOperation for Minus {
    ghost bit = { λ x y. x && not y };

    ghost word = { λ a b. bit_and a (bit_not w64 b) };

    ghost works_by_bits = { minus-masks };

    #[inline(always)]
    fn apply(a: u64, b: u64) -> u64 {
        a & !b
    }

    #[inline(always)]
    fn apply_to_lanes(a: u64x8, b: u64x8) -> u64x8 {
        a & !b
    }
}

impl WordOperation for Differ {
    ghost bit = { λ x y. if x then not y else y };

    ghost word = { bit_xor };

    ghost works_by_bits = { xor-masks };

    #[inline(always)]
    fn apply(a: u64, b: u64) -> u64 {
        a ^ b
    }

    #[inline(always)]
    fn apply_to_lanes(a: u64x8, b: u64x8) -> u64x8 {
        a ^ b
    }
}
