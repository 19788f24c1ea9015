//! Words combined with others, and whether that changed them.

ghost use Rattle.std.specs.Prelude.{◌≡◌, ◌≢◌, ◌+◌, ◌*◌, ◌/◌, ◌≤◌, ◌↔◌, length};
ghost use Rattle.std.specs.Bool.{MatchBool};
ghost use Rattle.std.specs.Simd.Lanes.{zip2};
ghost use Rattle.bit_rows.specs.Words.{IsCombined, AreZero};

use crate::lanes::{LANES, block_at, has_bits};
use crate::operations::WordOperation;
use std::simd::prelude::*;

/// Combines one block, and adds the bits that changed to those that did.
#[inline(always)]
fn combine_block<O: WordOperation>(
    into: &mut [u64],
    other: &[u64],
    at: usize,
    changes: u64x8,
) -> u64x8
    requires room { (at + 8 ≤ length into.old) × (length into.old ≡ length other.now) }
    requires lanes { length changes ≡ 8 }
    ensures words { IsCombined O.word into.old other.now into.new at (at + 8) }
    ensures lanes { length result ≡ 8 }
    ensures changes { AreZero result ↔ (AreZero changes × (into.new ≡ into.old)) }
{
    let old = block_at(into, at);
    let new = O::apply_to_lanes(old, block_at(other, at));
    new.copy_to_slice(&mut into[at..]);
    changes | (old ^ new)
}

fn combine_blocks<O: WordOperation>(into: &mut [u64], other: &[u64]) -> bool
    requires { length into.old ≡ length other.now }
    ensures words { IsCombined O.word into.old other.now into.new 0 (8 * (length into.old / 8)) }
    ensures changed { MatchBool result (into.new ≢ into.old) (into.new ≡ into.old) }
{
    let mut changes = u64x8::splat(0);
    for block in 0..into.len() / LANES {
        changes = combine_block::<O>(into, other, LANES * block, changes);
    }
    has_bits(changes)
}

fn combine_rest<O: WordOperation>(into: &mut [u64], other: &[u64], from: usize) -> bool
    requires { (length into.old ≡ length other.now) × (from ≤ length into.old) }
    ensures words { IsCombined O.word into.old other.now into.new from (length into.old) }
    ensures changed { MatchBool result (into.new ≢ into.old) (into.new ≡ into.old) }
{
    let mut changes = 0;
    for k in from..into.len() {
        let old = into[k];
        let new = O::apply(old, other[k]);
        into[k] = new;
        changes |= old ^ new;
    }
    changes != 0
}

/// Says whether a word changed.
pub(crate) fn combine<O: WordOperation>(into: &mut [u64], other: &[u64]) -> bool
    requires { length into.old ≡ length other.now }
    ensures words { into.new ≡ zip2 O.word into.old other.now }
    ensures changed { MatchBool result (into.new ≢ into.old) (into.new ≡ into.old) }
{
    let whole = LANES * (into.len() / LANES);
    let in_blocks = combine_blocks::<O>(into, other);
    let in_rest = combine_rest::<O>(into, other, whole);
    in_blocks || in_rest
}
