//! Where an operation on two lists of words gives a bit, and whether it gives nothing but zero.

ghost use Rattle.std.specs.Prelude.{◌≡◌, ◌*◌, ◌/◌, ◌≤◌, ◌↔◌, length, IsTrue, MatchOption};
ghost use Rattle.std.specs.List.{All};
ghost use Rattle.bit_rows.specs.Words.{GivesNone, GivesFirst};

use crate::lanes::{LANES, block_at, has_bits};
use crate::operations::WordOperation;

/// How many whole blocks stand before the first in which the operation gives a bit.
fn blocks_of_none<O: WordOperation>(words: &[u64], others: &[u64]) -> usize
    requires { length words.now ≡ length others.now }
    ensures bound { result ≤ length words.now / 8 }
    ensures none { GivesNone O.word words.now others.now 0 (8 * result) }
{
    let blocks = words.len() / LANES;
    for block in 0..blocks {
        let own = block_at(words, LANES * block);
        let other = block_at(others, LANES * block);
        if has_bits(O::apply_to_lanes(own, other)) {
            return block;
        }
    }
    blocks
}

/// The first place at which the operation gives a bit.
pub(crate) fn first_of_some<O: WordOperation>(words: &[u64], others: &[u64]) -> Option<usize>
    requires { length words.now ≡ length others.now }
    ensures { MatchOption result (GivesNone O.word words.now others.now 0 (length words.now))
        (GivesFirst O.word words.now others.now) }
{
    for k in LANES * blocks_of_none::<O>(words, others)..words.len() {
        if O::apply(words[k], others[k]) != 0 {
            return Some(k);
        }
    }
    None
}

/// Whether the operation gives zero at each pair of words.
pub(crate) fn is_none<O: WordOperation>(words: &[u64], others: &[u64]) -> bool
    requires { length words.now ≡ length others.now }
    ensures { IsTrue result ↔ GivesNone O.word words.now others.now 0 (length words.now) }
{
    first_of_some::<O>(words, others).is_none()
}

pub(crate) fn are_zero(words: &[u64]) -> bool
    ensures { IsTrue result ↔ All (λ word. word ≡ 0) words.now }
{
    words.iter().all(|word| *word == 0)
}
