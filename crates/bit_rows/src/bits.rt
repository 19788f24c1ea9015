//! The bits of one word, and the next word that has any.

ghost use Rattle.std.specs.Prelude.{◌≡◌, ◌≢◌, ℕ, ◌-◌, ◌^◌, ◌<◌, ◌≤◌, MatchOption, slice_index, if◌then◌else◌};
ghost use Rattle.std.specs.Int.{bit_at};
ghost use Rattle.bit_rows.specs.Words.{IsNextWord};

pub(crate) const WORD_BITS: u32 = 64;

/// The word with the bit at the place set or cleared.
pub(crate) fn with_bit(word: u64, place: u32, to: bool) -> u64
    requires { place < 64 }
    ensures here { bit_at result place ≡ (if to then 1 else 0) }
    ensures elsewhere { (i : ℕ) → i < 64 → i ≢ place → bit_at result i ≡ bit_at word i }
{
    let bit = 1u64 << place;
    if to { word | bit } else { word & !bit }
}

/// The word without its bits below the place.
pub(crate) fn bits_from(word: u64, place: u32) -> u64
    requires { place < 64 }
    ensures below { (i : ℕ) → i < place → bit_at result i ≡ 0 }
    ensures kept { (i : ℕ) → place ≤ i → i < 64 → bit_at result i ≡ bit_at word i }
{
    word & (u64::MAX << place)
}

/// The word whose bits below the place are set, and no others.
pub(crate) fn bits_below(place: u32) -> u64
    requires { place ≤ 64 }
    ensures { result ≡ 2 ^ place - 1 }
{
    if place == WORD_BITS {
        return u64::MAX;
    }
    (1u64 << place) - 1
}

/// The first word from `from` on that is not zero.
pub(crate) fn next_word(words: &[u64], from: usize) -> Option<usize>
    ensures { MatchOption result ((k : ℕ) → from ≤ k → slice_index words.now k ≡ 0)
        (IsNextWord words.now from) }
{
    for k in from..words.len() {
        if words[k] != 0 {
            return Some(k);
        }
    }
    None
}
