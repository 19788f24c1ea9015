//! A file's word: 0, or its owner's number and one, twice, and one more once its record is published.
ghost use Rattle.std.specs.Prelude.{◌≡◌, ◌+◌, ◌-◌, ◌*◌, ◌/◌, ◌^◌, ◌<◌, ◌≤◌};

pub(crate) fn claimed_by(seat: u32) -> u64
    ensures { result ≡ 2 * (seat + 1) }
{
    2 * (seat as u64 + 1)
}

pub(crate) fn published_by(seat: u32) -> u64
    ensures { result ≡ 2 * (seat + 1) + 1 }
{
    2 * (seat as u64 + 1) + 1
}

/// The owner that a word names.
pub(crate) fn owner_in(word: u64) -> u32
    requires { (2 ≤ word) × (word / 2 - 1 < 2 ^ 32) }
    ensures { result ≡ word / 2 - 1 }
{
    (word / 2 - 1) as u32
}
