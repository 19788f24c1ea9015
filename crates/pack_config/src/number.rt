//! Whole numbers as JSON writes them.
ghost use Rattle.std.specs.Prelude.{◌≡◌, IsTrue, if◌then◌else◌};
ghost use Rattle.std.specs.Char.{is_ascii_digit};
ghost use Rattle.std.specs.List.{list_all};
ghost use Rattle.pack_config.specs.Values.{fits_32, has_minus, is_whole, is_within, magnitude_of, signed_by, whole_in, within};

/// Whether a number is digits alone.
pub(crate) fn is_whole(word: &str) -> bool
    ensures { result ≡ is_whole word.now }
{
    !word.is_empty() && has_only_digits(word)
}

fn has_only_digits(word: &str) -> bool
    ensures { result ≡ list_all is_ascii_digit word.now }
{
    word.bytes().all(|byte| byte.is_ascii_digit())
}

/// The number that digits write, where it is within bounds.
pub(crate) fn within(digits: &str, low: u32, high: u32) -> Option<u32>
    requires { IsTrue (is_whole digits.now) }
    ensures { result ≡ within low high (whole_in digits.now) }
{
    match digits.parse::<u32>() {
        Ok(number) if low <= number && number <= high => Some(number),
        _ => None,
    }
}

pub(crate) fn has_minus(word: &str) -> bool
    ensures { result ≡ has_minus word.now }
{
    word.starts_with('-')
}

pub(crate) fn magnitude_of(word: &str) -> &str
    ensures { result.now ≡ magnitude_of word.now }
{
    match word.strip_prefix('-') {
        Some(digits) => digits,
        None => word,
    }
}

/// The greatest magnitude of a number of 32 bits with a sign.
pub(crate) fn limit_of(minus: bool) -> u32
    ensures { result ≡ (if minus then 2_147_483_648 else 2_147_483_647) }
{
    if minus { 2_147_483_648 } else { 2_147_483_647 }
}

pub(crate) fn signed_by(minus: bool, magnitude: u32) -> i32
    requires { IsTrue (fits_32 minus magnitude) }
    ensures { result ≡ signed_by minus magnitude }
{
    let number = i64::from(magnitude);
    if minus { -number as i32 } else { number as i32 }
}
