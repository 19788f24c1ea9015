//! Numbers in words.
ghost use Rattle.std.specs.Prelude.{◌≡◌, ◌<◌, ◌^◌, IsTrue};
ghost use Rattle.std.specs.Char.{is_ascii_digit};
ghost use Rattle.std.specs.List.{list_all};
ghost use Rattle.cli_words.specs.inner.Reading.{has_digits, number_within};

/// The number that a word writes, where it is one within bounds.
pub(crate) fn number_of(word: &str, low: u32, high: u32) -> Option<u32>
    ensures { result ≡ number_within low high word.now }
{
    if !has_digits(word) {
        return None;
    }
    within(word, low, high)
}

/// Whether a word is digits, and few enough.
fn has_digits(word: &str) -> bool
    ensures { result ≡ has_digits word.now }
{
    1 <= word.len() && word.len() <= 9 && has_only_digits(word)
}

fn has_only_digits(word: &str) -> bool
    ensures { result ≡ list_all is_ascii_digit word.now }
{
    word.bytes().all(|byte| byte.is_ascii_digit())
}

fn within(word: &str, low: u32, high: u32) -> Option<u32>
    requires { IsTrue (has_digits word.now) }
    ensures { result ≡ number_within low high word.now }
{
    match word.parse::<u32>() {
        Ok(number) if low <= number && number <= high => Some(number),
        _ => None,
    }
}
