//! Numbers with leading zeros.
ghost use Rattle.std.specs.Prelude.{◌≡◌, ◌++◌, ◌+◌, ◌<◌, ◌∷◌, [], string_bytes, OnOk};
ghost use Rattle.tree_sample.specs.Sample.{digits};

use pack_util::NoMemory;

/// Appends the last so many digits of a number.
fn push_digits(text: &mut String, count: u32, number: u32) -> Result<(), NoMemory>
    ensures { OnOk result (string_bytes text.new ≡ string_bytes text.old ++ digits count number) }
{
    if count == 0 {
        return Ok(());
    }
    push_digits(text, count - 1, number / 10)?;
    push_digit(text, (number % 10) as u8)
}

fn push_digit(text: &mut String, digit: u8) -> Result<(), NoMemory>
    requires { digit < 10 }
    ensures { OnOk result (string_bytes text.new ≡ string_bytes text.old ++ (48 + digit) ∷ []) }
{
    text.push(char::from(b'0' + digit))
}

/// Appends a text that has a number in it.
pub(crate) fn push_numbered(
    text: &mut String,
    before: &str,
    count: u32,
    number: u32,
    after: &str,
) -> Result<(), NoMemory>
    ensures { OnOk result (string_bytes text.new ≡ string_bytes text.old ++ (before.now ++ (digits count number ++ after.now))) }
{
    text.push_str(before)?;
    push_digits(text, count, number)?;
    text.push_str(after)?;
    Ok(())
}
