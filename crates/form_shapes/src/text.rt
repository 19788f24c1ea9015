ghost use Rattle.std.specs.Prelude.{◌≡◌, ◌-◌, IfOk, length, slice_range};
ghost use Rattle.form_shapes.specs.Text.{unquoted};

use crate::part_between;
use pack_util::{NoMemory, Text};
use std::alloc::{AllocError, Global};
use std::str;

/// Bytes as text.
pub fn as_text(bytes: &[u8]) -> Result<&str, NoMemory>
    ensures { IfOk result (λ text. text.now ≡ bytes.now) }
{
    match str::from_utf8(bytes) {
        Ok(text) => Ok(text),
        Err(_) => Err(AllocError),
    }
}

/// A text of these bytes.
pub fn owned(alloc: Global, bytes: &[u8]) -> Result<Text, NoMemory>
    ensures { IfOk result (λ text. text ≡ bytes.now) }
{
    match as_text(bytes) {
        Ok(text) => Text::new(alloc, text),
        Err(error) => Err(error),
    }
}

/// What stands between a string's quotes.
pub fn unquoted(bytes: &[u8]) -> &[u8]
    ensures { result.now ≡ unquoted bytes.now }
{
    part_between(bytes, 1, bytes.len().saturating_sub(1))
}
