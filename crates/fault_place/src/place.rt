ghost use Rattle.std.specs.Prelude.{◌≡◌, ◌≤◌, ◌+◌, ◌==◌, not, length, reverse, count_by, take_while, IfOk};
ghost use Rattle.fault_place.specs.Place.{place_in};

use crate::{NoMemory, Text};
use std::alloc::Global;

/// A place in a file: its path, the offset in bytes, and line and column, both from 1.
#[derive(Clone, PartialEq, Eq, Drop)]
pub struct Place {
    pub path: Text,
    pub offset: u64,
    pub line: u64,
    pub column: u64,
}

/// A place in the text of the configuration.
#[derive(Clone, Copy, PartialEq, Eq)]
pub struct Spot {
    pub offset: u64,
    pub line: u64,
    pub column: u64,
}

impl Spot {
    ghost use Rattle.fault_place.specs.Place.{spot_at};

    /// The place of an offset in a text.
    pub fn new(text: &[u8], offset: u64) -> Spot
        requires { offset ≤ length text.now }
        ensures { result ≡ spot_at text.now offset }
    {
        let before = &text[..offset as usize];
        Spot {
            offset,
            line: line_after(before),
            column: column_after(before),
        }
    }
}

fn line_after(before: &[u8]) -> u64
    ensures { result ≡ count_by (λ byte. byte == 10) before.now + 1 }
{
    let ends = before.iter().filter(|byte| **byte == b'\n').count();
    ends as u64 + 1
}

fn column_after(before: &[u8]) -> u64
    ensures { result ≡ length (take_while (λ byte. not (byte == 10)) (reverse before.now)) + 1 }
{
    let mut column = 1;
    for byte in before {
        column = if *byte == b'\n' { 1 } else { column + 1 };
    }
    column
}

/// The place of an offset in the text of a file.
pub fn place_at(alloc: Global, path: &str, text: &[u8], offset: u64) -> Result<Place, NoMemory>
    requires { offset ≤ length text.now }
    ensures { IfOk result (λ place. place ≡ place_in path.now text.now offset) }
{
    let spot = Spot::new(text, offset);
    Ok(Place {
        path: Text::new(alloc, path)?,
        offset,
        line: spot.line,
        column: spot.column,
    })
}
