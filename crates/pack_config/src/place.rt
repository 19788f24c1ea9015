//! Places in the text of the configuration.
ghost use Rattle.std.specs.Prelude.{◌≡◌, ◌≤◌, ◌<◌, ◌+◌, ◌-◌, ◌*◌, ◌^◌, All, IfOk};
ghost use Rattle.fault_place.specs.Place.{spot_at};
ghost use Rattle.pack_config.specs.inner.Marks.{IsMark};

use fault_place::Spot;
use pack_util::NoMemory;
use std::alloc::Global;
use std::marker::Model;

/// How many bytes lie between two marks.
const STRIDE: u64 = 256;

/// A text with marks, places of it that are known, so that places are found soon in any order.
#[derive(Drop)]
pub(crate) struct Places<'a> {
    text: &'a [u8],
    marks: Vec<Spot>,
}

impl<'a> Model for Places<'a> {
    ghost use Rattle.std.specs.Prelude.{ℕ, List, All};
    ghost use Rattle.pack_config.specs.inner.Marks.{IsMark};

    ghost Value = { List ℕ };

    ghost view = { λ places. places.text.now };

    ghost invariant = { λ places. All (IsMark places.text.now) places.marks.items };
}

/// The first place of every text.
pub(crate) const FIRST: Spot = Spot {
    offset: 0,
    line: 1,
    column: 1,
};

impl<'a> Places<'a> {
    pub(crate) fn new(alloc: Global, text: &'a [u8]) -> Result<Places<'a>, NoMemory>
        ensures { IfOk result (λ places. places ≡ text.now) }
    {
        Ok(Places {
            text,
            marks: marks(alloc, text)?,
        })
    }

    /// The place of an offset in the text.
    pub(crate) fn spot(&self, offset: u64) -> Spot
        ensures { result ≡ spot_at self.now offset }
    {
        let mark = mark_before(self.text, &self.marks, offset);
        spot_after(self.text, mark, offset)
    }
}

/// The places at all multiples of the stride.
fn marks(alloc: Global, text: &[u8]) -> Result<Vec<Spot>, NoMemory>
    ensures { IfOk result (λ marks. All (IsMark text.now) marks.items) }
{
    let mut marks = Vec::new(alloc);
    let mut spot = FIRST;
    for number in 0..text.len() as u64 / STRIDE + 1 {
        marks.push(spot)?;
        spot = spot_after(text, spot, (number + 1) * STRIDE);
    }
    Ok(marks)
}

/// A place that isn't behind an offset: the last mark that is so, where there is one.
fn mark_before(text: &[u8], marks: &[Spot], offset: u64) -> Spot
    requires { All (IsMark text.now) marks.now }
    ensures mark { IsMark text.now result }
    ensures before { result.offset ≤ offset }
{
    match marks.get((offset / STRIDE) as usize) {
        Some(mark) if mark.offset <= offset => *mark,
        _ => FIRST,
    }
}

/// The place of an offset, which isn't before a place that is known.
fn spot_after(text: &[u8], start: Spot, offset: u64) -> Spot
    requires start { IsMark text.now start }
    requires before { start.offset ≤ offset }
    ensures { result ≡ spot_at text.now offset }
{
    let mut spot = start;
    while spot.offset < offset {
        spot = next_spot(text, spot);
    }
    spot
}

fn next_spot(text: &[u8], spot: Spot) -> Spot
    requires spot { IsMark text.now spot }
    requires end { spot.offset < 2 ^ 64 - 1 }
    ensures { result ≡ spot_at text.now (spot.offset + 1) }
{
    let offset = spot.offset + 1;
    match text.get(spot.offset as usize) {
        Some(b'\n') => Spot {
            offset,
            line: spot.line + 1,
            column: 1,
        },
        Some(_) => Spot {
            offset,
            line: spot.line,
            column: spot.column + 1,
        },
        None => Spot {
            offset,
            line: spot.line,
            column: spot.column,
        },
    }
}
