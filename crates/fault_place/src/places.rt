ghost use Rattle.std.specs.Prelude.{◌≡◌, ◌≤◌, ◌+◌, length, IfOk};
ghost use Rattle.fault_place.specs.Place.{place_in, spot_at};
ghost use Rattle.fault_place.specs.inner.Place.{IsSpotIn};

use crate::{NoMemory, Place, Spot, Text};
use std::alloc::Global;
use std::marker::Model;

/// The places in one text, which contracts see as the text. Offsets that rise are placed in one pass over it; one that
/// falls begins a new pass.
#[derive(Drop)]
pub struct Places<'a> {
    text: &'a [u8],
    /// The last place that was asked for.
    spot: Spot,
}

impl<'a> Model for Places<'a> {
    ghost use Rattle.std.specs.Prelude.{ℕ, List};
    ghost use Rattle.std.specs.Coded.{coded_list, coded_ℕ};
    ghost use Rattle.fault_place.specs.inner.Place.{IsSpotIn};

    ghost Value = { List ℕ };

    ghost coded = { coded_list coded_ℕ };

    ghost view = { λ places. places.text.now };

    ghost invariant = { λ places. IsSpotIn places.text.now places.spot };
}

impl<'a> Places<'a> {
    /// Takes no memory.
    pub fn new(text: &'a [u8]) -> Places<'a>
        ensures { result ≡ text.now }
    {
        Places { text, spot: START }
    }

    /// The place of an offset, without a path. Takes no memory.
    pub fn spot(&mut self, offset: u64) -> Spot
        requires { offset ≤ length self.old }
        ensures spot { result ≡ spot_at self.old offset }
        ensures text { self.new ≡ self.old }
    {
        let from = if offset < self.spot.offset {
            START
        } else {
            self.spot
        };
        self.spot = spot_behind(self.text, from, offset);
        self.spot
    }

    /// The place of an offset in the text at a path.
    pub fn place(&mut self, alloc: Global, path: &str, offset: u64) -> Result<Place, NoMemory>
        requires { offset ≤ length self.old }
        ensures place { IfOk result (λ place. place ≡ place_in path.now self.old offset) }
        ensures text { self.new ≡ self.old }
    {
        let spot = self.spot(offset);
        Ok(Place {
            path: Text::new(alloc, path)?,
            offset,
            line: spot.line,
            column: spot.column,
        })
    }
}

/// Where each text begins.
const START: Spot = Spot {
    offset: 0,
    line: 1,
    column: 1,
};

/// The place of an offset that isn't before a place.
fn spot_behind(text: &[u8], spot: Spot, offset: u64) -> Spot
    requires from { IsSpotIn text.now spot }
    requires behind { spot.offset ≤ offset }
    requires within { offset ≤ length text.now }
    ensures is { IsSpotIn text.now result }
    ensures at { result.offset ≡ offset }
{
    let mut line = spot.line;
    let mut column = spot.column;
    for at in spot.offset..offset {
        if text[at as usize] == b'\n' {
            line += 1;
            column = 1;
        } else {
            column += 1;
        }
    }
    Spot {
        offset,
        line,
        column,
    }
}
