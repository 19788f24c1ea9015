ghost use Rattle.es_tokens.specs.inner.GapMachine.{gap_left};

use crate::character::{is_blank, is_terminator};
use crate::machine::Machine;

/// Where a gap stands.
#[derive(Clone, Copy)]
pub(crate) enum Gap {
    /// At the start of the text.
    First,
    Hash,
    Hashbang,
    Between,
    Slash,
    /// In a comment up to the line's end.
    Line,
    /// In a comment up to `*/`.
    Block,
    /// Behind a `*` of that.
    Star,
}

impl Machine for Gap {
    ghost shape = { gap_left };

    fn can_end(self) -> bool {
        matches!(self, Gap::First | Gap::Hashbang | Gap::Between | Gap::Line)
    }

    #[tactic(auto, using(crate::proofs::Literals::literals))]
    fn step(self, c: char) -> Option<Gap> {
        match self {
            Gap::First => match c {
                '/' => Some(Gap::Slash),
                '#' => Some(Gap::Hash),
                _ => is_blank(c).then_some(Gap::Between),
            },
            Gap::Hash => match c {
                '!' => Some(Gap::Hashbang),
                _ => None,
            },
            Gap::Hashbang => Some(if is_terminator(c) {
                Gap::Between
            } else {
                Gap::Hashbang
            }),
            Gap::Between => match c {
                '/' => Some(Gap::Slash),
                _ => is_blank(c).then_some(Gap::Between),
            },
            Gap::Slash => match c {
                '/' => Some(Gap::Line),
                '*' => Some(Gap::Block),
                _ => None,
            },
            Gap::Line => Some(if is_terminator(c) {
                Gap::Between
            } else {
                Gap::Line
            }),
            Gap::Block => match c {
                '*' => Some(Gap::Star),
                _ => Some(Gap::Block),
            },
            Gap::Star => match c {
                '/' => Some(Gap::Between),
                '*' => Some(Gap::Star),
                _ => Some(Gap::Block),
            },
        }
    }
}
