ghost use Rattle.std.specs.Prelude.{◌≡◌, MatchOption};
ghost use Rattle.es_tokens.specs.Shape.{no_text, after_first};
ghost use Rattle.es_tokens.specs.NumberShape.{number_rest};
ghost use Rattle.es_tokens.specs.inner.NumberMachine.{number_left};

use crate::character::{is_digit, is_number_part};
use crate::machine::Machine;

/// Where a number stands.
#[derive(Clone, Copy)]
pub(crate) enum Number {
    Decimal,
    /// Behind a leading `.`.
    Point,
    Rest,
    /// Behind an `e`, which a sign may follow.
    Exponent,
    NonDecimal,
    Digits,
}

#[tactic(auto, using(crate::proofs::Literals::literals))]
fn after_digit(c: char) -> Option<Number>
    ensures { MatchOption result (after_first number_rest c ≡ no_text)
        (λ next. after_first number_rest c ≡ number_left next) }
{
    match c {
        'e' | 'E' => Some(Number::Exponent),
        _ => is_number_part(c).then_some(Number::Rest),
    }
}

impl Machine for Number {
    ghost shape = { number_left };

    fn can_end(self) -> bool {
        matches!(self, Number::Rest | Number::Exponent | Number::Digits)
    }

    #[tactic(auto, using(crate::proofs::Literals::literals))]
    fn step(self, c: char) -> Option<Number> {
        match self {
            Number::Decimal => match c {
                '.' => Some(Number::Point),
                _ => is_digit(c).then_some(Number::Rest),
            },
            Number::Point => is_digit(c).then_some(Number::Rest),
            Number::Rest => after_digit(c),
            Number::Exponent => match c {
                '+' | '-' => Some(Number::Rest),
                _ => after_digit(c),
            },
            Number::NonDecimal => match c {
                '0' => Some(Number::Digits),
                _ => None,
            },
            Number::Digits => is_number_part(c).then_some(Number::Digits),
        }
    }
}
