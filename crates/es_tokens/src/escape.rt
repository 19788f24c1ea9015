ghost use Rattle.es_tokens.specs.inner.NameMachine.{value_rest, escape_rest};

use crate::character::is_hex;
use crate::machine::Machine;

/// Where the hexadecimal value of an escape stands.
#[derive(Clone, Copy)]
pub(crate) enum Value {
    Start,
    Zeros,
    /// Behind a leading 1, which a 0 and four digits may follow.
    One,
    /// At most four digits may come, and so on.
    Four,
    Three,
    Two,
    Last,
    Full,
    /// Behind `10`: at most three digits may come or exactly four, and so on.
    WideFour,
    WideThree,
    WideTwo,
    WideLast,
}

/// Where an escape stands.
#[derive(Clone, Copy)]
pub(crate) enum Escape {
    Backslash,
    Kind,
    Hex3,
    Hex2,
    Hex1,
    Braced(Value),
    Done,
}

impl Machine for Value {
    ghost shape = { value_rest };

    fn can_end(self) -> bool {
        !matches!(self, Value::Start)
    }

    #[tactic(auto, using(crate::proofs::Literals::literals))]
    fn step(self, c: char) -> Option<Value> {
        match self {
            Value::Start | Value::Zeros => match c {
                '0' => Some(Value::Zeros),
                '1' => Some(Value::One),
                _ => is_hex(c).then_some(Value::Four),
            },
            Value::One => match c {
                '0' => Some(Value::WideFour),
                _ => is_hex(c).then_some(Value::Three),
            },
            Value::Four => is_hex(c).then_some(Value::Three),
            Value::Three => is_hex(c).then_some(Value::Two),
            Value::Two => is_hex(c).then_some(Value::Last),
            Value::Last => is_hex(c).then_some(Value::Full),
            Value::Full => None,
            Value::WideFour => is_hex(c).then_some(Value::WideThree),
            Value::WideThree => is_hex(c).then_some(Value::WideTwo),
            Value::WideTwo => is_hex(c).then_some(Value::WideLast),
            Value::WideLast => is_hex(c).then_some(Value::Full),
        }
    }
}

impl Machine for Escape {
    ghost shape = { escape_rest };

    #[tactic(auto, using(crate::proofs::ShapeLemmas::braces))]
    fn can_end(self) -> bool {
        matches!(self, Escape::Done)
    }

    #[tactic(auto, using(crate::proofs::Literals::literals, crate::proofs::ShapeLemmas::braces))]
    fn step(self, c: char) -> Option<Escape> {
        match self {
            Escape::Backslash => match c {
                'u' => Some(Escape::Kind),
                _ => None,
            },
            Escape::Kind => match c {
                '{' => Some(Escape::Braced(Value::Start)),
                _ => is_hex(c).then_some(Escape::Hex3),
            },
            Escape::Hex3 => is_hex(c).then_some(Escape::Hex2),
            Escape::Hex2 => is_hex(c).then_some(Escape::Hex1),
            Escape::Hex1 => is_hex(c).then_some(Escape::Done),
            Escape::Braced(value) => {
                if c == '}' {
                    value.can_end().then_some(Escape::Done)
                } else {
                    Some(Escape::Braced(value.step(c)?))
                }
            }
            Escape::Done => None,
        }
    }
}
