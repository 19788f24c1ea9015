ghost use Rattle.std.specs.Prelude.{◌≡◌, ◌+◌, ◌*◌};
ghost use Rattle.json_order.specs.inner.Modes.{first_part, next_part, is_final, first_digit, digit, after_integer, after_fraction, sign, letter_of, letters_after, named, with_digit, tail_behind};

use crate::JsonNode;

/// What the reader waits for.
#[derive(Clone, Copy)]
pub(crate) enum Mode {
    /// White space, and a value.
    Value,
    /// White space, and the first value of a list, or its end.
    FirstItem,
    /// White space, and the first key of an object, or its end.
    FirstKey,
    /// White space, and a key.
    Key,
    /// White space, and a colon.
    Colon,
    /// White space, and what stands behind a value.
    After,
    Name(Letters),
    Number(Part),
    Chars,
    Escape,
    Hex(Digits),
    /// The next byte of a character, which lies between two, and how many are left with it.
    Tail { low: u8, high: u8, left: u8 },
}

/// What is left of a name.
#[derive(Clone, Copy)]
pub(crate) enum Letters {
    Ull,
    Ll,
    L,
    Rue,
    Ue,
    TrueE,
    Alse,
    Lse,
    Se,
    FalseE,
}

/// The last part of a number so far.
#[derive(Clone, Copy)]
pub(crate) enum Part {
    Minus,
    Zero,
    Integer,
    Point,
    Fraction,
    Letter,
    Sign,
    Exponent,
}

/// The hexadecimal digits of an escape so far.
#[derive(Clone, Copy)]
pub(crate) enum Digits {
    Zero,
    One(u8),
    Two(u8, u8),
    Three(u8, u8, u8),
}

impl Part {
    /// The part that a first byte begins.
    pub(crate) fn first(byte: u8) -> Option<Part>
        ensures { result ≡ first_part byte }
    {
        if byte == b'-' {
            return Some(Part::Minus);
        }
        Part::first_digit(byte)
    }

    /// The part after one more byte.
    pub(crate) fn next(self, byte: u8) -> Option<Part>
        ensures { result ≡ next_part self byte }
    {
        match self {
            Part::Minus => Part::first_digit(byte),
            Part::Zero => Part::after_integer(byte),
            Part::Integer => Part::digit(byte, Part::Integer).or(Part::after_integer(byte)),
            Part::Point => Part::digit(byte, Part::Fraction),
            Part::Fraction => Part::digit(byte, Part::Fraction).or(Part::after_fraction(byte)),
            Part::Letter => Part::sign(byte).or(Part::digit(byte, Part::Exponent)),
            Part::Sign => Part::digit(byte, Part::Exponent),
            Part::Exponent => Part::digit(byte, Part::Exponent),
        }
    }

    /// Whether a number may end here.
    pub(crate) fn is_final(self) -> bool
        ensures { result ≡ is_final self }
    {
        match self {
            Part::Zero | Part::Integer | Part::Fraction | Part::Exponent => true,
            Part::Minus | Part::Point | Part::Letter | Part::Sign => false,
        }
    }

    fn first_digit(byte: u8) -> Option<Part>
        ensures { result ≡ first_digit byte }
    {
        if byte == b'0' {
            return Some(Part::Zero);
        }
        Part::digit(byte, Part::Integer)
    }

    fn digit(byte: u8, part: Part) -> Option<Part>
        ensures { result ≡ digit byte part }
    {
        if byte.is_ascii_digit() {
            Some(part)
        } else {
            None
        }
    }

    fn after_integer(byte: u8) -> Option<Part>
        ensures { result ≡ after_integer byte }
    {
        if byte == b'.' {
            return Some(Part::Point);
        }
        Part::after_fraction(byte)
    }

    fn after_fraction(byte: u8) -> Option<Part>
        ensures { result ≡ after_fraction byte }
    {
        if byte == b'e' || byte == b'E' {
            Some(Part::Letter)
        } else {
            None
        }
    }

    fn sign(byte: u8) -> Option<Part>
        ensures { result ≡ sign byte }
    {
        if byte == b'+' || byte == b'-' {
            Some(Part::Sign)
        } else {
            None
        }
    }
}

impl Letters {
    /// The byte that comes next.
    pub(crate) fn byte(self) -> u8
        ensures { result ≡ letter_of self }
    {
        match self {
            Letters::Ull | Letters::Ue => b'u',
            Letters::Ll | Letters::L | Letters::Lse => b'l',
            Letters::Rue => b'r',
            Letters::Alse => b'a',
            Letters::Se => b's',
            Letters::TrueE | Letters::FalseE => b'e',
        }
    }

    /// What is left after that byte.
    pub(crate) fn next(self) -> Option<Letters>
        ensures { result ≡ letters_after self }
    {
        match self {
            Letters::Ull => Some(Letters::Ll),
            Letters::Ll => Some(Letters::L),
            Letters::Rue => Some(Letters::Ue),
            Letters::Ue => Some(Letters::TrueE),
            Letters::Alse => Some(Letters::Lse),
            Letters::Lse => Some(Letters::Se),
            Letters::Se => Some(Letters::FalseE),
            Letters::L | Letters::TrueE | Letters::FalseE => None,
        }
    }

    /// The value that the name stands for.
    pub(crate) fn node(self) -> JsonNode
        ensures { result ≡ named self }
    {
        match self {
            Letters::Ull | Letters::Ll | Letters::L => JsonNode::Null,
            Letters::Rue | Letters::Ue | Letters::TrueE => JsonNode::Bool(true),
            Letters::Alse | Letters::Lse | Letters::Se | Letters::FalseE => JsonNode::Bool(false),
        }
    }
}

impl Digits {
    /// The digits after one more, which is below 16; or the number that four of them write.
    pub(crate) fn with(self, digit: u8) -> Result<Digits, u32>
        ensures { result ≡ with_digit self digit }
    {
        match self {
            Digits::Zero => Ok(Digits::One(digit)),
            Digits::One(a) => Ok(Digits::Two(a, digit)),
            Digits::Two(a, b) => Ok(Digits::Three(a, b, digit)),
            Digits::Three(a, b, c) => Err(number_of(a, b, c, digit)),
        }
    }
}

fn number_of(a: u8, b: u8, c: u8, d: u8) -> u32
    ensures { result ≡ a * 4096 + b * 256 + c * 16 + d }
{
    u32::from(a) * 4096 + u32::from(b) * 256 + u32::from(c) * 16 + u32::from(d)
}

/// The mode behind the first byte of a character of several bytes (RFC 3629, section 4).
pub(crate) fn tail_behind(byte: u8) -> Option<Mode>
    ensures { result ≡ tail_behind byte }
{
    let (low, high, left) = match byte {
        0xC2..=0xDF => (0x80, 0xBF, 1),
        0xE0 => (0xA0, 0xBF, 2),
        0xED => (0x80, 0x9F, 2),
        0xE1..=0xEF => (0x80, 0xBF, 2),
        0xF0 => (0x90, 0xBF, 3),
        0xF1..=0xF3 => (0x80, 0xBF, 3),
        0xF4 => (0x80, 0x8F, 3),
        _ => return None,
    };
    Some(Mode::Tail { low, high, left })
}
