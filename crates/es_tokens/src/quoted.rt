ghost use Rattle.std.specs.Prelude.{◌≡◌, MatchOption};
ghost use Rattle.es_tokens.specs.Shape.{no_text, after_first};
ghost use Rattle.es_tokens.specs.QuotedShape.{quote_char};
ghost use Rattle.es_tokens.specs.inner.QuotedMachine.{quoted_left};

use crate::character::is_string_char;
use crate::machine::Machine;

#[derive(Clone, Copy)]
pub(crate) enum Quote {
    Single,
    Double,
}

/// Where a string stands.
#[derive(Clone, Copy)]
pub(crate) enum Quoted {
    Open(Quote),
    Body(Quote),
    /// Behind a backslash.
    Backslash(Quote),
    /// Behind a backslash and CR, which LF may follow.
    Return(Quote),
    Closed,
}

impl Quote {
    ghost use Rattle.es_tokens.specs.QuotedShape.{quote_char};

    fn character(self) -> char
        ensures { result ≡ quote_char self }
    {
        match self {
            Quote::Single => '\'',
            Quote::Double => '"',
        }
    }
}

#[tactic(auto, using(crate::proofs::Literals::literals))]
fn in_body(quote: Quote, c: char) -> Option<Quoted>
    ensures { MatchOption result (after_first (quoted_left (Quoted.Body quote)) c ≡ no_text)
        (λ next. after_first (quoted_left (Quoted.Body quote)) c ≡ quoted_left next) }
{
    if c == quote.character() {
        return Some(Quoted::Closed);
    }
    match c {
        '\\' => Some(Quoted::Backslash(quote)),
        _ => is_string_char(c).then_some(Quoted::Body(quote)),
    }
}

impl Machine for Quoted {
    ghost shape = { quoted_left };

    fn can_end(self) -> bool {
        matches!(self, Quoted::Closed)
    }

    #[tactic(auto, using(crate::proofs::Literals::literals))]
    fn step(self, c: char) -> Option<Quoted> {
        match self {
            Quoted::Open(quote) => (c == quote.character()).then_some(Quoted::Body(quote)),
            Quoted::Body(quote) => in_body(quote, c),
            Quoted::Backslash(quote) => match c {
                '\r' => Some(Quoted::Return(quote)),
                _ => Some(Quoted::Body(quote)),
            },
            Quoted::Return(quote) => match c {
                '\n' => Some(Quoted::Body(quote)),
                _ => in_body(quote, c),
            },
            Quoted::Closed => None,
        }
    }
}
