ghost use Rattle.std.specs.Prelude.{◌≡◌, ◌≤◌, ◌∷◌, IfSome, length};
ghost use Rattle.std.specs.Option.{option_map};
ghost use Rattle.std.specs.Str.{chars};
ghost use Rattle.es_tokens.specs.NumberShape.{is_radix_letter};
ghost use Rattle.es_tokens.specs.Longest.{after_longest};
ghost use Rattle.es_tokens.specs.Shape.{has_shape};
ghost use Rattle.es_tokens.specs.Family.{starts_digit, starts_point, starts_radix_letter, starts_star, slash_family, number_family, plain_family, family_of, shape_of, family_fault};

use crate::character::{is_digit, is_name_start};
use crate::cursor::split_first;
use crate::machine::after_longest;
use crate::name::Name;
use crate::number::Number;
use crate::punctuator::Punctuator;
use crate::quoted::{Quote, Quoted};
use crate::regex::Regex;
use crate::template::Template;
use crate::token::TokenKind;

/// The one shape that a token may have at its place.
#[derive(Clone, Copy)]
pub(crate) enum Family {
    Quoted(Quote),
    /// A template from its backquote on.
    Begun,
    /// A template from the brace on that ends an expression.
    Resumed,
    Private,
    /// A comment that isn't ended.
    Comment,
    Punctuator,
    /// A `?` before a number that begins with `.`
    Question,
    Regex,
    Decimal,
    NonDecimal,
    Name,
}

fn is_radix_letter(c: char) -> bool
    ensures { result ≡ is_radix_letter c }
{
    c == 'x' || c == 'X' || c == 'b' || c == 'B' || c == 'o' || c == 'O'
}

fn starts_digit(text: &str) -> bool
    ensures { result ≡ starts_digit (chars text.now) }
{
    match split_first(text) {
        Some((c, _)) => is_digit(c),
        None => false,
    }
}

fn starts_point(text: &str) -> bool
    ensures { result ≡ starts_point (chars text.now) }
{
    match split_first(text) {
        Some((c, rest)) => c == '.' && starts_digit(rest),
        None => false,
    }
}

fn starts_radix_letter(text: &str) -> bool
    ensures { result ≡ starts_radix_letter (chars text.now) }
{
    match split_first(text) {
        Some((c, _)) => is_radix_letter(c),
        None => false,
    }
}

fn starts_star(text: &str) -> bool
    ensures { result ≡ starts_star (chars text.now) }
{
    match split_first(text) {
        Some((c, _)) => c == '*',
        None => false,
    }
}

fn slash_family(division: bool, more: &str) -> Family
    ensures { result ≡ slash_family division (chars more.now) }
{
    if starts_star(more) {
        Family::Comment
    } else if division {
        Family::Punctuator
    } else {
        Family::Regex
    }
}

fn number_family(c: char, more: &str) -> Family
    ensures { result ≡ number_family c (chars more.now) }
{
    if c == '0' && starts_radix_letter(more) {
        Family::NonDecimal
    } else {
        Family::Decimal
    }
}

fn plain_family(c: char, more: &str) -> Family
    ensures { result ≡ plain_family c (chars more.now) }
{
    if is_name_start(c) || c == '\\' {
        Family::Name
    } else if is_digit(c) || (c == '.' && starts_digit(more)) {
        number_family(c, more)
    } else if c == '?' && starts_point(more) {
        Family::Question
    } else {
        Family::Punctuator
    }
}

impl Family {
    ghost use Rattle.es_tokens.specs.Family.{family_of, shape_of, family_fault};

    /// The family of a token by its first character and those behind it. With `resumes` a `}` goes
    /// on with a template.
    pub(crate) fn new(division: bool, resumes: bool, c: char, more: &str) -> Family
        ensures { result ≡ family_of division resumes c (chars more.now) }
    {
        if c == '"' {
            Family::Quoted(Quote::Double)
        } else if c == '\'' {
            Family::Quoted(Quote::Single)
        } else if c == '`' {
            Family::Begun
        } else if c == '}' && resumes {
            Family::Resumed
        } else if c == '#' {
            Family::Private
        } else if c == '/' {
            slash_family(division, more)
        } else {
            plain_family(c, more)
        }
    }

    /// What it is that no text of the shape stands there.
    pub(crate) fn fault(self) -> TokenKind
        ensures { result ≡ family_fault self }
    {
        match self {
            Family::Quoted(_) | Family::Begun | Family::Resumed | Family::Comment | Family::Regex =>
                { TokenKind::Unfinished }
            _ => TokenKind::Stray,
        }
    }

    /// What is left behind the longest front of a text that has the shape.
    pub(crate) fn after_token(self, text: &str) -> Option<&str>
        ensures rest { option_map (λ rest. chars rest.now) result
            ≡ after_longest (has_shape (shape_of self)) (chars text.now) }
        ensures within { IfSome result (λ rest. length rest.now ≤ length text.now) }
    {
        match self {
            Family::Quoted(quote) => after_longest(Quoted::Open(quote), text),
            Family::Begun => after_longest(Template::Begun, text),
            Family::Resumed => after_longest(Template::Resumed, text),
            Family::Private => after_longest(Name::Private, text),
            Family::Comment => None,
            Family::Punctuator => after_longest(Punctuator::Start, text),
            Family::Question => after_longest(Punctuator::Only, text),
            Family::Regex => after_longest(Regex::Open, text),
            Family::Decimal => after_longest(Number::Decimal, text),
            Family::NonDecimal => after_longest(Number::NonDecimal, text),
            Family::Name => after_longest(Name::First, text),
        }
    }
}
