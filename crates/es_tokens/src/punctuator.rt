ghost use Rattle.std.specs.Prelude.{◌≡◌, ◌==◌, if◌then◌else◌, MatchOption};
ghost use Rattle.es_tokens.specs.Shape.{no_text, after_first};
ghost use Rattle.es_tokens.specs.PunctuatorShape.{single_punctuators, comparison_punctuators, arithmetic_punctuators, bitwise_punctuators, question_and_dot_punctuators, punctuators};
ghost use Rattle.es_tokens.specs.inner.PunctuatorMachine.{punctuator_left};

use crate::machine::Machine;

/// Where a punctuator stands, by what of it was read.
#[derive(Clone, Copy)]
pub(crate) enum Punctuator {
    Start,
    /// Before a `?` alone.
    Only,
    /// No punctuator goes on from here.
    End,
    /// An `=` may follow.
    OrEqual,
    Less,
    Greater,
    TwoGreater,
    Equal,
    Bang,
    Plus,
    Minus,
    Star,
    And,
    Or,
    Question,
    Dot,
    /// The last `.` of three has to follow.
    DotDot,
}

fn single(c: char) -> Option<Punctuator>
    ensures { MatchOption result (after_first single_punctuators c ≡ no_text)
        (λ next. after_first punctuators c ≡ punctuator_left next) }
{
    match c {
        '{' | '}' | '(' | ')' | '[' | ']' | ';' | ',' | '~' | ':' => Some(Punctuator::End),
        _ => None,
    }
}

fn comparison(c: char) -> Option<Punctuator>
    ensures { MatchOption result (after_first comparison_punctuators c ≡ no_text)
        (λ next. after_first punctuators c ≡ punctuator_left next) }
{
    match c {
        '<' => Some(Punctuator::Less),
        '>' => Some(Punctuator::Greater),
        '=' => Some(Punctuator::Equal),
        '!' => Some(Punctuator::Bang),
        _ => None,
    }
}

fn arithmetic(c: char) -> Option<Punctuator>
    ensures { MatchOption result (after_first arithmetic_punctuators c ≡ no_text)
        (λ next. after_first punctuators c ≡ punctuator_left next) }
{
    match c {
        '+' => Some(Punctuator::Plus),
        '-' => Some(Punctuator::Minus),
        '*' => Some(Punctuator::Star),
        '/' | '%' => Some(Punctuator::OrEqual),
        _ => None,
    }
}

fn bitwise(c: char) -> Option<Punctuator>
    ensures { MatchOption result (after_first bitwise_punctuators c ≡ no_text)
        (λ next. after_first punctuators c ≡ punctuator_left next) }
{
    match c {
        '&' => Some(Punctuator::And),
        '|' => Some(Punctuator::Or),
        '^' => Some(Punctuator::OrEqual),
        _ => None,
    }
}

fn question_or_dot(c: char) -> Option<Punctuator>
    ensures { MatchOption result (after_first question_and_dot_punctuators c ≡ no_text)
        (λ next. after_first punctuators c ≡ punctuator_left next) }
{
    match c {
        '?' => Some(Punctuator::Question),
        '.' => Some(Punctuator::Dot),
        _ => None,
    }
}

fn first(c: char) -> Option<Punctuator>
    ensures { MatchOption result (after_first punctuators c ≡ no_text)
        (λ next. after_first punctuators c ≡ punctuator_left next) }
{
    if let Some(state) = single(c) {
        return Some(state);
    }
    if let Some(state) = comparison(c) {
        return Some(state);
    }
    if let Some(state) = arithmetic(c) {
        return Some(state);
    }
    if let Some(state) = bitwise(c) {
        return Some(state);
    }
    question_or_dot(c)
}

/// The state behind a punctuator's second character, which is this one or the `=` that ends it.
fn goes_on(c: char, second: char, state: Punctuator) -> Option<Punctuator>
    ensures { result ≡ (if c == second then Some state else (if c == 61 then Some Punctuator.End else None)) }
{
    if c == second {
        Some(state)
    } else if c == '=' {
        Some(Punctuator::End)
    } else {
        None
    }
}

impl Machine for Punctuator {
    ghost shape = { punctuator_left };

    fn can_end(self) -> bool {
        !matches!(
            self,
            Punctuator::Start | Punctuator::Only | Punctuator::DotDot
        )
    }

    fn step(self, c: char) -> Option<Punctuator> {
        match self {
            Punctuator::Start => first(c),
            Punctuator::Only => (c == '?').then_some(Punctuator::End),
            Punctuator::End => None,
            Punctuator::OrEqual => (c == '=').then_some(Punctuator::End),
            Punctuator::Less => goes_on(c, '<', Punctuator::OrEqual),
            Punctuator::Greater => goes_on(c, '>', Punctuator::TwoGreater),
            Punctuator::TwoGreater => goes_on(c, '>', Punctuator::OrEqual),
            Punctuator::Equal => match c {
                '=' => Some(Punctuator::OrEqual),
                '>' => Some(Punctuator::End),
                _ => None,
            },
            Punctuator::Bang => (c == '=').then_some(Punctuator::OrEqual),
            Punctuator::Plus => goes_on(c, '+', Punctuator::End),
            Punctuator::Minus => goes_on(c, '-', Punctuator::End),
            Punctuator::Star => goes_on(c, '*', Punctuator::OrEqual),
            Punctuator::And => goes_on(c, '&', Punctuator::OrEqual),
            Punctuator::Or => goes_on(c, '|', Punctuator::OrEqual),
            Punctuator::Question => match c {
                '?' => Some(Punctuator::OrEqual),
                '.' => Some(Punctuator::End),
                _ => None,
            },
            Punctuator::Dot => (c == '.').then_some(Punctuator::DotDot),
            Punctuator::DotDot => (c == '.').then_some(Punctuator::End),
        }
    }
}
