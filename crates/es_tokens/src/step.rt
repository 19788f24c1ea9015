ghost use Rattle.std.specs.Prelude.{◌≡◌, ◌+◌, ◌^◌, ◌≤◌, ◌==◌, if◌then◌else◌, length};
ghost use Rattle.std.specs.Str.{chars};
ghost use Rattle.es_tokens.specs.Characters.{holds_terminator};
ghost use Rattle.es_tokens.specs.Family.{shape_of, class_of, ends_template};
ghost use Rattle.es_tokens.specs.TokenRole.{role_of, role_in};
ghost use Rattle.es_tokens.specs.Shape.{has_shape};
ghost use Rattle.es_tokens.specs.Longest.{after_longest};
ghost use Rattle.es_tokens.specs.Step.{after_gap, place, passed, ends, fail_at, token_at, token_step, step};
ghost use Rattle.es_tokens.specs.Misplaced.{same_bracket, closes, misplaced};
ghost use Rattle.es_tokens.specs.inner.StepShown.{IsNext};

use crate::character::is_terminator;
use crate::context::{Context, Stack};
use crate::cursor::split_first;
use crate::family::Family;
use crate::gap::Gap;
use crate::keyword::keyword_role;
use crate::machine::after_longest;
use crate::punctuator_role::punctuator_role;
use crate::role::{Bracket, Role};
use crate::token::{LexToken, TokenClass, TokenFault, TokenKind};
use pack_util::Span;

/// What stands next in a text.
#[derive(Clone, Copy)]
pub(crate) enum Next<'a> {
    End,
    /// A token, its role, and what is left behind it.
    Token(LexToken, Role, &'a str),
    Fault(TokenFault),
}

#[tactic(auto, unfolding(crate::specs::Step::after_gap))]
fn after_gap(first: bool, rest: &str) -> &str
    ensures left { chars result.now ≡ after_gap first (chars rest.now) }
    ensures within { length result.now ≤ length rest.now }
{
    let gap = if first { Gap::First } else { Gap::Between };
    match after_longest(gap, rest) {
        Some(left) => left,
        None => rest,
    }
}

/// The gap that a rest begins with, and what it leaves.
fn split_gap(first: bool, rest: &str) -> (&str, &str)
    ensures gap { chars result.0.now ≡ passed (chars rest.now) (chars result.1.now) }
    ensures left { chars result.1.now ≡ after_gap first (chars rest.now) }
    ensures within { length result.1.now ≤ length rest.now }
{
    let left = after_gap(first, rest);
    (&rest[..rest.len() - left.len()], left)
}

/// The place in a text, in bytes, behind which a rest is left.
fn place(text: &str, rest: &str) -> u32
    requires within { length rest.now ≤ length text.now }
    requires short { length text.now ≤ 2 ^ 30 }
    ensures left { result ≡ place text.now (chars rest.now) }
    ensures sum { result + length rest.now ≡ length text.now }
{
    (text.len() - rest.len()) as u32
}

fn holds_terminator(gap: &str) -> bool
    ensures { result ≡ holds_terminator (chars gap.now) }
{
    let mut rest = gap;
    while let Some((c, after)) = split_first(rest) {
        if is_terminator(c) {
            return true;
        }
        rest = after;
    }
    false
}

fn ends_template(bytes: &[u8]) -> bool
    ensures { result ≡ ends_template bytes.now }
{
    bytes.last().copied() == Some(b'`')
}

/// The class of a token of a family with these bytes, and its role.
fn class_and_role(family: Family, bytes: &[u8]) -> (TokenClass, Role)
    ensures class { result.0 ≡ class_of family bytes.now }
    ensures role { result.1 ≡ role_of result.0 bytes.now }
{
    match family {
        Family::Quoted(_) => (TokenClass::Str, Role::Value),
        Family::Begun if ends_template(bytes) => (TokenClass::Template, Role::Value),
        Family::Begun => (TokenClass::Head, Role::Open(Bracket::Template)),
        Family::Resumed if ends_template(bytes) => {
            (TokenClass::Tail, Role::Close(Bracket::Template))
        }
        Family::Resumed => (TokenClass::Middle, Role::Operator),
        Family::Private => (TokenClass::PrivateName, Role::Value),
        Family::Comment | Family::Punctuator | Family::Question => (
            TokenClass::Punct,
            punctuator_role(bytes),
        ),
        Family::Regex => (TokenClass::Regex, Role::Value),
        Family::Decimal | Family::NonDecimal => (TokenClass::Number, Role::Value),
        Family::Name => match keyword_role(bytes) {
            Some(role) => (TokenClass::Keyword, role),
            None => (TokenClass::Name, Role::Value),
        },
    }
}

/// The token between two places, and its role.
#[tactic(auto, unfolding(crate::specs::TokenRole::role_in))]
fn token_at(text: &[u8], family: Family, gap: &str, span: Span, depth: u16) -> (LexToken, Role)
    requires end { span.start ≤ span.end }
    requires within { span.end ≤ length text.now }
    ensures token { result.0 ≡ token_at text.now family (chars gap.now) span.start span.end depth }
    ensures role { result.1 ≡ role_in text.now result.0 }
{
    let Span { start, end } = span;
    let (class, role) = class_and_role(family, &text[start as usize..end as usize]);
    let new_line = holds_terminator(gap);
    let token = LexToken {
        class,
        span,
        new_line,
        depth,
    };
    (token, role)
}

fn closes(bracket: Bracket, brackets: &Stack) -> bool
    ensures { result ≡ closes bracket brackets.now }
{
    match brackets.last() {
        Some(opened) => same_bracket(bracket, opened.bracket),
        None => false,
    }
}

fn same_bracket(one: Bracket, other: Bracket) -> bool
    ensures { result ≡ same_bracket one other }
{
    match one {
        Bracket::Round => matches!(other, Bracket::Round),
        Bracket::Square => matches!(other, Bracket::Square),
        Bracket::Curly => matches!(other, Bracket::Curly),
        Bracket::Template => matches!(other, Bracket::Template),
    }
}

/// What is wrong with a bracket: one too many, or a closer that doesn't fit.
fn misplaced(most: u16, brackets: &Stack, role: Role) -> Option<TokenKind>
    ensures { result ≡ misplaced most brackets.now role }
{
    match role {
        Role::Open(_) if brackets.len() >= most as usize => Some(TokenKind::Depth),
        Role::Close(bracket) if !closes(bracket, brackets) => Some(TokenKind::Unmatched),
        _ => None,
    }
}

/// The end of the text.
fn end<'a>(text: &str, brackets: &Stack) -> Next<'a>
    ensures { IsNext 0 text.now brackets.now result
        (if length brackets.now == 0 then ends else fail_at (length text.now) TokenKind.Open) }
{
    if brackets.len() == 0 {
        return Next::End;
    }
    Next::Fault(TokenFault {
        offset: text.len() as u64,
        kind: TokenKind::Open,
    })
}

/// A token of a family behind a gap.
fn token_step<'a>(
    most: u16,
    text: &'a str,
    brackets: &Stack,
    family: Family,
    gap: &str,
    begun: &'a str,
) -> Next<'a>
    requires within { length begun.now ≤ length text.now }
    requires short { length text.now ≤ 2 ^ 30 }
    requires deep { length brackets.now ≤ most }
    ensures { IsNext most text.now brackets.now result
        (token_step most text.now brackets.now family (chars gap.now) (chars begun.now)
        (after_longest (has_shape (shape_of family)) (chars begun.now))) }
{
    let start = place(text, begun);
    let Some(left) = family.after_token(begun) else {
        return Next::Fault(TokenFault {
            offset: start as u64,
            kind: family.fault(),
        });
    };
    let span = Span {
        start,
        end: place(text, left),
    };
    let (token, role) = token_at(text.as_bytes(), family, gap, span, brackets.len() as u16);
    match misplaced(most, brackets, role) {
        None => Next::Token(token, role, left),
        Some(kind) => Next::Fault(TokenFault {
            offset: start as u64,
            kind,
        }),
    }
}

/// What stands next in a text of which a rest is left, with at most so many brackets open.
#[tactic(auto, unfolding(crate::specs::Step::step))]
pub(crate) fn step<'a>(most: u16, text: &'a str, context: &Context, rest: &'a str) -> Next<'a>
    requires within { length rest.now ≤ length text.now }
    requires short { length text.now ≤ 2 ^ 30 }
    requires deep { length context.now.brackets ≤ most }
    ensures { IsNext most text.now context.now.brackets result
        (step most text.now context.now (chars rest.now)) }
{
    let brackets = &context.brackets;
    let (gap, begun) = split_gap(context.first, rest);
    let Some((c, more)) = split_first(begun) else {
        return end(text, brackets);
    };
    let resumes = closes(Bracket::Template, brackets);
    let family = Family::new(context.division, resumes, c, more);
    token_step(most, text, brackets, family, gap, begun)
}
