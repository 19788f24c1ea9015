ghost use Rattle.std.specs.Prelude.{◌≡◌, ◌-◌, ◌≤◌, drop, length, slice_range};
ghost use Rattle.form_shapes.specs.Declaration.{IsKnown};
ghost use Rattle.form_shapes.specs.Source.{has_sign, is_bracket_of, is_bracket, text_of};

use crate::sign::is_that_punct;
use crate::{Declaration, Sign};
use es_tokens::{Token, TokenClass};

/// A text and its tokens, and what is known of one declaration of variables in them.
#[derive(Clone, Copy)]
pub struct Source<'a> {
    pub text: &'a [u8],
    pub tokens: &'a [Token],
    pub known: Option<&'a Declaration<'a>>,

    ghost right: { IsKnown text.now tokens.now known },
}

/// The members from a number on.
pub fn rest_from<T>(members: &[T], start: usize) -> &[T]
    ensures { result.now ≡ drop start members.now }
{
    &members[start.min(members.len())..]
}

/// The members from one number up to another.
pub fn part_between<T>(members: &[T], start: usize, end: usize) -> &[T]
    ensures value { result.now ≡ slice_range members.now start end }
    ensures within { length result.now ≤ length members.now - start }
{
    let rest = rest_from(members, start);
    &rest[..end.saturating_sub(start).min(rest.len())]
}

/// The bytes of a token in a text.
pub fn text_of<'a>(text: &'a [u8], token: &Token) -> &'a [u8]
    ensures { result.now ≡ text_of text.now token.now }
{
    part_between(text, token.span.start as usize, token.span.end as usize)
}

pub(crate) fn has_sign(text: &[u8], sign: Sign, token: &Token) -> bool
    ensures { result ≡ has_sign text.now sign token.now }
{
    sign.is(token.class, text_of(text, token))
}

fn is_bracket_of(class: TokenClass, bytes: &[u8]) -> bool
    ensures { result ≡ is_bracket_of class bytes.now }
{
    match class {
        TokenClass::Head | TokenClass::Tail => true,
        _ => {
            is_that_punct(class, bytes, "(")
                || is_that_punct(class, bytes, ")")
                || is_that_punct(class, bytes, "[")
                || is_that_punct(class, bytes, "]")
                || is_that_punct(class, bytes, "{")
                || is_that_punct(class, bytes, "}")
        }
    }
}

pub(crate) fn is_bracket(text: &[u8], token: &Token) -> bool
    ensures { result ≡ is_bracket text.now token.now }
{
    is_bracket_of(token.class, text_of(text, token))
}

impl<'a> Source<'a> {
    ghost use Rattle.std.specs.Prelude.{◌≡◌, ◌+◌, ◌<◌, ◌^◌, true, length, slice_get, IfSome};
    ghost use Rattle.std.specs.Option.{option_copied};
    ghost use Rattle.form_shapes.specs.Declaration.{IsDeclaration, IsKnown};
    ghost use Rattle.form_shapes.specs.Source.{is_at, is_outside, mate_at, inside, start_at, end_at, text_at};

    pub fn new(text: &'a [u8], tokens: &'a [Token]) -> Source<'a>
        ensures text { result.text.now ≡ text.now }
        ensures tokens { result.tokens.now ≡ tokens.now }
    {
        Source {
            text,
            tokens,
            known: None,
        }
    }

    /// With what is known of a declaration.
    pub fn knowing(self, known: &'a Declaration<'a>) -> Source<'a>
        requires { IsDeclaration self.text.now self.tokens.now known.now }
        ensures text { result.text.now ≡ self.entry.text.now }
        ensures tokens { result.tokens.now ≡ self.entry.tokens.now }
    {
        Source {
            text: self.text,
            tokens: self.tokens,
            known: Some(known),
        }
    }

    /// What is known of the declaration whose first name stands at a token.
    pub(crate) fn known_at(self, at: usize) -> Option<&'a Declaration<'a>>
        ensures at { IfSome result (λ known. known.now.at ≡ at) }
        ensures right { IfSome result (λ known. IsDeclaration self.entry.text.now self.entry.tokens.now known.now) }
    {
        match self.known {
            Some(known) if known.at == at => Some(known),
            _ => None,
        }
    }

    pub fn token(self, at: usize) -> Option<Token>
        ensures { result ≡ slice_get self.entry.tokens.now at }
    {
        self.tokens.get(at).copied()
    }

    /// Whether the token of a number is there and has a sign.
    pub fn is_at(self, sign: Sign, at: usize) -> bool
        ensures value { result ≡ is_at self.entry.text.now self.entry.tokens.now sign at }
        ensures there { result ≡ true → at < length self.entry.tokens.now }
    {
        match self.token(at) {
            Some(token) => has_sign(self.text, sign, &token),
            None => false,
        }
    }

    /// Whether the token of a number stands outside of all brackets.
    pub fn is_outside(self, at: usize) -> bool
        ensures { result ≡ is_outside self.entry.tokens.now at }
    {
        match self.token(at) {
            Some(token) => token.depth == 0,
            None => false,
        }
    }

    /// The number of a bracket's mate.
    pub fn mate_at(self, at: usize) -> usize
        ensures value { result ≡ mate_at self.entry.tokens.now at }
        ensures small { result < 2 ^ 32 }
    {
        match self.token(at) {
            Some(token) => token.mate as usize,
            None => 0,
        }
    }

    /// The offset at which a token begins.
    pub fn start_at(self, at: usize) -> u32
        ensures { result ≡ start_at self.entry.tokens.now at }
    {
        match self.token(at) {
            Some(token) => token.span.start,
            None => 0,
        }
    }

    /// The offset behind a token.
    pub fn end_at(self, at: usize) -> u32
        ensures { result ≡ end_at self.entry.tokens.now at }
    {
        match self.token(at) {
            Some(token) => token.span.end,
            None => 0,
        }
    }

    /// The bytes of a token.
    pub fn text_at(self, at: usize) -> &'a [u8]
        ensures { result.now ≡ text_at self.entry.text.now self.entry.tokens.now at }
    {
        match self.token(at) {
            Some(token) => text_of(self.text, &token),
            None => &[],
        }
    }

    /// The tokens between a bracket and its mate.
    pub(crate) fn inside(self, at: usize) -> &'a [Token]
        requires { at + 1 < 2 ^ 64 }
        ensures { result.now ≡ inside self.entry.tokens.now at }
    {
        part_between(self.tokens, at + 1, self.mate_at(at))
    }
}
