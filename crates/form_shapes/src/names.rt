ghost use Rattle.std.specs.Prelude.{◌≡◌, map, IfOk};
ghost use Rattle.std.specs.List.{list_all, slice_split};
ghost use Rattle.form_shapes.specs.Source.{has_sign};
ghost use Rattle.form_shapes.specs.Names.{left_sign, right_sign, is_specifier, ends_with_comma, without_comma, separated};
ghost use Rattle.form_shapes.specs.declared.sign.Sign.TheVariants as sign;

use crate::source::has_sign;
use crate::{Side, Sign, Source};
use es_tokens::Token;
use pack_util::NoMemory;
use std::alloc::Global;

fn left_sign(side: Side) -> Sign
    ensures { result ≡ left_sign side }
{
    match side {
        Side::Left => Sign::Name,
        Side::Right | Side::Neither => Sign::IdName,
    }
}

fn right_sign(side: Side) -> Sign
    ensures { result ≡ right_sign side }
{
    match side {
        Side::Right => Sign::Name,
        Side::Left | Side::Neither => Sign::IdName,
    }
}

fn is_specifier(text: &[u8], side: Side, tokens: &[Token]) -> bool
    ensures { result ≡ is_specifier text.now side tokens.now }
{
    match tokens {
        [name] => {
            has_sign(text, left_sign(side), name) && has_sign(text, right_sign(side), name)
        }
        [left, word, right] => {
            has_sign(text, left_sign(side), left)
                && (has_sign(text, Sign::As, word) && has_sign(text, right_sign(side), right))
        }
        _ => false,
    }
}

fn ends_with_comma(text: &[u8], tokens: &[Token]) -> bool
    ensures { result ≡ ends_with_comma text.now tokens.now }
{
    match tokens.last() {
        Some(last) => has_sign(text, Sign::Comma, last),
        None => false,
    }
}

fn without_comma<'a>(text: &[u8], tokens: &'a [Token]) -> &'a [Token]
    ensures { result.now ≡ without_comma text.now tokens.now }
{
    if ends_with_comma(text, tokens) {
        &tokens[..tokens.len() - 1]
    } else {
        tokens
    }
}

fn are_specifiers(text: &[u8], side: Side, tokens: &[Token]) -> bool
    ensures { result ≡ list_all (is_specifier text.now side) (slice_split (has_sign text.now sign.Comma) tokens.now) }
{
    tokens
        .split(|token| has_sign(text, Sign::Comma, token))
        .all(|part| is_specifier(text, side, part))
}

fn parts<'a>(alloc: Global, text: &[u8], tokens: &'a [Token]) -> Result<Vec<&'a [Token]>, NoMemory>
    ensures { IfOk result (λ parts. map (λ part. part.now) parts.items ≡ slice_split (has_sign text.now sign.Comma) tokens.now) }
{
    tokens
        .split(|token| has_sign(text, Sign::Comma, token))
        .collect(alloc)
}

impl<'a> Source<'a> {
    ghost use Rattle.std.specs.Prelude.{◌≡◌, ◌+◌, ◌<◌, ◌^◌, map, IfOk};
    ghost use Rattle.form_shapes.specs.Source.{is_at};
    ghost use Rattle.form_shapes.specs.Names.{behind_names, specifiers};
    ghost use Rattle.form_shapes.specs.declared.sign.Sign.TheVariants as sign;

    /// The tokens of each specifier in the braces at a token.
    pub fn specifiers(self, alloc: Global, at: usize) -> Result<Vec<&'a [Token]>, NoMemory>
        requires { at + 1 < 2 ^ 64 }
        ensures { IfOk result
            (λ parts. map (λ part. part.now) parts.items ≡ specifiers self.entry.text.now self.entry.tokens.now at) }
    {
        let tokens = self.inside(at);
        if tokens.is_empty() {
            return Ok(Vec::new(alloc));
        }
        parts(alloc, self.text, without_comma(self.text, tokens))
    }

    /// Behind specifiers in braces.
    pub(crate) fn behind_names(self, side: Side, at: usize) -> Option<usize>
        ensures { result ≡ behind_names self.entry.text.now self.entry.tokens.now side at }
    {
        if !self.is_at(Sign::Brace, at) {
            return None;
        }
        let tokens = self.inside(at);
        let named = tokens.is_empty()
            || are_specifiers(self.text, side, without_comma(self.text, tokens));
        named.then_some(self.mate_at(at) + 1)
    }
}
