ghost use Rattle.std.specs.Prelude.{◌≡◌, ◌==◌, IfOk, map, not};
ghost use Rattle.std.specs.List.{list_all, slice_split};
ghost use Rattle.std.specs.Str.{bytes_eq};
ghost use Rattle.std.specs.Char.{is_ascii_alphabetic, is_ascii_digit};
ghost use Rattle.magic_comments.specs.Pairs.{are_apart, are_pairs, is_clean, is_colon, is_comma, is_key, is_pair, is_value, is_value_of, pairs};

use es_tokens::{Token, TokenClass};
use form_shapes::{Sign, part_between, rest_from, text_of};
use pack_util::NoMemory;
use std::alloc::Global;

fn is(bytes: &[u8], word: &str) -> bool
    ensures { result ≡ bytes_eq bytes.now word.now }
{
    bytes == word.as_bytes()
}

fn are_letters(bytes: &[u8]) -> bool
    ensures { result ≡ list_all is_ascii_alphabetic bytes.now }
{
    bytes.iter().all(|byte| byte.is_ascii_alphabetic())
}

fn are_digits(bytes: &[u8]) -> bool
    ensures { result ≡ list_all is_ascii_digit bytes.now }
{
    bytes.iter().all(|byte| byte.is_ascii_digit())
}

/// A word of ASCII letters.
fn is_key(content: &[u8], token: &Token) -> bool
    ensures { result ≡ is_key content.now token.now }
{
    let bytes = text_of(content, token);
    Sign::IdName.is(token.class, bytes) && are_letters(bytes)
}

fn is_colon(content: &[u8], token: &Token) -> bool
    ensures { result ≡ is_colon content.now token.now }
{
    Sign::Colon.is(token.class, text_of(content, token))
}

fn is_value_of(class: TokenClass, bytes: &[u8]) -> bool
    ensures { result ≡ is_value_of class bytes.now }
{
    match class {
        TokenClass::Str => !bytes.contains(&b'\\'),
        TokenClass::Keyword => is(bytes, "true") || is(bytes, "false"),
        TokenClass::Number => are_digits(bytes),
        _ => false,
    }
}

/// A string without a backslash, `true`, `false` or ASCII digits.
fn is_value(content: &[u8], token: &Token) -> bool
    ensures { result ≡ is_value content.now token.now }
{
    is_value_of(token.class, text_of(content, token))
}

fn is_pair(content: &[u8], tokens: &[Token]) -> bool
    ensures { result ≡ is_pair content.now tokens.now }
{
    match tokens {
        [key, colon, value] => {
            is_key(content, key) && (is_colon(content, colon) && is_value(content, value))
        }
        _ => false,
    }
}

fn is_comma(content: &[u8], token: &Token) -> bool
    ensures { result ≡ is_comma content.now token.now }
{
    Sign::Comma.is(token.class, text_of(content, token))
}

/// A gap without a comment: of all that a gap has only a comment has a `/` or a `#`.
pub(crate) fn is_clean(bytes: &[u8]) -> bool
    ensures { result ≡ is_clean bytes.now }
{
    !(bytes.contains(&b'/') || bytes.contains(&b'#'))
}

/// Whether no comment stands between tokens.
fn are_apart(content: &[u8], tokens: &[Token]) -> bool
    ensures { result ≡ are_apart content.now 0 tokens.now }
{
    let mut from = 0;
    for token in tokens {
        if !is_clean(part_between(content, from, token.span.start as usize)) {
            return false;
        }
        from = token.span.end as usize;
    }
    is_clean(rest_from(content, from))
}

fn all_pairs(content: &[u8], tokens: &[Token]) -> bool
    ensures { result ≡ list_all (is_pair content.now) (pairs content.now tokens.now) }
{
    tokens
        .split(|token| is_comma(content, token))
        .all(|part| is_pair(content, part))
}

/// Whether a comment is one or more pairs, separated by one comma each.
pub(crate) fn are_pairs(content: &[u8], tokens: &[Token]) -> bool
    ensures { result ≡ are_pairs content.now tokens.now }
{
    all_pairs(content, tokens) && are_apart(content, tokens)
}

/// The tokens of each pair.
pub(crate) fn pairs<'a>(
    alloc: Global,
    content: &[u8],
    tokens: &'a [Token],
) -> Result<Vec<&'a [Token]>, NoMemory>
    ensures { IfOk result (λ parts. map (λ part. part.now) parts.items ≡ pairs content.now tokens.now) }
{
    tokens
        .split(|token| is_comma(content, token))
        .collect(alloc)
}
