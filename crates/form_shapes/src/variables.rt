ghost use Rattle.std.specs.Prelude.{◌≡◌, ◌≤◌, length};
ghost use Rattle.std.specs.List.{list_all, slice_split};
ghost use Rattle.std.specs.Str.{bytes_eq};
ghost use Rattle.form_shapes.specs.Variables.{is_value_word, is_operator_word, is_step, begins_line_of, ends_line_of, begins_line, ends_line, ends_between, length_from, declaration, separates, begins_with_name};

use crate::source::{has_sign, rest_from, text_of};
use crate::{Declaration, Sign, Source};
use es_tokens::{Token, TokenClass};
use pack_util::NoMemory;
use std::alloc::Global;

fn is(bytes: &[u8], word: &str) -> bool
    ensures { result ≡ bytes_eq bytes.now word.now }
{
    bytes == word.as_bytes()
}

fn is_value_word(bytes: &[u8]) -> bool
    ensures { result ≡ is_value_word bytes.now }
{
    is(bytes, "this")
        || is(bytes, "super")
        || is(bytes, "null")
        || is(bytes, "true")
        || is(bytes, "false")
}

fn is_operator_word(bytes: &[u8]) -> bool
    ensures { result ≡ is_operator_word bytes.now }
{
    is(bytes, "in") || is(bytes, "instanceof")
}

fn is_step(bytes: &[u8]) -> bool
    ensures { result ≡ is_step bytes.now }
{
    is(bytes, "++") || is(bytes, "--")
}

fn begins_line_of(class: TokenClass, bytes: &[u8]) -> bool
    ensures { result ≡ begins_line_of class bytes.now }
{
    match class {
        TokenClass::Name | TokenClass::Number | TokenClass::Str | TokenClass::PrivateName => true,
        TokenClass::Keyword => !is_operator_word(bytes),
        TokenClass::Punct => is(bytes, "{") || is_step(bytes),
        _ => false,
    }
}

fn ends_line_of(class: TokenClass, bytes: &[u8]) -> bool
    ensures { result ≡ ends_line_of class bytes.now }
{
    match class {
        TokenClass::Name
        | TokenClass::Number
        | TokenClass::Str
        | TokenClass::Regex
        | TokenClass::Template
        | TokenClass::Tail => true,
        TokenClass::Keyword => is_value_word(bytes),
        TokenClass::Punct => {
            is(bytes, ")") || is(bytes, "]") || is(bytes, "}") || is_step(bytes)
        }
        _ => false,
    }
}

fn begins_line(text: &[u8], token: &Token) -> bool
    ensures { result ≡ begins_line text.now token.now }
{
    begins_line_of(token.class, text_of(text, token))
}

fn ends_line(text: &[u8], token: &Token) -> bool
    ensures { result ≡ ends_line text.now token.now }
{
    ends_line_of(token.class, text_of(text, token))
}

/// Whether a declaration ends between two tokens: before a `;`, or at a line's end.
#[tactic(auto, unfolding(crate::specs::Variables::ends_between))]
fn ends_between(text: &[u8], before: &Token, token: &Token) -> bool
    ensures { result ≡ ends_between text.now before.now token.now }
{
    token.depth == 0
        && (has_sign(text, Sign::Semicolon, token)
            || (token.new_line && (begins_line(text, token) && ends_line(text, before))))
}

#[tactic(auto, unfolding(crate::specs::Variables::separates))]
pub(crate) fn separates(text: &[u8], token: &Token) -> bool
    ensures { result ≡ separates text.now token.now }
{
    token.depth == 0 && has_sign(text, Sign::Comma, token)
}

/// How many tokens stand before the first place at which a declaration ends.
fn length_behind(text: &[u8], first: &Token, tokens: &[Token]) -> usize
    ensures value { result ≡ length_from text.now 0 first.now tokens.now }
    ensures within { result ≤ length tokens.now }
{
    let mut before = first;
    let mut count = 0;
    for token in tokens {
        if ends_between(text, before, token) {
            break;
        }
        before = token;
        count += 1;
    }
    count
}

/// The tokens of a declaration whose first name is the first of these.
pub(crate) fn declaration<'a>(text: &[u8], tokens: &'a [Token]) -> &'a [Token]
    ensures within { length result.now ≤ length tokens.now }
    ensures value { result.now ≡ declaration text.now tokens.now }
{
    match tokens {
        [first, rest @ ..] => &tokens[..length_behind(text, first, rest) + 1],
        [] => tokens,
    }
}

fn begins_with_name(text: &[u8], tokens: &[Token]) -> bool
    ensures { result ≡ begins_with_name text.now tokens.now }
{
    match tokens {
        [name, ..] => has_sign(text, Sign::Name, name),
        [] => false,
    }
}

fn are_named(text: &[u8], tokens: &[Token]) -> bool
    ensures { result ≡ list_all (begins_with_name text.now) (slice_split (separates text.now) tokens.now) }
{
    tokens
        .split(|token| separates(text, token))
        .all(|part| begins_with_name(text, part))
}

impl<'a> Source<'a> {
    ghost use Rattle.std.specs.Prelude.{◌≡◌, ◌<◌, map, length, IfOk};
    ghost use Rattle.form_shapes.specs.Variables.{behind_variables, declarators, exports_variables, first_text};

    /// Whether `export` with `var`, `let` or `const` stands at a token.
    pub fn exports_variables(self, at: usize) -> bool
        requires { at < length self.tokens.now }
        ensures { result ≡ exports_variables self.entry.text.now self.entry.tokens.now at }
    {
        self.is_at(Sign::Export, at)
            && (self.is_at(Sign::Var, at + 1)
                || (self.is_at(Sign::Let, at + 1) || self.is_at(Sign::Const, at + 1)))
    }

    /// The names of the declarators of a declaration whose first name is at a token.
    pub fn declared_names(self, alloc: Global, at: usize) -> Result<Vec<&'a [u8]>, NoMemory>
        ensures { IfOk result
            (λ names. map (λ name. name.now) names.items
            ≡ map (first_text self.entry.text.now) (declarators self.entry.text.now self.entry.tokens.now at)) }
    {
        match self.known_at(at) {
            Some(known) => known.names(alloc, self),
            None => Declaration::read(alloc, self, at)?.names(alloc, self),
        }
    }

    /// Behind declarators, each of which begins with a name.
    pub(crate) fn behind_variables(self, at: usize) -> Option<usize>
        ensures { result ≡ behind_variables self.entry.text.now self.entry.tokens.now at }
    {
        match self.known_at(at) {
            Some(known) => known.behind(self),
            None => self.behind_unknown(at),
        }
    }

    fn behind_unknown(self, at: usize) -> Option<usize>
        ensures { result ≡ behind_variables self.entry.text.now self.entry.tokens.now at }
    {
        let tokens = declaration(self.text, rest_from(self.tokens, at));
        if tokens.is_empty() || !are_named(self.text, tokens) {
            return None;
        }
        Some(at + tokens.len())
    }
}
