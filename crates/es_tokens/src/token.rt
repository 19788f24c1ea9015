ghost use Rattle.std.specs.Prelude.{◌≡◌};

use pack_util::{NoMemory, Span};
use std::alloc::AllocFailed;
use std::mem::size_of;

/// What a token is. A punctuator's text, a bracket's too, is that of its span.
#[derive(Clone, Copy, PartialEq, Eq)]
pub enum TokenClass {
    Name,
    Keyword,
    PrivateName,
    Number,
    Str,
    /// A template without an expression.
    Template,
    /// A template up to its first expression.
    Head,
    /// A template between two expressions.
    Middle,
    /// A template behind its last expression.
    Tail,
    Regex,
    Punct,
}

#[derive(Clone, Copy, PartialEq, Eq)]
pub struct Token {
    pub span: Span,
    /// The number of the bracket's partner, else the token's own.
    pub mate: u32,
    /// How many brackets are open before the token.
    pub depth: u16,
    pub class: TokenClass,
    /// Whether a line terminator stands in the gap before the token.
    pub new_line: bool,
}

const _: () = prove!(size_of::<Token>() == 16);

/// A token without its partner.
#[derive(Clone, Copy, PartialEq, Eq)]
pub struct LexToken {
    pub class: TokenClass,
    pub span: Span,
    pub new_line: bool,
    pub depth: u16,
}

#[derive(Clone, Copy, PartialEq, Eq)]
pub enum TokenKind {
    /// The text isn't UTF-8.
    NotUtf8,
    /// A comment, string, part of a template or regular expression isn't ended.
    Unfinished,
    /// A character begins no token.
    Stray,
    /// A closer has no opener, or one of another kind.
    Unmatched,
    /// A bracket would be one too many open at once.
    Depth,
    /// The text ends with an open bracket.
    Open,
}

#[derive(Clone, Copy, PartialEq, Eq)]
pub struct TokenFault {
    /// In bytes.
    pub offset: u64,
    pub kind: TokenKind,
}

#[derive(Clone, Copy, PartialEq, Eq)]
pub enum TokenEnd {
    Fault(TokenFault),
    NoMemory,
}

impl From<NoMemory> for TokenEnd {
    ghost use Rattle.es_tokens.specs.declared.token.TokenEnd.TheVariants.{NoMemory};

    ghost from_gives = { λ _ end. end ≡ NoMemory };

    fn from(_: NoMemory) -> TokenEnd {
        TokenEnd::NoMemory
    }
}

impl<T: Drop> From<AllocFailed<T>> for TokenEnd {
    ghost use Rattle.es_tokens.specs.declared.token.TokenEnd.TheVariants.{NoMemory};

    ghost from_gives = { λ _ end. end ≡ NoMemory };

    fn from(_: AllocFailed<T>) -> TokenEnd {
        TokenEnd::NoMemory
    }
}
