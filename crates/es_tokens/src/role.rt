ghost use Rattle.std.specs.Prelude.{◌≡◌};
ghost use Rattle.std.specs.Str.{bytes_eq};

/// A kind of bracket: `(`, `[`, `{` or a template's `${`.
#[derive(Clone, Copy)]
pub(crate) enum Bracket {
    Round,
    Square,
    Curly,
    Template,
}

/// What a token is to the tokens behind it.
#[derive(Clone, Copy)]
pub(crate) enum Role {
    /// A value ends with it.
    Value,
    /// A keyword, behind which a brace begins a block.
    BlockWord,
    /// A keyword, behind which stands a condition in brackets.
    Control,
    For,
    Await,
    /// Any other keyword.
    Word,
    /// `.` or `?.`
    Dot,
    Open(Bracket),
    Close(Bracket),
    /// A value has to follow.
    Operator,
    /// `;` or `=>`
    Stop,
}

/// Whether a token's bytes are this text.
#[inline]
pub(crate) fn is(word: &[u8], text: &str) -> bool
    ensures { result ≡ bytes_eq word.now text.now }
{
    word == text.as_bytes()
}
