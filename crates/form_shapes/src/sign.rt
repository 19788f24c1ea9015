ghost use Rattle.std.specs.Prelude.{◌≡◌, not, ◌==◌};
ghost use Rattle.std.specs.List.{list_any};
ghost use Rattle.std.specs.Str.{bytes_eq};
ghost use Rattle.form_shapes.specs.Sign.{is_plain, is_name, is_keyword, is_str, is_punct, is_that_name, is_that_keyword, is_that_punct};

use es_tokens::TokenClass;

/// What a form asks of one token.
#[derive(Clone, Copy, PartialEq, Eq)]
pub enum Sign {
    /// A name without a backslash.
    Name,
    /// A name or a keyword, without a backslash.
    IdName,
    /// A string without a backslash.
    Str,
    /// `(`
    Open,
    /// `)`
    Close,
    /// `{`
    Brace,
    /// `,`
    Comma,
    /// `:`
    Colon,
    /// `;`
    Semicolon,
    /// `*`
    Star,
    /// `.`
    Period,
    /// `.` or `?.`
    Member,
    Import,
    Export,
    Require,
    As,
    From,
    With,
    Default,
    Var,
    Let,
    Const,
    Async,
    Function,
    Class,
}

pub(crate) fn is_plain(bytes: &[u8]) -> bool
    ensures { result ≡ is_plain bytes.now }
{
    !bytes.contains(&b'\\')
}

pub(crate) fn is_name(class: TokenClass) -> bool
    ensures { result ≡ is_name class }
{
    matches!(class, TokenClass::Name)
}

pub(crate) fn is_keyword(class: TokenClass) -> bool
    ensures { result ≡ is_keyword class }
{
    matches!(class, TokenClass::Keyword)
}

fn is_str(class: TokenClass) -> bool
    ensures { result ≡ is_str class }
{
    matches!(class, TokenClass::Str)
}

pub(crate) fn is_punct(class: TokenClass) -> bool
    ensures { result ≡ is_punct class }
{
    matches!(class, TokenClass::Punct)
}

fn is_that_name(class: TokenClass, bytes: &[u8], word: &str) -> bool
    ensures { result ≡ is_that_name class bytes.now word.now }
{
    is_name(class) && bytes == word.as_bytes()
}

pub(crate) fn is_that_keyword(class: TokenClass, bytes: &[u8], word: &str) -> bool
    ensures { result ≡ is_that_keyword class bytes.now word.now }
{
    is_keyword(class) && bytes == word.as_bytes()
}

pub(crate) fn is_that_punct(class: TokenClass, bytes: &[u8], mark: &str) -> bool
    ensures { result ≡ is_that_punct class bytes.now mark.now }
{
    is_punct(class) && bytes == mark.as_bytes()
}

impl Sign {
    ghost use Rattle.std.specs.Prelude.{◌≡◌};
    ghost use Rattle.form_shapes.specs.Sign.{has_sign_of};

    /// Whether a token of a class, with these bytes, has the sign.
    #[tactic(auto, unfolding(crate::specs::Sign::has_sign_of))]
    pub fn is(self, class: TokenClass, bytes: &[u8]) -> bool
        ensures { result ≡ has_sign_of self class bytes.now }
    {
        match self {
            Sign::Name => is_name(class) && is_plain(bytes),
            Sign::IdName => is_keyword(class) || (is_name(class) && is_plain(bytes)),
            Sign::Str => is_str(class) && is_plain(bytes),
            Sign::Open => is_that_punct(class, bytes, "("),
            Sign::Close => is_that_punct(class, bytes, ")"),
            Sign::Brace => is_that_punct(class, bytes, "{"),
            Sign::Comma => is_that_punct(class, bytes, ","),
            Sign::Colon => is_that_punct(class, bytes, ":"),
            Sign::Semicolon => is_that_punct(class, bytes, ";"),
            Sign::Star => is_that_punct(class, bytes, "*"),
            Sign::Period => is_that_punct(class, bytes, "."),
            Sign::Member => is_that_punct(class, bytes, ".") || is_that_punct(class, bytes, "?."),
            Sign::Import => is_that_keyword(class, bytes, "import"),
            Sign::Export => is_that_keyword(class, bytes, "export"),
            Sign::Require => is_that_name(class, bytes, "require"),
            Sign::As => is_that_name(class, bytes, "as"),
            Sign::From => is_that_name(class, bytes, "from"),
            Sign::With => is_that_keyword(class, bytes, "with"),
            Sign::Default => is_that_keyword(class, bytes, "default"),
            Sign::Var => is_that_keyword(class, bytes, "var"),
            Sign::Let => is_that_name(class, bytes, "let"),
            Sign::Const => is_that_keyword(class, bytes, "const"),
            Sign::Async => is_that_name(class, bytes, "async"),
            Sign::Function => is_that_keyword(class, bytes, "function"),
            Sign::Class => is_that_keyword(class, bytes, "class"),
        }
    }
}
