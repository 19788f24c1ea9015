ghost use Rattle.std.specs.Prelude.{◌≡◌, ◌||◌, ◌==◌};
ghost use Rattle.es_tokens.specs.Characters.{is_white, is_terminator, is_blank, is_name_start, is_name_part, is_number_part, is_flag, is_digit, is_hex, is_regex_char, is_class_char, is_template_char, is_string_char};

use unicode_ident::{is_xid_continue, is_xid_start};

#[tactic(auto, unfolding(crate::specs::Characters::is_white))]
pub(crate) fn is_white(c: char) -> bool
    ensures { result ≡ is_white c }
{
    let narrow = c == '\t' || c == '\u{b}' || c == '\u{c}' || c == ' ' || c == '\u{a0}';
    narrow
        || c == '\u{1680}'
        || ('\u{2000}' <= c && c <= '\u{200a}')
        || c == '\u{202f}'
        || c == '\u{205f}'
        || c == '\u{3000}'
        || c == '\u{feff}'
}

#[tactic(auto, unfolding(crate::specs::Characters::is_terminator))]
pub(crate) fn is_terminator(c: char) -> bool
    ensures { result ≡ is_terminator c }
{
    c == '\n' || c == '\r' || c == '\u{2028}' || c == '\u{2029}'
}

#[tactic(auto, unfolding(crate::specs::Characters::is_blank))]
pub(crate) fn is_blank(c: char) -> bool
    ensures { result ≡ is_blank c }
{
    is_white(c) || is_terminator(c)
}

#[tactic(auto, unfolding(crate::specs::Characters::is_name_start))]
pub(crate) fn is_name_start(c: char) -> bool
    ensures { result ≡ is_name_start c }
{
    c == '$' || c == '_' || is_xid_start(c)
}

#[tactic(auto, unfolding(crate::specs::Characters::is_name_part))]
pub(crate) fn is_name_part(c: char) -> bool
    ensures { result ≡ is_name_part c }
{
    c == '$' || is_xid_continue(c) || c == '\u{200c}' || c == '\u{200d}'
}

#[tactic(auto, unfolding(crate::specs::Characters::is_number_part))]
pub(crate) fn is_number_part(c: char) -> bool
    ensures { result ≡ is_number_part c }
{
    c == '$' || c == '.' || is_xid_continue(c)
}

#[tactic(auto, unfolding(crate::specs::Characters::is_flag))]
pub(crate) fn is_flag(c: char) -> bool
    ensures { result ≡ is_flag c }
{
    c == '$' || is_xid_continue(c)
}

#[tactic(auto, unfolding(crate::specs::Characters::is_digit))]
pub(crate) fn is_digit(c: char) -> bool
    ensures { result ≡ is_digit c }
{
    c.is_ascii_digit()
}

#[tactic(auto, unfolding(crate::specs::Characters::is_hex))]
pub(crate) fn is_hex(c: char) -> bool
    ensures { result ≡ is_hex c }
{
    c.is_ascii_hexdigit()
}

#[tactic(auto, unfolding(crate::specs::Characters::is_string_char))]
pub(crate) fn is_string_char(c: char) -> bool
    ensures { result ≡ is_string_char c }
{
    !(c == '\\' || c == '\n' || c == '\r')
}

#[tactic(auto, unfolding(crate::specs::Characters::is_template_char))]
pub(crate) fn is_template_char(c: char) -> bool
    ensures { result ≡ is_template_char c }
{
    !(c == '`' || c == '\\' || c == '$')
}

#[tactic(auto, unfolding(crate::specs::Characters::is_regex_char))]
pub(crate) fn is_regex_char(c: char) -> bool
    ensures { result ≡ is_regex_char c }
{
    !(c == '\\' || c == '[' || c == '/' || is_terminator(c))
}

#[tactic(auto, unfolding(crate::specs::Characters::is_class_char))]
pub(crate) fn is_class_char(c: char) -> bool
    ensures { result ≡ is_class_char c }
{
    !(c == '\\' || c == ']' || is_terminator(c))
}
