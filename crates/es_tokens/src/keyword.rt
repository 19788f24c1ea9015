ghost use Rattle.std.specs.Prelude.{◌≡◌};
ghost use Rattle.es_tokens.specs.KeywordRole.{among, value_words, block_words, control_words, statement_words, declaration_words, operator_words, keyword_role};

use crate::role::{Role, is};

#[tactic(auto, unfolding(crate::specs::KeywordRole::value_words))]
fn is_value_word(word: &[u8]) -> bool
    ensures { result ≡ among word.now value_words }
{
    is(word, "this")
        || is(word, "super")
        || is(word, "null")
        || is(word, "true")
        || is(word, "false")
}

#[tactic(auto, unfolding(crate::specs::KeywordRole::block_words))]
fn is_block_word(word: &[u8]) -> bool
    ensures { result ≡ among word.now block_words }
{
    is(word, "else") || is(word, "do") || is(word, "try") || is(word, "finally")
}

#[tactic(auto, unfolding(crate::specs::KeywordRole::control_words))]
fn is_control_word(word: &[u8]) -> bool
    ensures { result ≡ among word.now control_words }
{
    is(word, "if") || is(word, "while") || is(word, "with")
}

#[tactic(auto, unfolding(crate::specs::KeywordRole::statement_words))]
fn is_statement_word(word: &[u8]) -> bool
    ensures { result ≡ among word.now statement_words }
{
    is(word, "break")
        || is(word, "case")
        || is(word, "catch")
        || is(word, "continue")
        || is(word, "default")
        || is(word, "return")
        || is(word, "switch")
        || is(word, "throw")
}

#[tactic(auto, unfolding(crate::specs::KeywordRole::declaration_words))]
fn is_declaration_word(word: &[u8]) -> bool
    ensures { result ≡ among word.now declaration_words }
{
    is(word, "class")
        || is(word, "const")
        || is(word, "debugger")
        || is(word, "enum")
        || is(word, "export")
        || is(word, "extends")
        || is(word, "function")
        || is(word, "import")
}

#[tactic(auto, unfolding(crate::specs::KeywordRole::operator_words))]
fn is_operator_word(word: &[u8]) -> bool
    ensures { result ≡ among word.now operator_words }
{
    is(word, "delete")
        || is(word, "in")
        || is(word, "instanceof")
        || is(word, "new")
        || is(word, "typeof")
        || is(word, "var")
        || is(word, "void")
        || is(word, "yield")
}

/// The role of a keyword; other names have none.
pub(crate) fn keyword_role(word: &[u8]) -> Option<Role>
    ensures { result ≡ keyword_role word.now }
{
    if is_statement_word(word) || is_declaration_word(word) || is_operator_word(word) {
        Some(Role::Word)
    } else if is_value_word(word) {
        Some(Role::Value)
    } else if is_block_word(word) {
        Some(Role::BlockWord)
    } else if is_control_word(word) {
        Some(Role::Control)
    } else if is(word, "for") {
        Some(Role::For)
    } else if is(word, "await") {
        Some(Role::Await)
    } else {
        None
    }
}
