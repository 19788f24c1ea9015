ghost use Rattle.std.specs.Prelude.{◌≡◌};
ghost use Rattle.es_tokens.specs.PunctuatorRole.{bracket_role, punctuator_role};

use crate::role::{Bracket, Role, is};

fn bracket_role(punctuator: &[u8]) -> Option<Role>
    ensures { result ≡ bracket_role punctuator.now }
{
    if is(punctuator, "(") {
        Some(Role::Open(Bracket::Round))
    } else if is(punctuator, ")") {
        Some(Role::Close(Bracket::Round))
    } else if is(punctuator, "{") {
        Some(Role::Open(Bracket::Curly))
    } else if is(punctuator, "}") {
        Some(Role::Close(Bracket::Curly))
    } else if is(punctuator, "[") {
        Some(Role::Open(Bracket::Square))
    } else if is(punctuator, "]") {
        Some(Role::Close(Bracket::Square))
    } else {
        None
    }
}

/// The role of a punctuator.
pub(crate) fn punctuator_role(punctuator: &[u8]) -> Role
    ensures { result ≡ punctuator_role punctuator.now }
{
    if is(punctuator, ".") || is(punctuator, "?.") {
        Role::Dot
    } else if is(punctuator, ";") || is(punctuator, "=>") {
        Role::Stop
    } else if is(punctuator, "++") || is(punctuator, "--") {
        Role::Value
    } else {
        bracket_role(punctuator).unwrap_or(Role::Operator)
    }
}
