ghost use Rattle.std.specs.Prelude.{◌≡◌};
ghost use Rattle.es_tokens.specs.Division.{is_dot, is_loop, precedes_condition, wants_value, bracket_holds_value, precedes_division};

use crate::role::{Bracket, Role};

/// Whether a member's name follows.
pub(crate) fn is_dot(role: Role) -> bool
    ensures { result ≡ is_dot role }
{
    matches!(role, Role::Dot)
}

/// Whether it is a `for` that isn't a member's name.
pub(crate) fn is_loop(role: Role, dotted: bool) -> bool
    ensures { result ≡ is_loop role dotted }
{
    matches!(role, Role::For) && !dotted
}

/// Whether a `(` behind it opens a condition.
pub(crate) fn precedes_condition(role: Role, dotted: bool, looped: bool) -> bool
    ensures { result ≡ precedes_condition role dotted looped }
{
    match role {
        Role::Control | Role::For => !dotted,
        Role::Await => looped,
        _ => false,
    }
}

/// Whether a `{` behind it is that of an expression.
pub(crate) fn wants_value(role: Role) -> bool
    ensures { result ≡ wants_value role }
{
    match role {
        Role::Control | Role::For | Role::Await | Role::Word | Role::Operator => true,
        Role::Open(bracket) => !matches!(bracket, Bracket::Curly),
        _ => false,
    }
}

/// Whether what an opener encloses is a value.
pub(crate) fn bracket_holds_value(bracket: Bracket, condition: bool, expression: bool) -> bool
    ensures { result ≡ bracket_holds_value (Role.Open bracket) condition expression }
{
    match bracket {
        Bracket::Round => !condition,
        Bracket::Curly => expression,
        Bracket::Square | Bracket::Template => true,
    }
}

/// Whether a `/` behind it is a division.
pub(crate) fn precedes_division(role: Role, dotted: bool, enclosed: bool) -> bool
    ensures { result ≡ precedes_division role dotted enclosed }
{
    match role {
        Role::Value => true,
        Role::BlockWord | Role::Control | Role::For | Role::Await | Role::Word => dotted,
        Role::Close(_) => enclosed,
        _ => false,
    }
}
