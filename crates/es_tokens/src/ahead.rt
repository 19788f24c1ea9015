use crate::token::TokenFault;

/// What a lexer answers next.
#[derive(Clone, Copy)]
pub(crate) enum Ahead {
    Tokens,
    Fault(TokenFault),
    Nothing,
}
