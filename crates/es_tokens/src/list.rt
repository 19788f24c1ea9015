ghost use Rattle.std.specs.Prelude.{◌≡◌, ◌^◌, ◌≤◌, ◌++◌, ◌∷◌, [], length, Ok, MatchResult, OnOk, OnErr};
ghost use Rattle.es_tokens.specs.Mated.{mated_token, with_mate};
ghost use Rattle.es_tokens.specs.Tokens.{all_of, mated_or_fault, tokens_of, EndsBy};

use crate::context::Context;
use crate::step::{Next, step};
use crate::token::{LexToken, Token, TokenEnd, TokenFault, TokenKind};
use pack_util::{MAX_TEXT, NoMemory};
use std::alloc::Global;
use std::str;

/// The most brackets that may be open at once.
const MOST_DEPTH: u16 = 4096;

/// Adds a token, and tells its opener of it.
fn add(tokens: &mut Vec<Token>, found: LexToken, mate: u32) -> Result<(), NoMemory>
    requires { length tokens.old.items ≤ 2 ^ 30 }
    ensures { OnOk result (tokens.new.items
        ≡ with_mate tokens.old.items mate (length tokens.old.items) ++ mated_token found mate ∷ []) }
{
    let number = tokens.len() as u32;
    tokens.push(Token {
        span: found.span,
        mate,
        depth: found.depth,
        class: found.class,
        new_line: found.new_line,
    })?;
    if mate < number {
        tokens[mate as usize].mate = number;
    }
    Ok(())
}

fn all_tokens(alloc: Global, text: &str) -> Result<Vec<Token>, TokenEnd>
    requires { length text.now ≤ 2 ^ 30 }
    ensures { let told = mated_or_fault text.now (all_of 4096 text.now) in
        MatchResult result (λ tokens. told ≡ Ok tokens.items) (EndsBy told) }
{
    let mut tokens = Vec::new(alloc);
    let mut context = Context::new(alloc)?;
    let mut rest = text;
    loop {
        match step(MOST_DEPTH, text, &context, rest) {
            Next::End => return Ok(tokens),
            Next::Fault(fault) => return Err(TokenEnd::Fault(fault)),
            Next::Token(found, role, left) => {
                let mate = context.pass(role, tokens.len() as u32);
                add(&mut tokens, found, mate)?;
                rest = left;
            }
        }
    }
}

/// The tokens of a text, or its first fault.
#[tactic(auto, unfolding(crate::specs::Tokens::tokens_of))]
pub fn tokens(alloc: Global, text: &[u8]) -> Result<Vec<Token>, TokenEnd>
    requires { length text.now ≤ MAX_TEXT }
    ensures { MatchResult result (λ tokens. tokens_of text.now ≡ Ok tokens.items)
        (EndsBy (tokens_of text.now)) }
{
    match str::from_utf8(text) {
        Ok(text) => all_tokens(alloc, text),
        Err(error) => Err(TokenEnd::Fault(TokenFault {
            offset: error.valid_up_to() as u64,
            kind: TokenKind::NotUtf8,
        })),
    }
}
