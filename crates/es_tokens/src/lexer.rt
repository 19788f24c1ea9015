use crate::ahead::Ahead;
use crate::context::Context;
use crate::step::{Next, step};
use crate::token::{LexToken, TokenFault, TokenKind};
use pack_util::NoMemory;
use std::alloc::Global;
use std::marker::Model;
use std::str;

/// Reads a text token by token, and takes no memory for a token. Contracts see the answers that
/// are still to come.
#[derive(Drop)]
pub struct Lexer<'a> {
    text: &'a str,
    rest: &'a str,
    context: Context,
    most_depth: u16,
    number: u32,
    ahead: Ahead,
}

impl<'a> Model for Lexer<'a> {
    ghost use Rattle.std.specs.Prelude.{List, Result};
    ghost use Rattle.es_tokens.specs.declared.token.LexToken.{LexToken};
    ghost use Rattle.es_tokens.specs.declared.token.TokenFault.{TokenFault};
    ghost use Rattle.es_tokens.specs.inner.Left.{left_ahead, left_of, IsWithin};

    ghost Value = { List (Result LexToken TokenFault) };

    ghost view = { λ lexer. left_ahead lexer.ahead (left_of lexer.most_depth lexer.text.now lexer.context lexer.number lexer.rest.now) };

    ghost invariant = { λ lexer. IsWithin lexer.most_depth lexer.text.now lexer.context lexer.number lexer.rest.now };
}

impl<'a> Lexer<'a> {
    ghost use Rattle.std.specs.Prelude.{◌≡◌, ◌^◌, ◌≤◌, ◌∷◌, [], length, IfOk, MatchOption};
    ghost use Rattle.es_tokens.specs.Answers.{answers_of};
    ghost use Rattle.es_tokens.specs.Context.{context_of};
    ghost use Rattle.es_tokens.specs.inner.Left.{left_ahead, left_of};

    /// Takes all the memory that the lexer needs.
    pub fn new(alloc: Global, text: &'a [u8], most_depth: u16) -> Result<Lexer<'a>, NoMemory>
        requires { length text.now ≤ 2 ^ 30 }
        ensures { IfOk result (λ lexer. lexer ≡ answers_of most_depth text.now) }
    {
        match str::from_utf8(text) {
            Ok(text) => Lexer::start(alloc, text, most_depth, Ahead::Tokens),
            Err(error) => {
                let fault = TokenFault {
                    offset: error.valid_up_to() as u64,
                    kind: TokenKind::NotUtf8,
                };
                Lexer::start(alloc, "", most_depth, Ahead::Fault(fault))
            }
        }
    }

    fn start(
        alloc: Global,
        text: &'a str,
        most_depth: u16,
        ahead: Ahead,
    ) -> Result<Lexer<'a>, NoMemory>
        requires { length text.now ≤ 2 ^ 30 }
        ensures { IfOk result
            (λ lexer. lexer ≡ left_ahead ahead (left_of most_depth text.now (context_of [] []) 0 text.now)) }
    {
        Ok(Lexer {
            text,
            rest: text,
            context: Context::new(alloc)?,
            most_depth,
            number: 0,
            ahead,
        })
    }

    /// The next token, or the fault behind the last. Takes no memory.
    pub fn next(&mut self) -> Option<Result<LexToken, TokenFault>>
        ensures { MatchOption result ((self.old ≡ []) × (self.new ≡ []))
            (λ answer. self.old ≡ answer ∷ self.new) }
    {
        match self.ahead {
            Ahead::Nothing => None,
            Ahead::Fault(fault) => {
                self.ahead = Ahead::Nothing;
                Some(Err(fault))
            }
            Ahead::Tokens => match step(self.most_depth, self.text, &self.context, self.rest) {
                Next::End => {
                    self.ahead = Ahead::Nothing;
                    None
                }
                Next::Fault(fault) => {
                    self.ahead = Ahead::Nothing;
                    Some(Err(fault))
                }
                Next::Token(found, role, left) => {
                    let _mate = self.context.pass(role, self.number);
                    self.number += 1;
                    self.rest = left;
                    Some(Ok(found))
                }
            },
        }
    }
}
