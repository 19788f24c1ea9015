//! The lexer: the tokens of a JavaScript text, or its first fault.
//!
//! A step passes over a gap, lets the characters there and the tokens so far pick the one family of token that may
//! stand there, and takes the longest front that has the family's shape. Shapes are regular expressions over
//! characters, and each family has a machine that is proved to read its shape. What the tokens so far say is kept as a
//! few flags and the open brackets, which always are what the whole list of tokens says.
//!
//! A text has one list of tokens or one first fault, and never both; each bracket of the list has its mate. [`tokens`]
//! gives the whole list, and [`Lexer`] the same tokens one by one, without memory for each. [`laws`] has what holds of
//! the definitions.
#![tactic(auto)]

mod ahead;
mod character;
mod context;
mod cursor;
mod escape;
mod family;
mod gap;
mod keyword;
pub mod laws;
mod lexer;
mod list;
mod machine;
mod name;
mod number;
mod punctuator;
mod punctuator_role;
mod quoted;
mod regex;
mod role;
mod step;
mod table;
mod template;
mod token;

pub use lexer::Lexer;
pub use list::tokens;
pub use token::{LexToken, Token, TokenClass, TokenEnd, TokenFault, TokenKind};
