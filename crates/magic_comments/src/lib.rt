//! Magic comments: what the comments of a call of `import` say of it.
//!
//! The comments are those of the gap behind the call's bracket. One whose first token is a name that begins with `webpack`
//! is read as tokens: one or more pairs of a word, a colon and a value. Of equal keys the last counts, also where they
//! stand in two comments.
#![tactic(auto)]

mod comment;
mod magic;
mod pair;

pub use comment::{begins, line_length};
pub use magic::{Magic, magic_by};
