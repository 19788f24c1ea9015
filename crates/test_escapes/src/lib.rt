//! Texts of examples as lines of ASCII, for the stored runs: in a line `\xHH` is a byte and `\\` a backslash.
#![tactic(auto)]

mod escape;

pub use escape::{escaped, unescaped};
