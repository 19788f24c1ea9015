//! The record of a module: its file is read, its text parsed, and each of its requests resolved.
//!
//! [`build_one`] makes the record of a file. What stays true: a file is read as a module once and nothing else is read but
//! manifests; a record is whole whatever a reader gives; and where the tree is told, it is the file's (`specs/Record`), which
//! depends on nothing but the tree and the configuration. The record of a text and where the text was taken from are told apart.
#![tactic(auto)]

mod answering;
mod asked;
mod asking;
mod building;
pub mod laws;
mod merging;
mod refusing;

pub use building::build_one;
pub use refusing::refusal;
