//! The target of a subpath by a package's `exports` (Node.js, "Package entry points", "Subpath patterns" and
//! "Conditional exports").
//!
//! [`export_target`] answers what `target_of` of `specs/Exports.antt` computes from the whole tree. The code walks along
//! the nesting of targets, so no deeper than the tree, stops at the first value that decides, and copies a text only for
//! the answer. What stays true on each walk: the outcome of the values left, after those passed, is the outcome of all.
#![tactic(auto)]

mod best;
mod export;
mod exports_end;
mod key;
pub mod laws;
mod map;
mod outcome;
mod segment;
mod star;
mod target;
mod text;

pub use export::export_target;
pub use exports_end::ExportsEnd;
