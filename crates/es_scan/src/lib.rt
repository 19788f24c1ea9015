//! The scanner: what a module names and what it is named by, and what becomes of its text.
//!
//! What stands at a token is decided by the tokens alone ([`form_shapes`]). Each token then gives items, binds, exports,
//! stars, edits, notes and faults by what stands there, and the scan is what all tokens give, one after another. The
//! number of an item is how many items the tokens before it give. [`laws`] has what holds of the definitions.
#![tactic(auto)]

mod binds;
mod default;
mod edits;
mod exports;
mod flaws;
mod given;
mod items;
pub mod laws;
mod list;
mod names;
mod notes;
mod repeated;
mod scanned;
mod scanner;
mod stars;

pub use scanned::Scan;
pub use scanner::scan;
