//! Splits of chunks: the best candidate is taken until there is none.
//!
//! What one split does to a chunk graph is a function on its state, and each split of a list is that of the greatest
//! candidate in the state before it. A list of splits ends, since each lowers the number of pairs of a module and an open
//! chunk that holds it. [`check_split`] tells of any list whether each of its splits keeps the rules, and which rule the first
//! that doesn't breaks; [`laws`] ties the rules to the candidates.
#![tactic(auto)]

mod check_end;
mod checking;
mod claiming;
mod joining;
pub mod laws;
mod lists;
mod reusing;
mod rules;
mod split_end;
mod split_rule;
mod splitting;
mod taking;

pub use check_end::CheckEnd;
pub use checking::check_split;
pub use split_end::SplitEnd;
pub use split_rule::{SplitBreak, SplitRule};
pub use splitting::split;
