//! Candidates for splits: modules that chunks share under a cache group, in an order without ties.
//!
//! A [`SplitPlan`] has what splits depend on besides the chunk graph. The candidates are those of the plan and the
//! chunk graph alone, each once, and of two different ones one is greater.
#![tactic(auto)]

mod allowed;
mod candidate;
mod claims;
mod columns;
mod compare;
mod form;
mod greatest;
pub mod laws;
mod named;
mod plan;
mod rule;
mod search;
mod unnamed;

pub use allowed::allowed_chunks;
pub use candidate::Candidate;
pub use claims::claim;
pub use form::is_large;
pub use greatest::{best, greatest_place};
pub use plan::SplitPlan;
pub use rule::Rule;
pub use search::{candidates, candidates_of};
