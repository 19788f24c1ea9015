//! The seal phase: from a module graph without faults to the assets of a build and its stats.
//!
//! [`seal`] finds the groups, places modules in them, splits their chunks and writes the text of each. What stays true: each
//! step adds to what the steps before gave and changes none of it, and ids and names are those of the final chunks, so no
//! text is written before all splits are done. A text is made once and moved to its asset.
#![tactic(auto)]

mod assets;
mod chunking;
mod counting;
mod finishing;
pub mod laws;
mod naming;
mod placement;
mod seal_end;
mod sealed;
mod sealing;
mod starting;

pub use seal_end::SealEnd;
pub use sealed::Sealed;
pub use sealing::{seal, seal_by_one};
