//! The top call: words, configuration, tree, modules and assets of a build, and the builds of samples.
//!
//! What stays true, for each number of workers and in every schedule: the end is that of the one verdict on the tree, or a
//! count of faults rose, or memory ran out. A sample reads and writes nothing that is handed in but its lines.
#![tactic(auto)]

mod accept;
mod conclude;
mod decide;
mod decide_tree;
mod end;
mod first;
pub mod laws;
mod outcome;
mod output;
mod report;
mod sample;
mod sample_line;
mod sample_readers;
mod steps;
mod task;
mod top;
mod verdict;
mod verdict_lines;

pub use end::End;
pub use top::run;
pub use verdict::{Build, Verdict};

/// How many readers a command is handed: one for each worker that it may have.
pub const READERS: u32 = 32;
