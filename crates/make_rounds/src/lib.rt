//! The make phase: workers grow the module graph of what entries lead to.
//!
//! [`make`] resolves the entries' requests and builds their files and then, round after round, the files that new records
//! name, until none is left; it closes the board on which files are claimed, and puts the records together. What stays true
//! over readers of a tree, for each number of workers and in every schedule, also where the work ends early: each file is
//! read as a module once at most, and none that no entry leads to; a record is made once and never changed, and a module with
//! faults keeps its record; module numbers follow the order of paths and no order of work. So a tree and its configuration
//! have one graph (`graph_types::laws::one_graph`). A limit is answered only where the reached files exceed it.
#![tactic(auto)]

mod asking;
mod closing;
mod counts;
mod entry_answer;
mod entry_files;
mod finding;
mod found;
mod graph;
mod growing;
mod grown;
mod make_end;
mod making;
mod reader_laws;

pub use build_round::round;
pub use grown::Grown;
pub use make_end::MakeEnd;
pub use making::make;
pub use module_build::build_one;
