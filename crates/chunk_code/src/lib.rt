//! The texts of chunks: the call that adds a chunk's modules by their ids, and for an entry's chunk the loading runtime before
//! it and the calls that run the entry behind it.
//!
//! What stays true is that each part is added behind the others and in the order of the chunk's modules, so equal chunks
//! give equal bytes.
#![tactic(auto)]

mod chunk;
mod entry;
mod members;
mod runtime;
mod startup;

pub use chunk::chunk_text;
pub use entry::entry_text;
pub use runtime::{runtime_functions, runtime_text};
pub use startup::startup_text;
