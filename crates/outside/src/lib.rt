//! What lies outside a build: a tree to read, a sink for assets and a sink for lines, and forms of them in memory.
//!
//! Each trait has an optional meaning, which contracts speak of where it is told, and a count of faults: no call
//! answers `Failed` but where the count rose in it.
#![tactic(auto)]

mod asset_sink;
mod entry;
mod failure_plan;
mod files;
mod folder;
mod line_sink;
mod mem_lines;
mod mem_reader;
mod mem_sink;
mod mem_tree;
mod outside_end;
mod shared;
mod tree_end;
mod tree_reader;

pub use asset_sink::{Asset, AssetSink};
pub use entry::{DirEntry, EntryKind, ReadGot, Why};
pub use line_sink::LineSink;
pub use mem_lines::MemLines;
pub use mem_reader::MemReader;
pub use mem_sink::MemSink;
pub use mem_tree::MemTree;
pub use outside_end::OutsideEnd;
pub use tree_end::TreeEnd;
pub use tree_reader::TreeReader;
