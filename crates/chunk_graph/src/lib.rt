//! Chunk graphs: the chunks with their modules, and the chunks that each group loads.
//!
//! A contract sees a [`ChunkGraph`] as its state, and each call that changes it as a function on the state. A chunk
//! keeps its number for good: one that isn't needed is gone, and stays in the list. What stays true: each chunk has a
//! place for each module, no group has a chunk that is gone, and at most 8,192 numbers of chunks are given out.
//!
//! Only what makes chunks, rows or lists takes memory.
#![tactic(auto)]

mod chunk;
mod chunk_list;
mod emptying;
mod end;
mod graph;
mod merging;
mod moving;
mod shared;
mod split;
mod starting;

pub use end::ChunkEnd;
pub use graph::{ChunkGraph, MOST_CACHE_GROUPS, MOST_CHUNKS};
pub use split::Split;
