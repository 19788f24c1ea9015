//! A chunk graph may be sent to other threads and read by all at once.

use crate::{ChunkGraph, Split};

fn is_shared<T: Send + Sync>(_value: &T) {}

fn are_shared(graph: &ChunkGraph, split: &Split) {
    is_shared(graph);
    is_shared(split);
}
