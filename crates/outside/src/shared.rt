//! Which forms in memory threads may share, and which they may be given.
use crate::{MemReader, MemTree};
use pack_util::{is_sent, is_shared};

fn is_tree_shared(tree: &MemTree) {
    is_shared(tree);
}

fn is_reader_sent(reader: &MemReader<'_>) {
    is_sent(reader);
}
