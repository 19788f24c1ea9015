//! The ids of all chunks, worked out in one pass.
ghost use Rattle.std.specs.Prelude.{◌≡◌, ◌+◌, ◌<◌, ◌^◌, None, not, length, map, take, slice_index_or, is_some, IfOk, if◌then◌else◌};
ghost use Rattle.std.specs.List.{count_by, range_with_len};
ghost use Rattle.chunk_graph.specs.Moves.{id_of};

use chunk_graph::ChunkGraph;
use pack_util::{ChunkNo, NoMemory};
use std::alloc::Global;

/// The id of a chunk, where so many of the chunks before it aren't gone.
fn id_after(chunks: &ChunkGraph, c: ChunkNo, before: u32) -> Option<u32>
    requires there { c.0 < length chunks.now.chunks }
    requires before { before ≡ count_by (λ chunk. not chunk.gone) (take c.0 chunks.now.chunks) }
    ensures { result ≡ id_of chunks.now c.0 }
{
    if chunks.is_gone(c) {
        None
    } else {
        Some(before)
    }
}

/// How many chunks aren't gone, with one more that has an id or none.
fn count_with(before: u32, id: Option<u32>) -> u32
    requires { before + 1 < 2 ^ 32 }
    ensures { result ≡ before + (if is_some id then 1 else 0) }
{
    match id {
        Some(_) => before + 1,
        None => before,
    }
}

/// The id of each chunk, in the order of their numbers.
pub fn all_ids(alloc: Global, chunks: &ChunkGraph) -> Result<Vec<Option<u32>>, NoMemory>
    ensures { IfOk result (λ ids. ids.items ≡ map (id_of chunks.now) (range_with_len 0 (length chunks.now.chunks))) }
{
    let mut ids = Vec::new(alloc);
    let mut before = 0;
    for c in 0..chunks.count() {
        let id = id_after(chunks, ChunkNo(c), before);
        before = count_with(before, id);
        ids.push(id)?;
    }
    Ok(ids)
}

/// The id of one chunk among those of all.
pub fn id_at(ids: &[Option<u32>], c: ChunkNo) -> Option<u32>
    ensures { result ≡ slice_index_or ids.now c.0 None }
{
    match ids.get(c.0 as usize) {
        Some(id) => *id,
        None => None,
    }
}
