//! The ids of chunks.
ghost use Rattle.std.specs.Prelude.{◌≡◌, ◌<◌, length, map, IfOk};
ghost use Rattle.chunk_graph.specs.Chunks.{group_at};
ghost use Rattle.chunk_graph.specs.Moves.{id_of};
ghost use Rattle.serde_json.specs.View.{view};
ghost use Rattle.stats_text.specs.Lists.{listed_ids};
ghost use Rattle.stats_text.specs.Stats.{number_stats, list_stats};
ghost use Rattle.stats_text.specs.inner.Ids.{all_ids};

use crate::numbers::numbers_value;
use chunk_graph::ChunkGraph;
use pack_util::{ChunkNo, GroupNo, NoMemory, add_some};
use serde_json::Value;
use std::alloc::Global;

/// The ids of all chunks by number, counted in one go.
pub fn all_ids(alloc: Global, chunks: &ChunkGraph) -> Result<Vec<Option<u32>>, NoMemory>
    ensures { IfOk result (λ ids. ids.items ≡ all_ids chunks.now) }
{
    let mut ids = Vec::new(alloc);
    let mut next = 0;
    for place in 0..chunks.count() {
        if chunks.is_gone(ChunkNo(place)) {
            ids.push(None)?;
        } else {
            ids.push(Some(next))?;
            next += 1;
        }
    }
    Ok(ids)
}

/// The id of a chunk.
pub fn id_at(chunks: &ChunkGraph, ids: &[Option<u32>], c: ChunkNo) -> Option<u32>
    requires { ids.now ≡ all_ids chunks.now }
    ensures { result ≡ id_of chunks.now c.0 }
{
    if c.0 < chunks.count() {
        ids[c.0 as usize]
    } else {
        None
    }
}

fn group_ids(
    alloc: Global,
    chunks: &ChunkGraph,
    ids: &[Option<u32>],
    g: GroupNo,
) -> Result<Vec<u32>, NoMemory>
    requires ids { ids.now ≡ all_ids chunks.now }
    requires group { g.0 < length chunks.now.groups }
    ensures { IfOk result (λ listed. listed.items ≡ listed_ids chunks.now (group_at chunks.now g.0)) }
{
    let mut listed = Vec::new(alloc);
    for chunk in chunks.chunks(g) {
        add_some(&mut listed, id_at(chunks, ids, *chunk))?;
    }
    Ok(listed)
}

/// The ids of the chunks of a group.
pub fn group_ids_value(
    alloc: Global,
    chunks: &ChunkGraph,
    ids: &[Option<u32>],
    g: GroupNo,
) -> Result<Value, NoMemory>
    requires ids { ids.now ≡ all_ids chunks.now }
    requires group { g.0 < length chunks.now.groups }
    ensures { IfOk result (λ value. view value ≡ list_stats (map number_stats (listed_ids chunks.now (group_at chunks.now g.0)))) }
{
    let listed = group_ids(alloc, chunks, ids, g)?;
    numbers_value(alloc, &listed)
}
