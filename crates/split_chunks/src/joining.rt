//! The chunk that a split made joins the groups of the chunks that lent modules.
ghost use Rattle.std.specs.Prelude.{◌≡◌, ◌<◌, ◌≤◌, false, length, slice_set, OnOk};
ghost use Rattle.std.specs.List.{list_any};
ghost use Rattle.chunk_graph.specs.Chunks.{chunk_at, group_at, is_in};
ghost use Rattle.split_plan.specs.Step.{with_joined};
ghost use Rattle.split_chunks.specs.Ends.{joined_list};

use crate::lists::is_there;
use bit_rows::BitRow;
use chunk_graph::ChunkGraph;
use pack_util::{ChunkNo, GroupNo, NoMemory};

fn has_some(list: &[ChunkNo], row: &BitRow) -> bool
    ensures { result ≡ list_any (λ c. is_in row.now c.0) list.now }
{
    list.iter().any(|chunk| is_there(row, chunk.0))
}

fn join_one(
    state: &mut ChunkGraph,
    row: &BitRow,
    group: GroupNo,
    chunk: ChunkNo,
) -> Result<(), NoMemory>
    requires group { group.0 < length state.old.groups }
    requires within { chunk.0 < length state.old.chunks }
    requires there { (chunk_at state.old chunk.0).gone ≡ false }
    ensures { OnOk result (state.new ≡ record state.old { groups = slice_set state.old.groups group.0 (joined_list row.now chunk.0 (group_at state.old group.0)) }) }
{
    if has_some(state.chunks(group), row) {
        state.connect(group, chunk)?;
    }
    Ok(())
}

/// The chunk joins each group that has a chunk of the row.
pub fn join_all(state: &mut ChunkGraph, row: &BitRow, chunk: ChunkNo) -> Result<(), NoMemory>
    requires within { chunk.0 < length state.old.chunks }
    requires there { (chunk_at state.old chunk.0).gone ≡ false }
    ensures { OnOk result (state.new ≡ with_joined row.now chunk.0 state.old) }
{
    for group in 0..state.group_count() {
        join_one(state, row, GroupNo(group), chunk)?;
    }
    Ok(())
}
