//! The chunks of groups before splits.
ghost use Rattle.std.specs.Prelude.{◌≡◌, ◌≤◌, length, IfOk};
ghost use Rattle.seal_build.specs.Final.{before_splits, group_names};

use bit_rows::BitTable;
use chunk_graph::ChunkGraph;
use graph_types::{Config, Groups};
use pack_util::{GroupNo, NoMemory, Text};
use std::alloc::Global;

fn copy_name(name: &Option<Text>) -> Result<Option<Text>, NoMemory>
    ensures { IfOk result (λ copy. copy ≡ name.now) }
{
    match name {
        Some(text) => Ok(Some(text.clone()?)),
        None => Ok(None),
    }
}

fn group_names(alloc: Global, groups: &Groups) -> Result<Vec<Option<Text>>, NoMemory>
    ensures { IfOk result (λ names. names.items ≡ group_names groups.now.infos) }
{
    let mut names = Vec::new(alloc);
    for g in 0..groups.count() {
        names.push(copy_name(&groups.info(GroupNo(g)).name)?)?;
    }
    Ok(names)
}

/// One chunk for each group with the modules of its row, and equal ones made one where the configuration says so.
pub(crate) fn first_chunks(
    alloc: Global,
    config: &Config,
    groups: &Groups,
    placed: &BitTable,
) -> Result<ChunkGraph, NoMemory>
    requires rows { length placed.now.rows ≡ length groups.now.infos }
    requires few { length groups.now.infos ≤ 4096 }
    requires entries { length config.now.entries ≤ length groups.now.infos }
    ensures { IfOk result (λ chunks. chunks ≡ before_splits config.now groups.now.infos placed.now) }
{
    let names = group_names(alloc, groups)?;
    let entries = config.entries.as_slice().len() as u32;
    let mut chunks = ChunkGraph::start(alloc, placed, entries, &names)?;
    if config.merge_equal {
        chunks.merge_equal(alloc)?;
    }
    Ok(chunks)
}
