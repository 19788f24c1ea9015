//! The final chunks of groups.
ghost use Rattle.std.specs.Prelude.{◌≡◌, ◌≤◌, ◌⊎◌, [], length, IfOk, IfErr};
ghost use Rattle.chunk_graph.specs.Chunks.{IsSound};
ghost use Rattle.chunk_groups.specs.Grouped.{AreGroupsOver};
ghost use Rattle.fault_place.specs.declared.limit.Limit.TheVariants.{Chunks};
ghost use Rattle.graph_types.specs.Fits.{Fits};
ghost use Rattle.seal_build.specs.Final.{IsFinal, after_splits};
ghost use Rattle.seal_build.specs.Seal.{NeedMoreChunks};
ghost use Rattle.seal_build.specs.declared.seal_end.SealEnd.TheVariants.{Limit, NoMemory};

use crate::SealEnd;
use crate::placement::placed_modules;
use crate::starting::first_chunks;
use chunk_graph::{ChunkGraph, Split};
use graph_types::{Config, Groups, ModuleGraph};
use split_chunks::split;
use std::alloc::Global;

fn drop_empty(config: &Config, chunks: &mut ChunkGraph)
    ensures after { chunks.new ≡ after_splits config.now chunks.old }
    ensures sound { IsSound chunks.new }
{
    if config.drop_empty {
        chunks.drop_empty();
    }
    let _sound = chunks.count();
}

/// The chunks after all splits, and the splits.
pub(crate) fn final_chunks(
    alloc: Global,
    graph: &ModuleGraph,
    config: &Config,
    groups: &Groups,
) -> Result<(ChunkGraph, Vec<Split>), SealEnd>
    requires fits { Fits (length config.now.entries) graph.now }
    requires no_faults { graph.now.faults ≡ [] }
    requires over { AreGroupsOver graph.now groups.now.infos }
    requires few { length groups.now.infos ≤ 4096 }
    requires entries { length config.now.entries ≤ length groups.now.infos }
    ensures is_final { IfOk result (λ both. IsFinal graph.now config.now groups.now.infos both.1.items both.0) }
    ensures few { IfOk result (λ both. length both.0.chunks ≤ 8192) }
    ensures err { IfErr result (λ end. (end ≡ NoMemory) ⊎ ((end ≡ Limit Chunks) × NeedMoreChunks graph.now config.now groups.now.infos)) }
{
    let placed = placed_modules(alloc, graph, groups)?;
    let mut chunks = first_chunks(alloc, config, groups, &placed)?;
    let splits = split(alloc, graph, config, &mut chunks)?;
    drop_empty(config, &mut chunks);
    Ok((chunks, splits))
}
