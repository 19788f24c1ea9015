ghost use Rattle.std.specs.Prelude.{◌≡◌, [], length};
ghost use Rattle.graph_types.specs.Fits.{Fits};
ghost use Rattle.seal_build.specs.Seal.{Seals};

use crate::chunking::final_chunks;
use crate::finishing::finish;
use crate::{SealEnd, Sealed};
use chunk_groups::groups;
use graph_types::{Config, ModuleGraph};
use module_code::SealView;
use std::alloc::Global;
use std::thread::Threads;

/// Seals by one worker.
pub fn seal_by_one(
    alloc: Global,
    graph: &ModuleGraph,
    config: &Config,
    config_path: &str,
) -> Result<Sealed, SealEnd>
    requires fits { Fits (length config.now.entries) graph.now }
    requires no_faults { graph.now.faults ≡ [] }
    ensures { Seals graph.now config.now config_path.now result }
{
    let groups = groups(alloc, graph, config, config_path)?;
    let (chunks, splits) = final_chunks(alloc, graph, config, &groups)?;
    let view = SealView {
        graph,
        groups: &groups,
        chunks: &chunks,
        config,
    };
    finish(alloc, &view, config_path, &splits)
}

/// Seals a graph without faults that fits the configuration at the path: the chunks of its groups, all splits of these,
/// and the text and the name of each chunk's file. Today one worker does all of it.
pub fn seal<Rt: Threads + Sync>(
    rt: &Rt,
    alloc: Global,
    graph: &ModuleGraph,
    config: &Config,
    config_path: &str,
) -> Result<Sealed, SealEnd>
    requires fits { Fits (length config.now.entries) graph.now }
    requires no_faults { graph.now.faults ≡ [] }
    ensures { Seals graph.now config.now config_path.now result }
{
    let _ = rt;
    seal_by_one(alloc, graph, config, config_path)
}
