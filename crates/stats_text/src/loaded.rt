//! The groups that modules load on demand.
ghost use Rattle.std.specs.Prelude.{◌≡◌, ◌<◌, ◌^◌, [], length, map, IfOk};
ghost use Rattle.std.specs.List.{range_with_len};
ghost use Rattle.graph_types.specs.Edges.{blocks_of};
ghost use Rattle.stats_text.specs.inner.Loaded.{loaded_before, all_loaded};

use graph_types::{Groups, ModuleGraph};
use pack_util::{GroupNo, NoMemory, Seq};
use std::alloc::Global;

fn empty_lists(alloc: Global, count: u32) -> Result<Vec<Seq<GroupNo>>, NoMemory>
    ensures { IfOk result (λ lists. lists.items ≡ map (λ m. []) (range_with_len 0 count)) }
{
    let mut lists = Vec::new(alloc);
    for _ in 0..count {
        lists.push(Seq::new(alloc))?;
    }
    Ok(lists)
}

/// The groups that the blocks of each module load.
pub fn all_loaded(
    alloc: Global,
    graph: &ModuleGraph,
    groups: &Groups,
) -> Result<Vec<Seq<GroupNo>>, NoMemory>
    requires few { length (blocks_of graph.now.records) < 2 ^ 32 }
    requires blocks { length groups.now.of_block ≡ length (blocks_of graph.now.records) }
    ensures { IfOk result (λ lists. lists.items ≡ all_loaded groups.now.of_block graph.now.records) }
{
    let mut lists = empty_lists(alloc, graph.count())?;
    for (b, block) in graph.blocks().iter().enumerate() {
        let list = &mut lists[block.module.0 as usize];
        list.push(groups.of_block(b as u32))?;
    }
    Ok(lists)
}
