//! Whether groups are those of a graph as far as numbers go.

ghost use Rattle.std.specs.Prelude.{◌≡◌, ◌<◌, ◌↔◌, length, All, IsTrue};
ghost use Rattle.graph_types.specs.Edges.{blocks_of};
ghost use Rattle.chunk_groups.specs.Grouped.{AreGroupsOver, IsOver};

use graph_types::{GroupInfo, Groups, ModuleGraph};
use pack_util::{GroupNo, ModuleNo};

fn are_below(modules: &[ModuleNo], count: u32) -> bool
    ensures { IsTrue result ↔ All (λ m. m.0 < count) modules.now }
{
    modules.iter().all(|m| m.0 < count)
}

fn are_numbers_below(numbers: &[u32], count: usize) -> bool
    ensures { IsTrue result ↔ All (λ number. number < count) numbers.now }
{
    numbers.iter().all(|number| (*number as usize) < count)
}

fn is_over(graph: &ModuleGraph, info: &GroupInfo) -> bool
    ensures { IsTrue result ↔ IsOver graph.now info.now }
{
    let in_blocks = are_numbers_below(info.blocks.as_slice(), graph.blocks().len());
    in_blocks && are_below(info.roots.as_slice(), graph.count())
}

/// Whether the groups speak of modules and blocks of the graph alone. Takes no memory.
pub fn are_over(graph: &ModuleGraph, groups: &Groups) -> bool
    ensures { IsTrue result ↔ AreGroupsOver graph.now groups.now.infos }
{
    for g in 0..groups.count() {
        if !is_over(graph, groups.info(GroupNo(g))) {
            return false;
        }
    }
    true
}
