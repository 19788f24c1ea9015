//! The modules that are placed in each group.
ghost use Rattle.std.specs.Prelude.{IfOk};
ghost use Rattle.chunk_groups.specs.Grouped.{AreGroupsOver};
ghost use Rattle.seal_build.specs.Final.{ArePlaced};

use avail_sets::{available, place};
use bit_rows::BitTable;
use chunk_groups::reach;
use graph_types::{Groups, ModuleGraph};
use pack_util::NoMemory;
use std::alloc::Global;

/// A row for each group with the modules that are placed in it.
pub(crate) fn placed_modules(
    alloc: Global,
    graph: &ModuleGraph,
    groups: &Groups,
) -> Result<BitTable, NoMemory>
    requires { AreGroupsOver graph.now groups.now.infos }
    ensures { IfOk result (ArePlaced graph.now groups.now.infos) }
{
    let reach = reach(alloc, graph, groups)?;
    let avail = available(alloc, graph, groups, &reach)?;
    let placed = place(alloc, &reach, &avail)?;
    let _even = (reach.rows(), avail.rows(), placed.rows());
    Ok(placed)
}
