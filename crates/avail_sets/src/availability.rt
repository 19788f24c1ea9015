ghost use Rattle.std.specs.Prelude.{IfOk};
ghost use Rattle.chunk_groups.specs.Grouped.{AreGroupsOver, IsReach, net_of};
ghost use Rattle.chunk_groups.specs.Rows.{bit_in};
ghost use Rattle.avail_sets.specs.Availability.{IsAvailableTable, IsLeastServing, placed_by};

use crate::falling::fall;
use crate::opening::all_opened;
use crate::starting::{entries, first_rows};
use bit_rows::BitTable;
use graph_types::{Groups, ModuleGraph};
use pack_util::NoMemory;
use std::alloc::Global;

/// A row for each group with the modules that an earlier group has brought whenever the group is loaded.
pub fn available(
    alloc: Global,
    graph: &ModuleGraph,
    groups: &Groups,
    reach: &BitTable,
) -> Result<BitTable, NoMemory>
    requires over { AreGroupsOver graph.now groups.now.infos }
    requires reach { IsReach graph.now groups.now.infos reach.now }
    ensures available { IfOk result (IsAvailableTable graph.now groups.now.infos) }
    ensures least { IfOk result (λ avail. IsLeastServing (net_of graph.now groups.now.infos) (placed_by (bit_in reach.now.rows) (bit_in avail.rows))) }
{
    let opened = all_opened(alloc, graph, groups, reach)?;
    let mut avail = first_rows(alloc, groups, graph.count())?;
    let mut pending = entries(alloc, groups)?;
    fall(alloc, &opened, reach, &mut avail, &mut pending)?;
    Ok(avail)
}
