//! The modules that groups reach.

ghost use Rattle.std.specs.Prelude.{◌≡◌, ◌<◌, length, All, OnOk, IfOk};
ghost use Rattle.bit_rows.specs.Table.{blank};
ghost use Rattle.chunk_groups.specs.Grouped.{AreGroupsOver, IsReach, numbers, targets_at};
ghost use Rattle.chunk_groups.specs.inner.Marking.{HasReached};

use crate::marking::mark_new;
use bit_rows::{BitRow, BitTable};
use graph_types::{Groups, ModuleGraph};
use pack_util::{GroupNo, ModuleNo, NoMemory};
use std::alloc::Global;

/// Marks the modules that the roots reach in a row that has none.
fn mark_reached(
    alloc: Global,
    graph: &ModuleGraph,
    roots: &[ModuleNo],
    row: &mut BitRow,
) -> Result<(), NoMemory>
    requires blank { row.old ≡ blank (length graph.now.records) }
    requires roots { All (λ m. m.0 < length graph.now.records) roots.now }
    ensures len { OnOk result (length row.new ≡ length graph.now.records) }
    ensures reached { OnOk result (HasReached (targets_at graph.now.records) (numbers roots.now) row.new) }
{
    let mut waiting = Vec::new(alloc);
    mark_new(row, &mut waiting, roots)?;
    while let Some(m) = waiting.pop() {
        mark_new(row, &mut waiting, graph.sync_targets(m))?;
    }
    Ok(())
}

/// A row for each group with the modules that it reaches.
pub fn reach(alloc: Global, graph: &ModuleGraph, groups: &Groups) -> Result<BitTable, NoMemory>
    requires { AreGroupsOver graph.now groups.now.infos }
    ensures { IfOk result (IsReach graph.now groups.now.infos) }
{
    let mut table = BitTable::new(alloc, groups.count(), graph.count())?;
    // What `swap_row` gives back is a row of the new table, which has no true place.
    let mut row = BitRow::new(alloc, graph.count())?;
    for g in 0..groups.count() {
        let info = groups.info(GroupNo(g));
        mark_reached(alloc, graph, info.roots.as_slice(), &mut row)?;
        table.swap_row(g, &mut row);
    }
    Ok(table)
}
