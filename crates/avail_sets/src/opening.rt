//! Which groups each group may load.

ghost use Rattle.std.specs.Prelude.{◌≡◌, ◌↔◌, length, OnOk, IfOk, IsTrue};
ghost use Rattle.bit_rows.specs.Table.{Table};
ghost use Rattle.chunk_groups.specs.Grouped.{AreGroupsOver, IsOver, IsReach, info_at, net_of};
ghost use Rattle.avail_sets.specs.inner.Falling.{AreOpened, HasHomeIn, IsOpened, SaysWhich};

use bit_rows::{BitRow, BitTable};
use graph_types::{GroupInfo, Groups, ModuleGraph};
use pack_util::{GroupNo, NoMemory};
use std::alloc::Global;

fn has_home_in(graph: &ModuleGraph, info: &GroupInfo, modules: &BitRow) -> bool
    requires over { IsOver graph.now info.now }
    requires len { length modules.now ≡ length graph.now.records }
    ensures { IsTrue result ↔ HasHomeIn graph.now info.now modules.now }
{
    let blocks = graph.blocks();
    for b in info.blocks.as_slice() {
        if modules.get(blocks[*b as usize].module.0) {
            return true;
        }
    }
    false
}

fn is_opened(graph: &ModuleGraph, info: &GroupInfo, modules: &BitRow) -> bool
    requires over { IsOver graph.now info.now }
    requires len { length modules.now ≡ length graph.now.records }
    ensures { IsTrue result ↔ IsOpened graph.now info.now modules.now }
{
    if info.entry.is_some() {
        return false;
    }
    has_home_in(graph, info, modules)
}

/// Sets in the row the groups that blocks in these modules load.
fn set_opened(graph: &ModuleGraph, groups: &Groups, modules: &BitRow, row: &mut BitRow)
    requires over { AreGroupsOver graph.now groups.now.infos }
    requires len { length modules.now ≡ length graph.now.records }
    requires places { length row.old ≡ length groups.now.infos }
    ensures places { length row.new ≡ length groups.now.infos }
    ensures opened { SaysWhich (λ g. IsOpened graph.now (info_at groups.now.infos g) modules.now) row.new (length groups.now.infos) }
{
    for g in 0..groups.count() {
        row.set(g, is_opened(graph, groups.info(GroupNo(g)), modules));
    }
}

/// A row for each group with the groups that it may load.
pub(crate) fn all_opened(
    alloc: Global,
    graph: &ModuleGraph,
    groups: &Groups,
    reach: &BitTable,
) -> Result<BitTable, NoMemory>
    requires over { AreGroupsOver graph.now groups.now.infos }
    requires reach { IsReach graph.now groups.now.infos reach.now }
    ensures rows { IfOk result (λ table. length table.rows ≡ length groups.now.infos) }
    ensures width { IfOk result (λ table. table.width ≡ length groups.now.infos) }
    ensures opened { IfOk result (λ table. AreOpened (net_of graph.now groups.now.infos) table.rows) }
{
    let mut table = BitTable::new(alloc, groups.count(), groups.count())?;
    let mut row = BitRow::new(alloc, groups.count())?;
    for p in 0..groups.count() {
        set_opened(graph, groups, reach.row(p), &mut row);
        table.swap_row(p, &mut row);
    }
    Ok(table)
}
