//! Where the fall starts.

ghost use Rattle.std.specs.Prelude.{◌≡◌, length, is_some, IfOk, IsTrue};
ghost use Rattle.chunk_groups.specs.Grouped.{info_at};
ghost use Rattle.avail_sets.specs.inner.Falling.{AreFirst, SaysWhich, first_row};

use bit_rows::{BitRow, BitTable};
use graph_types::{GroupInfo, Groups};
use pack_util::{GroupNo, NoMemory};
use std::alloc::Global;

fn first_row(alloc: Global, info: &GroupInfo, width: u32) -> Result<BitRow, NoMemory>
    ensures { IfOk result (λ row. row ≡ first_row info.now width) }
{
    if info.entry.is_some() {
        return BitRow::new(alloc, width);
    }
    BitRow::full(alloc, width)
}

/// An entry has nothing there when it is loaded. Any other group has everything, until a load history shows that it
/// may lack something.
pub(crate) fn first_rows(alloc: Global, groups: &Groups, width: u32) -> Result<BitTable, NoMemory>
    ensures { IfOk result (AreFirst groups.now.infos width) }
{
    let mut table = BitTable::new(alloc, groups.count(), width)?;
    for g in 0..groups.count() {
        let mut row = first_row(alloc, groups.info(GroupNo(g)), width)?;
        table.swap_row(g, &mut row);
    }
    Ok(table)
}

/// The entries' groups.
pub(crate) fn entries(alloc: Global, groups: &Groups) -> Result<BitRow, NoMemory>
    ensures places { IfOk result (λ row. length row ≡ length groups.now.infos) }
    ensures entries { IfOk result (λ row. SaysWhich (λ g. IsTrue (is_some (info_at groups.now.infos g).entry)) row (length groups.now.infos)) }
{
    let mut row = BitRow::new(alloc, groups.count())?;
    for g in 0..groups.count() {
        row.set(g, groups.info(GroupNo(g)).entry.is_some());
    }
    Ok(row)
}
