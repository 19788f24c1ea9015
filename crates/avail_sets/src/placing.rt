ghost use Rattle.std.specs.Prelude.{◌≡◌, length, IfOk};
ghost use Rattle.avail_sets.specs.Availability.{IsPlacedTable};

use bit_rows::{BitRow, BitTable};
use pack_util::NoMemory;
use std::alloc::Global;

/// A row for each group with what it reaches and isn't available to it.
pub fn place(alloc: Global, reach: &BitTable, avail: &BitTable) -> Result<BitTable, NoMemory>
    requires rows { length avail.now.rows ≡ length reach.now.rows }
    requires width { avail.now.width ≡ reach.now.width }
    ensures { IfOk result (IsPlacedTable reach.now avail.now) }
{
    let mut table = BitTable::new(alloc, reach.rows(), reach.width())?;
    let mut row = BitRow::new(alloc, reach.width())?;
    for g in 0..reach.rows() {
        row.copy_from(reach.row(g));
        row.minus(avail.row(g));
        table.swap_row(g, &mut row);
    }
    Ok(table)
}
