//! Modules marked in a row while those that are new wait for their targets.

ghost use Rattle.std.specs.Prelude.{◌≡◌, ◌<◌, [], ◌∷◌, length, All, OnOk};
ghost use Rattle.chunk_groups.specs.inner.Marking.{IsMarked};

use bit_rows::BitRow;
use pack_util::{ModuleNo, NoMemory};

fn mark_one(row: &mut BitRow, waiting: &mut Vec<ModuleNo>, m: ModuleNo) -> Result<(), NoMemory>
    requires { m.0 < length row.old }
    ensures { OnOk result (IsMarked row.old row.new waiting.old.items waiting.new.items (m ∷ [])) }
{
    if row.get(m.0) {
        return Ok(());
    }
    row.set(m.0, true);
    waiting.push(m)?;
    Ok(())
}

/// Marks modules, and lets those wait that weren't marked.
pub(crate) fn mark_new(
    row: &mut BitRow,
    waiting: &mut Vec<ModuleNo>,
    modules: &[ModuleNo],
) -> Result<(), NoMemory>
    requires { All (λ m. m.0 < length row.old) modules.now }
    ensures { OnOk result (IsMarked row.old row.new waiting.old.items waiting.new.items modules.now) }
{
    for m in modules {
        mark_one(row, waiting, *m)?;
    }
    Ok(())
}
