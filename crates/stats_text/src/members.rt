//! The modules of chunks.
ghost use Rattle.std.specs.Prelude.{◌≡◌, ◌<◌, ◌≤◌, ◌^◌, length, IfOk};
ghost use Rattle.std.specs.List.{AllByRecursion};
ghost use Rattle.graph_types.specs.Modules.{AreNumbersOf};
ghost use Rattle.stats_text.specs.Lists.{held_modules, size_of_modules};

use bit_rows::BitRow;
use graph_types::ModuleGraph;
use pack_util::{MAX_TEXT, ModuleNo, NoMemory};
use std::alloc::Global;

/// The modules of a row.
pub fn held_modules(alloc: Global, row: &BitRow) -> Result<Vec<ModuleNo>, NoMemory>
    ensures { IfOk result (λ modules. modules.items ≡ held_modules row.now) }
{
    let _len = row.len();
    let mut modules = Vec::new(alloc);
    let mut at = 0;
    while let Some(place) = row.next_from(at) {
        modules.push(ModuleNo(place))?;
        at = place + 1;
    }
    Ok(modules)
}

/// The sizes of some modules, added up.
pub fn total_size(graph: &ModuleGraph, modules: &[ModuleNo]) -> u64
    requires sizes { AllByRecursion (λ rec. rec.size ≤ MAX_TEXT) graph.now.records }
    requires there { AreNumbersOf graph.now.records modules.now }
    requires few { length modules.now < 2 ^ 32 }
    ensures { result ≡ size_of_modules graph.now.records modules.now }
{
    let mut total = 0;
    for m in modules {
        total += graph.rec(*m).size;
    }
    total
}
