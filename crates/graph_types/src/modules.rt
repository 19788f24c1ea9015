//! The modules of files.
ghost use Rattle.std.specs.Prelude.{◌≡◌, map, filter_map, IfOk};
ghost use Rattle.std.specs.Ordering.{nat_cmp};
ghost use Rattle.graph_types.specs.Modules.{AreModules, module_of};

use crate::ModRecord;
use pack_util::{FileId, ModuleNo, NoMemory, Seq, add_some};
use std::alloc::Global;
use std::cmp::Ordering;

/// The module of a file, found by halving.
pub fn module_of(records: &[ModRecord], file: FileId) -> Option<ModuleNo>
    requires modules { AreModules records.now }
    ensures { result ≡ module_of records.now file }
{
    let found = records.binary_search_by(
        |record: &ModRecord| -> Ordering
            ensures { result ≡ nat_cmp record.now.file.0 file.0 }
        { record.file.0.cmp(&file.0) },
    );
    match found {
        Ok(place) => Some(ModuleNo(place as u32)),
        Err(_) => None,
    }
}

fn roots(alloc: Global, records: &[ModRecord], entry: &[FileId]) -> Result<Seq<ModuleNo>, NoMemory>
    requires modules { AreModules records.now }
    ensures { IfOk result (λ modules. modules ≡ filter_map (module_of records.now) entry.now) }
{
    let mut modules = Vec::new(alloc);
    for file in entry {
        add_some(&mut modules, module_of(records, *file))?;
    }
    Ok(Seq::from_vec(modules))
}

/// The modules of each entry's files.
pub fn all_roots(
    alloc: Global,
    records: &[ModRecord],
    entries: &[Seq<FileId>],
) -> Result<Vec<Seq<ModuleNo>>, NoMemory>
    requires modules { AreModules records.now }
    ensures { IfOk result (λ all. all.items ≡ map (filter_map (module_of records.now)) entries.now) }
{
    let mut all = Vec::new(alloc);
    for entry in entries {
        all.push(roots(alloc, records, entry.as_slice())?)?;
    }
    Ok(all)
}
