//! The graph of the records that were gathered.
ghost use Rattle.std.specs.Prelude.{◌≡◌, ◌≤◌, ◌++◌, flat_map, length, nat_eq, IsPermutation, OnOk, IfOk};
ghost use Rattle.std.specs.List.{AllByRecursion, IsDistinct};
ghost use Rattle.fault_place.specs.Limit.{number_of};
ghost use Rattle.fault_place.specs.declared.limit.Limit.TheVariants.{Modules};
ghost use Rattle.graph_types.specs.Edges.{HasFewItems};
ghost use Rattle.graph_types.specs.Modules.{AreAscending, files_of};
ghost use Rattle.make_rounds.specs.inner.Closed.{IsGraphFrom};

use fault_place::Fault;
use graph_types::{ModRecord, ModuleGraph};
use pack_util::{FileId, NoMemory, Seq};
use std::alloc::Global;

fn file_number(rec: &ModRecord) -> u32
    ensures { result ≡ rec.now.file.0 }
{
    rec.file.0
}

/// The records in the order of their files, which is that of their paths.
fn in_file_order(mut records: Vec<ModRecord>) -> Vec<ModRecord>
    ensures same { IsPermutation records.items result.items }
    ensures ascending { IsDistinct nat_eq (files_of records.items) → AreAscending result.items }
{
    records.sort_unstable_by_key(|record| file_number(record));
    records
}

fn add_faults(faults: &mut Vec<Fault>, more: &[Fault]) -> Result<(), NoMemory>
    ensures { OnOk result (faults.new.items ≡ faults.old.items ++ more.now) }
{
    for fault in more {
        faults.push(fault.clone()?)?;
    }
    Ok(())
}

/// The faults that were found before, and then those of the records.
fn all_faults(faults: Vec<Fault>, records: &[ModRecord]) -> Result<Vec<Fault>, NoMemory>
    ensures { IfOk result (λ all. all.items ≡ faults.items ++ flat_map (λ rec. rec.faults) records.now) }
{
    let mut all = faults;
    for record in records {
        add_faults(&mut all, record.faults.as_slice())?;
    }
    Ok(all)
}

/// The graph of records of different files.
pub(crate) fn graph(
    alloc: Global,
    records: Vec<ModRecord>,
    entries: &[Seq<FileId>],
    faults: Vec<Fault>,
) -> Result<ModuleGraph, NoMemory>
    requires distinct { IsDistinct nat_eq (files_of records.items) }
    requires few { length records.items ≤ number_of Modules }
    requires few_items { AllByRecursion HasFewItems records.items }
    ensures { IfOk result (IsGraphFrom records.items entries.now faults.items) }
{
    let records = in_file_order(records);
    let faults = all_faults(faults, &records)?;
    ModuleGraph::from_records(alloc, records, entries, faults)
}
