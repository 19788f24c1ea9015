//! Names of chunks that are taken.

ghost use Rattle.std.specs.Prelude.{◌≡◌, ◌++◌, bytes_eq, filter_map, length, IfOk};
ghost use Rattle.std.specs.List.{list_any};
ghost use Rattle.graph_types.specs.Edges.{blocks_of};
ghost use Rattle.graph_types.specs.Fits.{Fits};
ghost use Rattle.chunk_groups.specs.ChunkNames.{chunk_names};
ghost use Rattle.chunk_groups.specs.NameFaults.{block_fault, cache_group_fault, is_entry_name, is_taken, name_faults, name_taken};
ghost use Rattle.chunk_groups.specs.inner.Filing.{StandsIn};

use fault_place::{Fault, FaultKind, Place, Spot, place_at};
use graph_types::{Block, CacheGroup, Config, EntrySpec, ModuleGraph};
use pack_util::{NoMemory, Text, add_some};
use std::alloc::Global;

fn is_entry_name(entries: &[EntrySpec], name: &Text) -> bool
    ensures { result ≡ is_entry_name entries.now name.now }
{
    entries.iter().any(|entry| entry.name == *name)
}

fn is_among(names: &[Text], name: &Text) -> bool
    ensures { result ≡ list_any (λ other. bytes_eq other name.now) names.now }
{
    names.iter().any(|other| *other == *name)
}

fn is_taken(entries: &[EntrySpec], names: &[Text], name: &Text) -> bool
    ensures { result ≡ is_taken entries.now names.now name.now }
{
    is_entry_name(entries, name) || is_among(names, name)
}

fn block_fault(
    alloc: Global,
    graph: &ModuleGraph,
    entries: &[EntrySpec],
    block: &Block,
) -> Result<Option<Fault>, NoMemory>
    requires stands { StandsIn graph.now.records block.now }
    requires fits { Fits (length entries.now) graph.now }
    ensures { IfOk result (λ fault. fault ≡ block_fault graph.now.records entries.now block.now) }
{
    let rec = graph.rec(block.module);
    let item = &rec.items.as_slice()[block.item as usize];
    let Some(name) = &item.chunk_name else {
        return Ok(None);
    };
    if !is_entry_name(entries, name) {
        return Ok(None);
    }
    let text = rec.text.get();
    Ok(Some(Fault {
        place: place_at(alloc, rec.path.get(), text, u64::from(item.at))?,
        kind: FaultKind::EntryOnDemand,
        detail: name.clone()?,
    }))
}

fn name_taken(alloc: Global, config_path: &str, spot: Spot, name: &Text) -> Result<Fault, NoMemory>
    ensures { IfOk result (λ fault. fault ≡ name_taken config_path.now spot name.now) }
{
    Ok(Fault {
        place: Place {
            path: Text::new(alloc, config_path)?,
            offset: spot.offset,
            line: spot.line,
            column: spot.column,
        },
        kind: FaultKind::GroupName,
        detail: name.clone()?,
    })
}

fn cache_group_fault(
    alloc: Global,
    config_path: &str,
    entries: &[EntrySpec],
    names: &[Text],
    group: &CacheGroup,
) -> Result<Option<Fault>, NoMemory>
    ensures { IfOk result (λ fault. fault ≡ cache_group_fault config_path.now entries.now names.now group.now) }
{
    let Some(name) = &group.name else {
        return Ok(None);
    };
    if !is_taken(entries, names, name) {
        return Ok(None);
    }
    Ok(Some(name_taken(alloc, config_path, group.name_at, name)?))
}

fn block_faults(
    alloc: Global,
    graph: &ModuleGraph,
    entries: &[EntrySpec],
) -> Result<Vec<Fault>, NoMemory>
    requires fits { Fits (length entries.now) graph.now }
    ensures { IfOk result (λ faults. faults.items ≡ filter_map (block_fault graph.now.records entries.now) (blocks_of graph.now.records)) }
{
    let mut faults = Vec::new(alloc);
    for block in graph.blocks() {
        add_some(&mut faults, block_fault(alloc, graph, entries, block)?)?;
    }
    Ok(faults)
}

/// The faults of chunk names that are an entry's, and of cache groups' names that an entry or a block has.
pub(crate) fn name_faults(
    alloc: Global,
    graph: &ModuleGraph,
    config: &Config,
    config_path: &str,
    names: &[Text],
) -> Result<Vec<Fault>, NoMemory>
    requires fits { Fits (length config.now.entries) graph.now }
    requires names { names.now ≡ chunk_names graph.now.records }
    ensures { IfOk result (λ faults. faults.items ≡ name_faults graph.now.records config.now.entries config.now.cache_groups config_path.now) }
{
    let entries = config.entries.as_slice();
    let mut faults = block_faults(alloc, graph, entries)?;
    for group in config.cache_groups.as_slice() {
        add_some(
            &mut faults,
            cache_group_fault(alloc, config_path, entries, names, group)?,
        )?;
    }
    Ok(faults)
}
