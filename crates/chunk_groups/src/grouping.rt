//! The groups of a graph.

ghost use Rattle.std.specs.Prelude.{◌≡◌, ◌+◌, nat_lt, length, filter, IfOk};
ghost use Rattle.fault_place.specs.Limit.{number_of};
ghost use Rattle.fault_place.specs.declared.limit.Limit.TheVariants as limits;
ghost use Rattle.graph_types.specs.Edges.{blocks_of};
ghost use Rattle.graph_types.specs.Fits.{Fits};
ghost use Rattle.pack_util.specs.Answers.{Answers};
ghost use Rattle.chunk_groups.specs.Answer.{groups_or_end};
ghost use Rattle.chunk_groups.specs.ChunkGroups.{groups_of, has_no_name, numbered_blocks, TellsGroups};
ghost use Rattle.chunk_groups.specs.ChunkNames.{chunk_names};
ghost use Rattle.chunk_groups.specs.Grouped.{AreGroupsOver};

use crate::GroupsEnd;
use crate::filing::filed;
use crate::naming::{chunk_names, has_no_name};
use crate::taken::name_faults;
use fault_place::{Limit, sort_faults};
use graph_types::{Config, EntrySpec, Groups, ModuleGraph};
use pack_util::{Seq, Text};
use std::alloc::Global;

/// How many blocks give no name to their chunk.
fn unnamed_count(graph: &ModuleGraph) -> usize
    ensures { result ≡ length (filter (has_no_name graph.now.records) (numbered_blocks graph.now.records)) }
{
    let mut count = 0;
    for block in graph.blocks() {
        count += usize::from(has_no_name(graph, block));
    }
    count
}

fn are_too_many(graph: &ModuleGraph, entries: &[EntrySpec], names: &[Text]) -> bool
    requires names { names.now ≡ chunk_names graph.now.records }
    ensures { result ≡ nat_lt (number_of limits.Groups) (length (groups_of graph.now entries.now)) }
{
    let count = entries
        .len()
        .saturating_add(names.len())
        .saturating_add(unnamed_count(graph));
    count as u64 > Limit::Groups.number()
}

/// The groups of a graph that fits the configuration: those of the entries, then one for each chunk name, then one for
/// each block without a name.
pub fn groups(
    alloc: Global,
    graph: &ModuleGraph,
    config: &Config,
    config_path: &str,
) -> Result<Groups, GroupsEnd>
    requires fits { Fits (length config.now.entries) graph.now }
    ensures groups { Answers GroupsEnd.NoMemory (λ groups. groups.infos)
        (groups_or_end graph.now config.now.entries config.now.cache_groups config_path.now) result }
    ensures tells { IfOk result (TellsGroups (length (blocks_of graph.now.records))) }
    ensures over { IfOk result (λ groups. AreGroupsOver graph.now groups.infos) }
{
    let entries = config.entries.as_slice();
    let names = chunk_names(alloc, graph)?;
    if are_too_many(graph, entries, &names) {
        return Err(GroupsEnd::Limit);
    }
    let mut faults = name_faults(alloc, graph, config, config_path, &names)?;
    if !faults.is_empty() {
        sort_faults(alloc, &mut faults)?;
        return Err(GroupsEnd::Faults(Seq::from_vec(faults)));
    }
    Ok(filed(alloc, graph, entries, &names)?)
}
