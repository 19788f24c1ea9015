//! The groups of a graph and a configuration as a line.

ghost use Rattle.std.specs.Prelude.{◌≤◌, length};
ghost use Rattle.chunk_groups.specs.Grouped.{AreGroupsOver};
ghost use Rattle.chunk_groups.specs.ChunkGroups.{TellsGroups};
ghost use Rattle.graph_types.specs.Edges.{blocks_of};

use crate::{graphs, reached};
use chunk_groups::{GroupsEnd, groups};
use fault_place::{Fault, fault_line};
use graph_types::{Config, GroupInfo, Groups, ModuleGraph};
use pack_config::{ConfigEnd, read_config};
use pack_util::{GroupNo, NoMemory};
use std::alloc::{AllocError, Global};

/// The configuration of the word `j:JSON`.
fn config(alloc: Global, line: &str) -> Result<Option<Config>, NoMemory> {
    for word in line.split(' ') {
        if let Some(text) = word.strip_prefix("j:") {
            return match read_config(alloc, text.as_bytes()) {
                Ok(config) => Ok(Some(config)),
                Err(ConfigEnd::Fault(_)) => Ok(None),
                Err(ConfigEnd::NoMemory) => Err(AllocError),
            };
        }
    }
    Ok(None)
}

fn show_info(line: &mut String, info: &GroupInfo) -> Result<(), NoMemory> {
    if let Some(name) = &info.name {
        let name = name.get();
        write!(line, " {name}")?;
    }
    if let Some(entry) = info.entry {
        write!(line, " entry {entry}")?;
    }
    line.push_str(" roots")?;
    for root in info.roots.as_slice() {
        let number = root.0;
        write!(line, " {number}")?;
    }
    line.push_str(" blocks")?;
    for number in info.blocks.as_slice() {
        write!(line, " {number}")?;
    }
    line.push_str("; ")
}

/// Adds each group, the group of each block, and what stands in the groups.
fn show_groups(
    alloc: Global,
    line: &mut String,
    graph: &ModuleGraph,
    groups: &Groups,
) -> Result<(), NoMemory>
    requires over { AreGroupsOver graph.now groups.now.infos }
    requires tells { TellsGroups (length (blocks_of graph.now.records)) groups.now }
    requires few { length (blocks_of graph.now.records) ≤ 16_384 }
{
    let count = groups.count();
    if count > 16 {
        return write!(line, "{count} groups");
    }
    for g in 0..count {
        write!(line, "{g}:")?;
        show_info(line, groups.info(GroupNo(g)))?;
    }
    line.push_str("of")?;
    for b in 0..graph.blocks().len() {
        let g = groups.of_block(b as u32).0;
        write!(line, " {g}")?;
    }
    line.push_str("; ")?;
    reached::show_all(alloc, line, graph, groups)
}

fn show_faults(alloc: Global, line: &mut String, faults: &[Fault]) -> Result<(), NoMemory> {
    for fault in faults {
        let bytes = fault_line(alloc, fault)?;
        for byte in &bytes {
            line.push(char::from(*byte))?;
        }
        line.push_str("; ")?;
    }
    Ok(())
}

/// The groups of the line's graph and configuration, or why there are none.
pub fn answer(alloc: Global, words: &str) -> Result<String, NoMemory> {
    let entries = graphs::entries(alloc, words)?;
    let graph = graphs::graph(alloc, words, &entries)?;
    let mut line = String::new(alloc);
    let Some(config) = config(alloc, words)? else {
        line.push_str("no configuration")?;
        return Ok(line);
    };
    let fits = entries.len() == config.entries.as_slice().len()
        && graph.count() <= 32_768
        && graph.blocks().len() <= 16_384;
    if !fits {
        line.push_str("does not fit")?;
        return Ok(line);
    }
    match groups(alloc, &graph, &config, "c.json") {
        Ok(groups) => show_groups(alloc, &mut line, &graph, &groups)?,
        Err(GroupsEnd::Faults(faults)) => show_faults(alloc, &mut line, faults.as_slice())?,
        Err(GroupsEnd::Limit) => line.push_str("limit")?,
        Err(GroupsEnd::NoMemory) => return Err(AllocError),
    }
    Ok(line)
}
