//! What groups reach, have available and have placed as a line.

ghost use Rattle.std.specs.Prelude.{◌≡◌, ◌<◌, length};
ghost use Rattle.chunk_groups.specs.Grouped.{AreGroupsOver, IsReach};

use crate::graphs;
use crate::rows::show_row;
use avail_sets::{available, place, why_placed};
use bit_rows::BitTable;
use chunk_groups::{are_over, reach};
use graph_types::{Groups, ModuleGraph};
use pack_util::{GroupNo, ModuleNo, NoMemory};
use std::alloc::Global;

fn show_why(
    alloc: Global,
    line: &mut String,
    graph: &ModuleGraph,
    groups: &Groups,
    reach: &BitTable,
    g: u32,
    m: u32,
) -> Result<(), NoMemory>
    requires over { AreGroupsOver graph.now groups.now.infos }
    requires reach { IsReach graph.now groups.now.infos reach.now }
    requires in_range { (g < length groups.now.infos) × (m < length graph.now.records) }
{
    let Some(reason) = why_placed(alloc, graph, groups, reach, GroupNo(g), ModuleNo(m))? else {
        return Ok(());
    };
    write!(line, " {m}(")?;
    for member in &reason {
        let number = member.0;
        write!(line, "{number} ")?;
    }
    line.push_str(")")?;
    Ok(())
}

fn show_group(
    alloc: Global,
    line: &mut String,
    graph: &ModuleGraph,
    groups: &Groups,
    reach: &BitTable,
    g: u32,
) -> Result<(), NoMemory>
    requires over { AreGroupsOver graph.now groups.now.infos }
    requires reach { IsReach graph.now groups.now.infos reach.now }
    requires in_range { g < length groups.now.infos }
{
    for m in 0..graph.count() {
        show_why(alloc, line, graph, groups, reach, g, m)?;
    }
    Ok(())
}

/// For each group what it has available, what is placed in it, and why.
pub fn answer(alloc: Global, words: &str) -> Result<String, NoMemory> {
    let graph = graphs::graph(alloc, words, &[])?;
    let groups = graphs::groups(alloc, words)?;
    let mut line = String::new(alloc);
    if !are_over(&graph, &groups) {
        line.push_str("out of range")?;
        return Ok(line);
    }
    show_all(alloc, &mut line, &graph, &groups)?;
    Ok(line)
}

/// Adds for each group what it has available, what is placed in it, and why.
pub fn show_all(
    alloc: Global,
    line: &mut String,
    graph: &ModuleGraph,
    groups: &Groups,
) -> Result<(), NoMemory>
    requires over { AreGroupsOver graph.now groups.now.infos }
{
    let reach = reach(alloc, graph, groups)?;
    let avail = available(alloc, graph, groups, &reach)?;
    let placed = place(alloc, &reach, &avail)?;
    for g in 0..groups.count() {
        write!(line, "{g}: has")?;
        show_row(line, avail.row(g))?;
        line.push_str(" gets")?;
        show_row(line, placed.row(g))?;
        line.push_str(" since")?;
        show_group(alloc, line, graph, groups, &reach, g)?;
        line.push_str("; ")?;
    }
    Ok(())
}
