//! Groups made from entries, chunk names and blocks.

ghost use Rattle.std.specs.Prelude.{◌≡◌, ◌+◌, ◌<◌, ◌≤◌, ◌^◌, ◌++◌, [], ◌∷◌, map, length, slice_index_or, OnOk, IfOk, vec_len};
ghost use Rattle.graph_types.specs.Edges.{blocks_of};
ghost use Rattle.graph_types.specs.Modules.{AreNumbersOf};
ghost use Rattle.chunk_groups.specs.ChunkGroups.{entry_group, entry_groups, loaded_by, groups_of, TellsGroups};
ghost use Rattle.chunk_groups.specs.ChunkNames.{chunk_names};
ghost use Rattle.chunk_groups.specs.inner.Filing.{AreRoots, IsPut, groups_so_far, with_block};

use crate::naming::{chunk_name, place_of};
use graph_types::{Block, Config, EntrySpec, GroupInfo, Groups, ModuleGraph};
use pack_util::{GroupNo, ModuleNo, NoMemory, Seq, Text};
use std::alloc::Global;

fn entry_group(
    alloc: Global,
    graph: &ModuleGraph,
    number: u32,
    entry: &EntrySpec,
) -> Result<GroupInfo, NoMemory>
    requires { number < length graph.now.roots }
    ensures group { IfOk result (λ info. info ≡ entry_group graph.now.roots (number, entry.now)) }
    ensures roots { OnOk result (AreNumbersOf graph.now.records (slice_index_or graph.now.roots number [])) }
{
    let mut roots = Vec::new(alloc);
    roots.extend_from_slice(graph.entry_roots(number))?;
    Ok(GroupInfo {
        entry: Some(number),
        name: Some(entry.name.clone()?),
        roots: Seq::from_vec(roots),
        blocks: Seq::new(alloc),
    })
}

/// The groups of the entries.
fn entry_groups(
    alloc: Global,
    graph: &ModuleGraph,
    entries: &[EntrySpec],
) -> Result<Vec<GroupInfo>, NoMemory>
    requires lists { length graph.now.roots ≡ length entries.now }
    requires few { length entries.now < 2 ^ 32 }
    ensures groups { IfOk result (λ infos. infos.items ≡ entry_groups graph.now.roots entries.now) }
    ensures roots { OnOk result (AreRoots graph.now (length entries.now)) }
{
    let mut infos = Vec::new(alloc);
    for (number, entry) in entries.iter().enumerate() {
        infos.push(entry_group(alloc, graph, number as u32, entry)?)?;
    }
    Ok(infos)
}

/// Adds a group without blocks for each chunk name.
fn add_named(alloc: Global, infos: &mut Vec<GroupInfo>, names: &[Text]) -> Result<(), NoMemory>
    ensures { OnOk result (infos.new.items ≡ infos.old.items ++ map (λ name. loaded_by (Some name) []) names.now) }
{
    for name in names {
        infos.push(GroupInfo {
            entry: None,
            name: Some(name.clone()?),
            roots: Seq::new(alloc),
            blocks: Seq::new(alloc),
        })?;
    }
    Ok(())
}

fn add_to(info: &mut GroupInfo, number: u32, target: ModuleNo) -> Result<(), NoMemory>
    ensures { OnOk result (info.new ≡ with_block info.old number target) }
{
    info.roots.push(target)?;
    info.blocks.push(number)
}

fn unnamed(alloc: Global, number: u32, block: Block) -> Result<GroupInfo, NoMemory>
    ensures { IfOk result (λ info. info ≡ loaded_by None ((number, block) ∷ [])) }
{
    let mut info = GroupInfo {
        entry: None,
        name: None,
        roots: Seq::new(alloc),
        blocks: Seq::new(alloc),
    };
    add_to(&mut info, number, block.target)?;
    Ok(info)
}

/// Puts a block into the group that it loads, and answers the group's number.
fn file_block(
    alloc: Global,
    graph: &ModuleGraph,
    entries: &[EntrySpec],
    names: &[Text],
    number: u32,
    infos: &mut Vec<GroupInfo>,
) -> Result<GroupNo, NoMemory>
    requires within { number < length (blocks_of graph.now.records) }
    requires names { names.now ≡ chunk_names graph.now.records }
    requires so_far { infos.old.items ≡ groups_so_far graph.now entries.now number }
    requires few { vec_len infos.old < 2 ^ 32 }
    ensures put { IfOk result (λ g. IsPut infos.old.items infos.new.items number g.0) }
    ensures more { OnOk result (infos.new.items ≡ groups_so_far graph.now entries.now (number + 1)) }
    ensures len { vec_len infos.new ≤ vec_len infos.old + 1 }
{
    let block = graph.blocks()[number as usize];
    let Some(name) = chunk_name(graph, &block) else {
        let g = infos.len();
        infos.push(unnamed(alloc, number, block)?)?;
        return Ok(GroupNo(g as u32));
    };
    let g = entries.len() + place_of(names, name);
    add_to(&mut infos[g], number, block.target)?;
    Ok(GroupNo(g as u32))
}

/// The groups of a graph, where there are few.
pub(crate) fn filed(
    alloc: Global,
    graph: &ModuleGraph,
    entries: &[EntrySpec],
    names: &[Text],
) -> Result<Groups, NoMemory>
    requires lists { length graph.now.roots ≡ length entries.now }
    requires few { length entries.now + length names.now ≤ 4_096 }
    requires few_blocks { length (blocks_of graph.now.records) ≤ 16_384 }
    requires names { names.now ≡ chunk_names graph.now.records }
    ensures groups { IfOk result (λ groups. groups.infos ≡ groups_of graph.now entries.now) }
    ensures tells { IfOk result (TellsGroups (length (blocks_of graph.now.records))) }
    ensures roots { OnOk result (AreRoots graph.now (length entries.now)) }
{
    let mut infos = entry_groups(alloc, graph, entries)?;
    add_named(alloc, &mut infos, names)?;
    let mut of_block = Vec::new(alloc);
    for number in 0..graph.blocks().len() {
        let g = file_block(alloc, graph, entries, names, number as u32, &mut infos)?;
        of_block.push(g)?;
    }
    Ok(Groups::new(infos, of_block))
}
