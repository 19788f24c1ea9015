//! Lists of splits with a change in one of them, as the check takes them.

ghost use Rattle.std.specs.Prelude.{◌≡◌, ◌<◌, ◌≤◌, ◌^◌, length, map, sum};

use crate::placing::{Placed, start};
use chunk_graph::Split;
use graph_types::{Config, ModuleGraph};
use pack_util::{ChunkNo, ModuleNo, NoMemory, Seq};
use split_chunks::{CheckEnd, SplitRule, check_split};
use std::alloc::{AllocError, Global};

/// How one split of a list is changed.
#[derive(Clone, Copy)]
enum Change {
    Nothing,
    ChunkLess,
    ChunkMore,
    ChunksBackwards,
    /// Chunk 1 is put first.
    ChunkOneFirst,
    OtherGroup,
    GroupSeven,
    OtherForm,
    ModuleLess,
    ModuleMore,
    ModulesBackwards,
    OtherMade,
    OtherReused,
    /// The split and the one after it change places.
    Swapped,
}

const CHANGES: [Change; 14] = [
    Change::Nothing,
    Change::ChunkLess,
    Change::ChunkMore,
    Change::ChunksBackwards,
    Change::ChunkOneFirst,
    Change::OtherGroup,
    Change::GroupSeven,
    Change::OtherForm,
    Change::ModuleLess,
    Change::ModuleMore,
    Change::ModulesBackwards,
    Change::OtherMade,
    Change::OtherReused,
    Change::Swapped,
];

fn rule_name(rule: SplitRule) -> &'static str {
    match rule {
        SplitRule::Group => "Group",
        SplitRule::Selection => "Selection",
        SplitRule::Requests => "Requests",
        SplitRule::Sharing => "Sharing",
        SplitRule::Modules => "Modules",
        SplitRule::Size => "Size",
        SplitRule::Made => "Made",
    }
}

fn changed_chunks(
    alloc: Global,
    list: &[ChunkNo],
    change: Change,
) -> Result<Seq<ChunkNo>, NoMemory> {
    let mut chunks = Vec::new(alloc);
    chunks.extend_from_slice(list)?;
    match change {
        Change::ChunkLess => {
            let _ = chunks.pop();
        }
        Change::ChunkMore => {
            let last = chunks.last().map_or(0, |chunk| chunk.0);
            chunks.push(ChunkNo(last.wrapping_add(1)))?;
        }
        Change::ChunksBackwards => chunks.reverse(),
        Change::ChunkOneFirst => chunks.insert(0, ChunkNo(1))?,
        _ => {}
    }
    Ok(Seq::from_vec(chunks))
}

fn changed_modules(
    alloc: Global,
    list: &[ModuleNo],
    change: Change,
) -> Result<Seq<ModuleNo>, NoMemory> {
    let mut modules = Vec::new(alloc);
    modules.extend_from_slice(list)?;
    match change {
        Change::ModuleLess => {
            let _ = modules.pop();
        }
        Change::ModuleMore => {
            let last = modules.last().map_or(0, |module| module.0);
            modules.push(ModuleNo(last.wrapping_add(1)))?;
        }
        Change::ModulesBackwards => modules.reverse(),
        _ => {}
    }
    Ok(Seq::from_vec(modules))
}

fn changed_group(group: u32, change: Change) -> u32 {
    match change {
        Change::OtherGroup => group.wrapping_add(1),
        Change::GroupSeven => 7,
        _ => group,
    }
}

fn changed(alloc: Global, split: &Split, change: Change) -> Result<Split, NoMemory> {
    let is_made = matches!(change, Change::OtherMade);
    Ok(Split {
        cache_group: changed_group(split.cache_group, change),
        forced: split.forced != matches!(change, Change::OtherForm),
        chunks: changed_chunks(alloc, split.chunks.as_slice(), change)?,
        modules: changed_modules(alloc, split.modules.as_slice(), change)?,
        made: ChunkNo(split.made.0.wrapping_add(u32::from(is_made))),
        reused: split.reused != matches!(change, Change::OtherReused),
    })
}

fn changed_list(
    alloc: Global,
    splits: &[Split],
    at: usize,
    change: Change,
) -> Result<Vec<Split>, NoMemory> {
    let mut list = Vec::new(alloc);
    for place in 0..splits.len() {
        let change = if place == at { change } else { Change::Nothing };
        list.push(changed(alloc, &splits[place], change)?)?;
    }
    if matches!(change, Change::Swapped) && at < list.len().saturating_sub(1) {
        list.swap(at, at + 1);
    }
    Ok(list)
}

fn show_check(
    alloc: Global,
    line: &mut String,
    graph: &ModuleGraph,
    config: &Config,
    placed: &Placed,
    list: &[Split],
) -> Result<(), NoMemory>
    requires { sum (map (λ rec. rec.size) graph.now.records) ≤ 2 ^ 50 }
{
    let Some(mut state) = start(alloc, placed, graph.count(), config.merge_equal)? else {
        return Ok(());
    };
    match check_split(alloc, graph, config, &mut state, list) {
        Ok(()) => line.push_str(" ok"),
        Err(CheckEnd::Break(stop)) => {
            let index = stop.index;
            let rule = rule_name(stop.rule);
            write!(line, " {rule}@{index}")
        }
        Err(CheckEnd::NoMemory) => Err(AllocError),
    }
}

/// What the check says of each list with a change in one split.
pub fn show_changes(
    alloc: Global,
    line: &mut String,
    graph: &ModuleGraph,
    config: &Config,
    placed: &Placed,
    splits: &[Split],
) -> Result<(), NoMemory>
    requires { sum (map (λ rec. rec.size) graph.now.records) ≤ 2 ^ 50 }
{
    line.push_str(" |")?;
    for at in 0..splits.len() {
        for change in CHANGES {
            let list = changed_list(alloc, splits, at, change)?;
            show_check(alloc, line, graph, config, placed, &list)?;
        }
        line.push_str(";")?;
    }
    Ok(())
}
