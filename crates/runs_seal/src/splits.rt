//! Splits, the chunks and groups after them, and what the check says of changed lists as a line.

ghost use Rattle.std.specs.Prelude.{◌≡◌, ◌<◌, ◌≤◌, ◌^◌, length, map, sum};

use crate::changes::show_changes;
use crate::graphs::graph;
use crate::placing::{Placed, placed_by, start};
use crate::rows::show_row;
use chunk_graph::{ChunkGraph, Split};
use graph_types::{Config, ModuleGraph};
use pack_config::read_config;
use pack_util::{ChunkNo, GroupNo, ModuleNo, NoMemory};
use split_chunks::{SplitEnd, split};
use std::alloc::{AllocError, Global};

fn show_chunks(line: &mut String, list: &[ChunkNo]) -> Result<(), NoMemory> {
    for chunk in list {
        let number = chunk.0;
        write!(line, " {number}")?;
    }
    Ok(())
}

fn show_modules(line: &mut String, list: &[ModuleNo]) -> Result<(), NoMemory> {
    for module in list {
        let number = module.0;
        write!(line, " {number}")?;
    }
    Ok(())
}

fn show_split(line: &mut String, made: &Split) -> Result<(), NoMemory> {
    let group = made.cache_group;
    let chunk = made.made.0;
    let form = if made.forced { "forced" } else { "limited" };
    write!(line, "{group} {form} [")?;
    show_chunks(line, made.chunks.as_slice())?;
    line.push_str(" ] {")?;
    show_modules(line, made.modules.as_slice())?;
    let verb = if made.reused { "reuses" } else { "makes" };
    write!(line, " }} {verb} {chunk}; ")
}

fn show_chunk(line: &mut String, graph: &ChunkGraph, number: u32) -> Result<(), NoMemory>
    requires { number < length graph.now.chunks }
{
    let chunk = ChunkNo(number);
    let Some(id) = graph.id(chunk) else {
        return write!(line, "{number} gone; ");
    };
    if !graph.is_entry(chunk) && !graph.is_closed(chunk) && graph.mods(chunk).count() == 0 {
        return Ok(());
    }
    let name = graph.name(chunk).unwrap_or("");
    write!(line, "{number} id {id} {name}{{")?;
    show_row(line, graph.mods(chunk))?;
    line.push_str(" }; ")
}

fn show_graph(line: &mut String, graph: &ChunkGraph) -> Result<(), NoMemory> {
    line.push_str("| ")?;
    for number in 0..graph.count() {
        show_chunk(line, graph, number)?;
    }
    line.push_str("|")?;
    for group in 0..graph.group_count() {
        write!(line, " {group}:")?;
        show_chunks(line, graph.chunks(GroupNo(group)))?;
    }
    Ok(())
}

fn show_splits(
    alloc: Global,
    line: &mut String,
    graph: &ModuleGraph,
    config: &Config,
    placed: &Placed,
) -> Result<(), NoMemory>
    requires { sum (map (λ rec. rec.size) graph.now.records) ≤ 2 ^ 50 }
{
    let Some(mut state) = start(alloc, placed, graph.count(), config.merge_equal)? else {
        return line.push_str("too many groups");
    };
    let splits = match split(alloc, graph, config, &mut state) {
        Ok(splits) => splits,
        Err(SplitEnd::Limit) => {
            line.push_str("limit ")?;
            return show_graph(line, &state);
        }
        Err(SplitEnd::NoMemory) => return Err(AllocError),
    };
    if placed.is_short {
        let (count, chunks) = (splits.len(), state.count());
        return write!(line, "{count} splits, {chunks} chunks");
    }
    for made in &splits {
        show_split(line, made)?;
    }
    if config.drop_empty {
        state.drop_empty();
    }
    show_graph(line, &state)?;
    show_changes(alloc, line, graph, config, placed, &splits)
}

/// The splits, the chunks and groups after them, and what the check says of changed lists.
pub fn answer(alloc: Global, words: &str) -> Result<String, NoMemory> {
    let mut line = String::new(alloc);
    let (text, rest) = words.split_once(' ').unwrap_or((words, ""));
    let Ok(config) = read_config(alloc, text.as_bytes()) else {
        line.push_str("no configuration")?;
        return Ok(line);
    };
    let graph = graph(alloc, rest, &[])?;
    let placed = placed_by(alloc, rest, graph.count())?;
    show_splits(alloc, &mut line, &graph, &config, &placed)?;
    Ok(line)
}
