//! Chunk graphs of the groups of a line.

ghost use Rattle.std.specs.Prelude.{◌≡◌, IfOk, MatchOption};

use bit_rows::{BitRow, BitTable};
use chunk_graph::ChunkGraph;
use pack_util::{ChunkNo, NoMemory, Text};
use std::alloc::Global;

/// The modules of each group, the names of the groups, and how many of the first are those of entries.
#[derive(Drop)]
pub struct Placed {
    table: BitTable,
    names: Vec<Option<Text>>,
    entries: u32,
    /// How many numbers of chunks are given out before the splits, or more.
    used: u32,
    /// Whether the answer has no more than how many splits and chunks there are.
    pub is_short: bool,
}

fn mark(row: &mut BitRow, number: u32) {
    if number < row.len() {
        row.set(number, true);
    }
}

fn row(alloc: Global, text: &str, width: u32) -> Result<BitRow, NoMemory> {
    let mut row = BitRow::new(alloc, width)?;
    for part in text.split(',') {
        if let Ok(number) = part.parse::<u32>() {
            mark(&mut row, number);
        }
    }
    Ok(row)
}

fn name(alloc: Global, text: &str) -> Result<Option<Text>, NoMemory> {
    if text.is_empty() {
        return Ok(None);
    }
    Ok(Some(Text::new(alloc, text)?))
}

fn add_row(alloc: Global, table: &mut BitTable, row: &mut BitRow) -> Result<(), NoMemory> {
    let at = table.rows();
    if at >= 4096 || row.len() != table.width() {
        return Ok(());
    }
    table.grow(alloc, at + 1)?;
    table.swap_row(at, row);
    Ok(())
}

fn add_group(alloc: Global, placed: &mut Placed, word: &str, prefix: &str) -> Result<(), NoMemory> {
    let Some(text) = word.strip_prefix(prefix) else {
        return Ok(());
    };
    let (title, modules) = text.split_once(':').unwrap_or((text, ""));
    let mut row = row(alloc, modules, placed.table.width())?;
    add_row(alloc, &mut placed.table, &mut row)?;
    placed.names.push(name(alloc, title)?)?;
    Ok(())
}

fn used(line: &str) -> u32 {
    for word in line.split(' ') {
        if let Some(text) = word.strip_prefix("n:") {
            return text.parse::<u32>().unwrap_or(0);
        }
    }
    0
}

/// The line's groups over so many modules.
pub fn placed_by(alloc: Global, line: &str, width: u32) -> Result<Placed, NoMemory> {
    let mut placed = Placed {
        table: BitTable::new(alloc, 0, width)?,
        names: Vec::new(alloc),
        entries: 0,
        used: used(line),
        is_short: line.split(' ').any(|word| word == "q"),
    };
    for word in line.split(' ') {
        add_group(alloc, &mut placed, word, "e:")?;
    }
    placed.entries = placed.table.rows();
    for word in line.split(' ') {
        add_group(alloc, &mut placed, word, "g:")?;
    }
    Ok(placed)
}

/// The graph that splits start with, where there are groups, and so few that there is one.
pub fn start(
    alloc: Global,
    placed: &Placed,
    width: u32,
    merge_equal: bool,
) -> Result<Option<ChunkGraph>, NoMemory>
    ensures { IfOk result (λ found. MatchOption found (Unit {0}) (λ graph. graph.width ≡ width)) }
{
    let count = placed.table.rows();
    if count > 4096 || placed.names.len() != count as usize || placed.entries > count {
        return Ok(None);
    }
    let mut graph = ChunkGraph::start(alloc, &placed.table, placed.entries, &placed.names)?;
    if merge_equal {
        graph.merge_equal(alloc)?;
    }
    use_numbers(alloc, &mut graph, placed.used);
    if graph.count() == 0 || graph.mods(ChunkNo(0)).len() != width {
        return Ok(None);
    }
    Ok(Some(graph))
}

/// Makes chunks until so many numbers are given out, or all.
fn use_numbers(alloc: Global, graph: &mut ChunkGraph, used: u32) {
    for _ in 0..used {
        if graph.count() >= used || graph.new_chunk(alloc, None).is_err() {
            return;
        }
    }
}
