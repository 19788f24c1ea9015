//! The chunks from which a cache group may take modules.
ghost use Rattle.std.specs.Prelude.{◌≡◌, ℕ, ◌<◌, ◌≤◌, ◌||◌, ◌&&◌, not, true, false, length, slice_index_or, take, drop, IfOk};
ghost use Rattle.std.specs.List.{list_any};
ghost use Rattle.pack_util.specs.declared.number.ChunkNo.{ChunkNo};
ghost use Rattle.chunk_graph.specs.Chunks.{is_in, is_open, chunk_at, has};
ghost use Rattle.split_plan.specs.Shares.{allowed_row, is_reached, is_taken, stands_in_entry};
ghost use Rattle.split_plan.specs.inner.Rows.{IsChunkRow, reached_in};

use crate::Rule;
use bit_rows::BitRow;
use chunk_graph::ChunkGraph;
use graph_types::Select;
use pack_util::{ChunkNo, GroupNo, NoMemory};
use std::alloc::Global;

fn is_reached(most: Option<u32>, count: usize) -> bool
    ensures { result ≡ is_reached most count }
{
    match most {
        Some(most) => most as usize <= count,
        None => false,
    }
}

fn is_taken(select: Select, in_entry: bool) -> bool
    ensures { result ≡ is_taken select in_entry }
{
    match select {
        Select::Async => !in_entry,
        Select::Initial => in_entry,
        Select::All => true,
    }
}

fn mark(row: &mut BitRow, list: &[ChunkNo])
    requires { (i : ℕ) → has i list.now ≡ true → i < length row.old }
    ensures len { length row.new ≡ length row.old }
    ensures places { (i : ℕ) → is_in row.new i ≡ (is_in row.old i || has i list.now) }
{
    for chunk in list {
        row.set(chunk.0, true);
    }
}

/// The chunks of the groups from `low` on and below `high` that have at least so many.
fn reached_row(
    alloc: Global,
    state: &ChunkGraph,
    most: Option<u32>,
    low: u32,
    high: u32,
) -> Result<BitRow, NoMemory>
    requires { (low ≤ high) × (high ≤ length state.now.groups) }
    ensures { IfOk result (IsChunkRow state.now (reached_in most low high state.now)) }
{
    let mut row = BitRow::new(alloc, state.count())?;
    for group in low..high {
        let list = state.chunks(GroupNo(group));
        if is_reached(most, list.len()) {
            mark(&mut row, list);
        }
    }
    Ok(row)
}

fn entry_row(alloc: Global, state: &ChunkGraph) -> Result<BitRow, NoMemory>
    ensures { IfOk result (IsChunkRow state.now (stands_in_entry state.now)) }
{
    let mut row = BitRow::new(alloc, state.count())?;
    for group in 0..state.entry_count() {
        mark(&mut row, state.chunks(GroupNo(group)));
    }
    Ok(row)
}

/// The chunks that may share modules in the form.
pub fn allowed_chunks(
    alloc: Global,
    rule: &Rule,
    forced: bool,
    state: &ChunkGraph,
) -> Result<BitRow, NoMemory>
    ensures { IfOk result (λ row. row ≡ allowed_row rule.now forced state.now) }
{
    let mut row = BitRow::new(alloc, state.count())?;
    let entries = state.entry_count();
    let in_entry = entry_row(alloc, state)?;
    let full_initial = reached_row(alloc, state, rule.max_initial, 0, entries)?;
    let full_async = reached_row(alloc, state, rule.max_async, entries, state.group_count())?;
    for i in 0..state.count() {
        let is_full = either(&full_initial, &full_async, i);
        let is_open = is_open(state, ChunkNo(i));
        row.set(
            i,
            may_share(rule.select, forced, is_open, in_entry.get(i), is_full),
        );
    }
    Ok(row)
}

fn either(row: &BitRow, other: &BitRow, at: u32) -> bool
    requires { (at < length row.now) × (at < length other.now) }
    ensures { result ≡ (is_in row.now at || is_in other.now at) }
{
    row.get(at) || other.get(at)
}

/// Whether a split may change the chunk.
pub fn is_open(state: &ChunkGraph, chunk: ChunkNo) -> bool
    requires { chunk.0 < length state.now.chunks }
    ensures { result ≡ is_open (chunk_at state.now chunk.0) }
{
    !state.is_gone(chunk) && !state.is_closed(chunk)
}

fn may_share(select: Select, forced: bool, is_open: bool, in_entry: bool, is_full: bool) -> bool
    ensures { result ≡ (is_open && (is_taken select in_entry && (forced || not is_full))) }
{
    is_open && is_taken(select, in_entry) && (forced || !is_full)
}
