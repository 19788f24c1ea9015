//! For each module the row of the chunks that hold it.
ghost use Rattle.std.specs.Prelude.{◌≡◌, ℕ, ◌<◌, ◌≤◌, ◌||◌, ◌≢◌, [], false, length, replicate, slice_index_or, IfOk, OnOk};
ghost use Rattle.chunk_graph.specs.Chunks.{is_in, holds};
ghost use Rattle.split_plan.specs.inner.Rows.{columns_of};

use bit_rows::BitRow;
use chunk_graph::ChunkGraph;
use pack_util::{ChunkNo, NoMemory};
use std::alloc::Global;

/// Rows of one length with no true place.
pub(crate) fn blank_rows(alloc: Global, count: usize, len: u32) -> Result<Vec<BitRow>, NoMemory>
    ensures { IfOk result (λ rows. rows.items ≡ replicate count (replicate len false)) }
{
    let mut rows = Vec::new(alloc);
    for _ in 0..count {
        rows.push(BitRow::new(alloc, len)?)?;
    }
    Ok(rows)
}

/// Adds the chunk to the row of each of its modules.
fn add_chunk(rows: &mut Vec<BitRow>, mods: &BitRow, chunk: u32)
    requires width { length mods.now ≡ length rows.old.items }
    requires len { (m : ℕ) → m < length rows.old.items → chunk < length (slice_index_or rows.old.items m []) }
    ensures len { length rows.new.items ≡ length rows.old.items }
    ensures lens { (m : ℕ) → length (slice_index_or rows.new.items m []) ≡ length (slice_index_or rows.old.items m []) }
    ensures here { (m : ℕ) → m < length rows.old.items → is_in (slice_index_or rows.new.items m []) chunk
        ≡ (is_in (slice_index_or rows.old.items m []) chunk || is_in mods.now m) }
    ensures elsewhere { (m i : ℕ) → i ≢ chunk → is_in (slice_index_or rows.new.items m []) i
        ≡ is_in (slice_index_or rows.old.items m []) i }
{
    let _width = mods.len();
    let mut at = 0;
    while let Some(module) = mods.next_from(at) {
        let row = &mut rows[module as usize];
        row.set(chunk, true);
        at = module + 1;
    }
}

/// The chunks that hold each module.
pub fn chunk_columns(
    alloc: Global,
    state: &ChunkGraph,
    width: usize,
) -> Result<Vec<BitRow>, NoMemory>
    requires { width ≡ state.now.width }
    ensures { IfOk result (λ columns. columns.items ≡ columns_of state.now width) }
{
    let mut columns = blank_rows(alloc, width, state.count())?;
    for chunk in 0..state.count() {
        add_chunk(&mut columns, state.mods(ChunkNo(chunk)), chunk);
    }
    Ok(columns)
}
