//! The modules of a chunk.
ghost use Rattle.std.specs.Prelude.{◌≡◌, ℕ, ◌<◌, length, slice_index, IfOk};
ghost use Rattle.chunk_code.specs.Texts.{members_in, members_of};

use bit_rows::BitRow;
use chunk_graph::ChunkGraph;
use pack_util::{ChunkNo, NoMemory};
use std::alloc::Global;

/// The true places of a row, ascending.
fn members_in(alloc: Global, row: &BitRow) -> Result<Vec<u32>, NoMemory>
    ensures { IfOk result (λ members. members.items ≡ members_in row.now) }
{
    let _len = row.len();
    let mut members = Vec::new(alloc);
    let mut at = 0;
    while let Some(place) = row.next_from(at) {
        members.push(place)?;
        at = place + 1;
    }
    Ok(members)
}

/// The numbers of a chunk's modules, ascending. A chunk that isn't given out has none.
pub fn members_of(alloc: Global, chunks: &ChunkGraph, c: ChunkNo) -> Result<Vec<u32>, NoMemory>
    ensures value { IfOk result (λ members. members.items ≡ members_of chunks.now c.0) }
    ensures within { IfOk result (λ members. (i : ℕ) → i < length members.items → slice_index members.items i < chunks.now.width) }
{
    if c.0 < chunks.count() {
        members_in(alloc, chunks.mods(c))
    } else {
        Ok(Vec::new(alloc))
    }
}
