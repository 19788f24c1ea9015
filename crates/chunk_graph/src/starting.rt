//! The chunks that a graph starts with: one for each group.
ghost use Rattle.std.specs.Prelude.{◌≡◌, ◌≤◌, ◌∷◌, [], length, map, IfOk};
ghost use Rattle.std.specs.List.{range_with_len};
ghost use Rattle.chunk_graph.specs.Moves.{chunk_no, first_chunk};
ghost use Rattle.bit_rows.specs.Table.{IsEven};

use crate::chunk::Chunk;
use crate::chunk_list::ChunkList;
use bit_rows::{BitRow, BitTable};
use pack_util::{ChunkNo, NoMemory, Text};
use std::alloc::Global;

fn copy_row(alloc: Global, row: &BitRow) -> Result<BitRow, NoMemory>
    ensures { IfOk result (λ copy. copy ≡ row.now) }
{
    let mut copy = BitRow::new(alloc, row.len())?;
    copy.union_with(row);
    Ok(copy)
}

fn copy_name(name: &Option<Text>) -> Result<Option<Text>, NoMemory>
    ensures { IfOk result (λ copy. copy ≡ name.now) }
{
    match name {
        Some(text) => Ok(Some(text.clone()?)),
        None => Ok(None),
    }
}

/// One chunk for each row, with the modules of that row.
pub fn first_chunks(
    alloc: Global,
    placed: &BitTable,
    entries: u32,
    names: &[Option<Text>],
) -> Result<Vec<Chunk>, NoMemory>
    requires { length names.now ≡ length placed.now.rows }
    ensures { IfOk result
        (λ chunks. chunks.items ≡ map (first_chunk placed.now entries names.now) (range_with_len 0 (length placed.now.rows))) }
{
    let mut chunks = Vec::new(alloc);
    for group in 0..placed.rows() {
        chunks.push(Chunk {
            entry: group < entries,
            name: copy_name(&names[group as usize])?,
            mods: copy_row(alloc, placed.row(group))?,
            gone: false,
            closed: false,
        })?;
    }
    Ok(chunks)
}

/// For each group its own chunk alone.
pub fn first_lists(alloc: Global, count: u32) -> Result<Vec<ChunkList>, NoMemory>
    ensures { IfOk result (λ lists. lists.items ≡ map (λ g. chunk_no g ∷ []) (range_with_len 0 count)) }
{
    let mut lists = Vec::new(alloc);
    for group in 0..count {
        lists.push(ChunkList::of_one(alloc, ChunkNo(group))?)?;
    }
    Ok(lists)
}
