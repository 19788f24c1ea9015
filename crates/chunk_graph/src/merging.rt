//! Equal chunks merged into the earliest of them.
ghost use Rattle.std.specs.Prelude.{◌≡◌, ℕ, ◌<◌, ◌≤◌, ◌^◌, ◌||◌, true, [], length, map, slice_index_or, IfOk};
ghost use Rattle.std.specs.List.{range_with_len};
ghost use Rattle.chunk_graph.specs.Chunks.{has};
ghost use Rattle.chunk_graph.specs.Moves.{may_merge, are_equal, merged_into, merged_list, merged_chunk};

use crate::chunk::Chunk;
use crate::chunk_list::ChunkList;
use pack_util::{ChunkNo, NoMemory};
use std::alloc::Global;

fn may_merge(chunk: &Chunk) -> bool
    ensures { result ≡ may_merge chunk.now }
{
    !chunk.entry && !chunk.name.is_some() && !chunk.gone
}

fn are_equal(chunk: &Chunk, other: &Chunk) -> bool
    ensures { result ≡ are_equal chunk.now other.now }
{
    may_merge(other) && other.mods.same(&chunk.mods)
}

/// The chunk that stands for this one from now on.
fn merged_into(chunks: &[Chunk], place: u32) -> u32
    requires { place < length chunks.now }
    ensures { result ≡ merged_into chunks.now place }
{
    let chunk = &chunks[place as usize];
    if !may_merge(chunk) {
        return place;
    }
    for earlier in 0..place {
        if are_equal(chunk, &chunks[earlier as usize]) {
            return earlier;
        }
    }
    place
}

/// For each chunk the one that stands for it from now on.
pub fn all_merged_into(alloc: Global, chunks: &[Chunk]) -> Result<Vec<u32>, NoMemory>
    requires { length chunks.now < 2 ^ 32 }
    ensures { IfOk result (λ into. into.items ≡ map (merged_into chunks.now) (range_with_len 0 (length chunks.now))) }
{
    let mut into = Vec::new(alloc);
    for place in 0..chunks.len() as u32 {
        into.push(merged_into(chunks, place))?;
    }
    Ok(into)
}

fn merged_list(
    alloc: Global,
    list: &[ChunkNo],
    chunks: &[Chunk],
    into: &[u32],
) -> Result<ChunkList, NoMemory>
    requires into { into.now ≡ map (merged_into chunks.now) (range_with_len 0 (length chunks.now)) }
    requires within { (i : ℕ) → has i list.now ≡ true → i < length chunks.now }
    ensures { IfOk result (λ merged. merged ≡ merged_list chunks.now list.now) }
{
    let mut merged = ChunkList::new(alloc);
    for chunk in list {
        merged.join(ChunkNo(into[chunk.0 as usize]))?;
    }
    Ok(merged)
}

/// The lists with each chunk in the place of those that are merged into it.
pub fn merged_lists(
    alloc: Global,
    groups: &[ChunkList],
    chunks: &[Chunk],
    into: &[u32],
) -> Result<Vec<ChunkList>, NoMemory>
    requires into { into.now ≡ map (merged_into chunks.now) (range_with_len 0 (length chunks.now)) }
    requires within { (g i : ℕ) → has i (slice_index_or groups.now g []) ≡ true → i < length chunks.now }
    ensures { IfOk result (λ lists. lists.items ≡ map (merged_list chunks.now) groups.now) }
{
    let mut lists = Vec::new(alloc);
    for group in groups {
        lists.push(merged_list(alloc, group.as_slice(), chunks, into)?)?;
    }
    Ok(lists)
}

fn mark_gone(chunk: &mut Chunk, is_gone: bool)
    ensures { chunk.new ≡ record chunk.old { gone = chunk.old.gone || is_gone } }
{
    if is_gone {
        chunk.gone = true;
    }
}

/// Each chunk that another stands for is gone.
pub fn remove_merged(chunks: &mut Vec<Chunk>, into: &[u32])
    requires { into.now ≡ map (merged_into chunks.old.items) (range_with_len 0 (length chunks.old.items)) }
    ensures { chunks.new.items ≡ map (merged_chunk chunks.old.items) (range_with_len 0 (length chunks.old.items)) }
{
    for place in 0..into.len() {
        let is_merged = into[place] as usize != place;
        mark_gone(&mut chunks[place], is_merged);
    }
}
