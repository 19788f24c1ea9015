//! Chunks without modules left out.
ghost use Rattle.std.specs.Prelude.{◌≡◌, not, map, slice_index_or};
ghost use Rattle.chunk_graph.specs.Chunks.{no_chunk};
ghost use Rattle.chunk_graph.specs.Moves.{is_empty, needed, gone_if_empty};

use crate::chunk::Chunk;
use crate::chunk_list::ChunkList;
use pack_util::ChunkNo;

fn is_empty(chunk: &Chunk) -> bool
    ensures { result ≡ is_empty chunk.now }
{
    !chunk.entry && chunk.mods.count() == 0
}

/// Whether the number is that of a chunk that isn't empty.
pub fn is_needed(chunks: &[Chunk], chunk: ChunkNo) -> bool
    ensures { result ≡ not (is_empty (slice_index_or chunks.now chunk.0 no_chunk)) }
{
    match chunks.get(chunk.0 as usize) {
        Some(chunk) => !is_empty(chunk),
        None => false,
    }
}

/// Takes no memory.
pub fn leave_out_empty(groups: &mut Vec<ChunkList>, chunks: &[Chunk])
    ensures { groups.new.items ≡ map (needed chunks.now) groups.old.items }
{
    for place in 0..groups.len() {
        let group = &mut groups[place];
        group.leave_out_empty(chunks);
    }
}

fn remove_if_empty(chunk: &mut Chunk)
    ensures { chunk.new ≡ gone_if_empty chunk.old }
{
    if is_empty(chunk) {
        chunk.gone = true;
    }
}

pub fn remove_empty(chunks: &mut Vec<Chunk>)
    ensures { chunks.new.items ≡ map gone_if_empty chunks.old.items }
{
    for place in 0..chunks.len() {
        remove_if_empty(&mut chunks[place]);
    }
}
