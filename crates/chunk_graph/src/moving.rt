//! Modules moved between chunks.
ghost use Rattle.std.specs.Prelude.{◌≡◌, ℕ, ◌<◌, ◌==◌, length, map, slice_index_or};
ghost use Rattle.std.specs.List.{range_with_len};
ghost use Rattle.chunk_graph.specs.Chunks.{no_chunk, is_in};
ghost use Rattle.chunk_graph.specs.Moves.{moved_one};

use crate::chunk::{Chunk, move_one};
use bit_rows::BitRow;

/// The modules leave the chunks `from` other than `to`, and are in `to`.
pub fn move_all(chunks: &mut Vec<Chunk>, modules: &BitRow, from: &BitRow, to: u32)
    requires even { (i : ℕ) → i < length chunks.old.items → length (slice_index_or chunks.old.items i no_chunk).mods ≡ length modules.now }
    requires from { length from.now ≡ length chunks.old.items }
    ensures { chunks.new.items ≡ map
        (λ i. moved_one modules.now (i == to) (is_in from.now i) (slice_index_or chunks.old.items i no_chunk))
        (range_with_len 0 (length chunks.old.items)) }
{
    for i in 0..from.len() {
        let chunk = &mut chunks[i as usize];
        move_one(chunk, modules, i == to, from.get(i));
    }
}
