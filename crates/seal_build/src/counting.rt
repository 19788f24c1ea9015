//! What is counted.
ghost use Rattle.std.specs.Prelude.{◌≡◌};
ghost use Rattle.seal_build.specs.Seal.{count_there};

use chunk_graph::ChunkGraph;
use pack_util::ChunkNo;

/// How many chunks aren't gone.
pub(crate) fn count_there(chunks: &ChunkGraph) -> u32
    ensures { result ≡ count_there chunks.now }
{
    let mut count = 0;
    for place in 0..chunks.count() {
        if !chunks.is_gone(ChunkNo(place)) {
            count += 1;
        }
    }
    count
}
