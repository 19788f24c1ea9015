//! Blocks: the calls whose chunks are loaded on demand.
ghost use Rattle.std.specs.Prelude.{◌≡◌, ◌<◌, length, IfSome};
ghost use Rattle.std.specs.Ordering.{nat_cmp};
ghost use Rattle.chunk_graph.specs.Chunks.{group_at};
ghost use Rattle.graph_types.specs.Edges.{blocks_of};
ghost use Rattle.module_code.specs.Blocks.{block_at, chunks_of_block};
ghost use Rattle.module_code.specs.inner.Places.{place_of};
ghost use Rattle.module_code.specs.View.{IsSealing};

use crate::SealView;
use graph_types::Block;
use pack_util::{ChunkNo, ModuleNo};
use std::cmp::Ordering;

/// Compares the places of two items, each the number of its module and its own.
fn compare_places(module: u32, item: u32, to_module: u32, to_item: u32) -> Ordering
    ensures { result ≡ nat_cmp (place_of «module» item) (place_of to_module to_item) }
{
    module.cmp(&to_module).then(item.cmp(&to_item))
}

/// The number of the block that an item of a module is, found by halving.
pub fn block_at(view: &SealView<'_>, m: ModuleNo, item: u32) -> Option<u32>
    requires { IsSealing view.now }
    ensures value { result ≡ block_at view.now.graph.records m.0 item }
    ensures within { IfSome result (λ block. block < length (blocks_of view.now.graph.records)) }
{
    let found = view.graph.blocks().binary_search_by(
        |block: &Block| -> Ordering
            ensures { result ≡ nat_cmp (place_of block.now.«module».0 block.now.item) (place_of m.0 item) }
        { compare_places(block.module.0, block.item, m.0, item) },
    );
    match found {
        Ok(block) => Some(block as u32),
        Err(_) => None,
    }
}

/// The chunks that a block loads.
pub fn chunks_of_block<'a>(view: &SealView<'a>, block: u32) -> &'a [ChunkNo]
    requires sealing { IsSealing view.now }
    requires within { block < length (blocks_of view.now.graph.records) }
    ensures { result.now ≡ chunks_of_block view.now block }
{
    view.chunks.chunks(view.groups.of_block(block))
}
