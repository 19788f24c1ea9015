//! The names that blocks give to the chunks that they load.

ghost use Rattle.std.specs.Prelude.{◌≡◌, ◌<◌, not, filter_map, is_some, length, Contains, IfOk};
ghost use Rattle.std.specs.Cmp.Lexicographic.{slice_cmp};
ghost use Rattle.std.specs.List.{HoldsAt};
ghost use Rattle.std.specs.List.Sorted.{IsSorted};
ghost use Rattle.std.specs.Option.{option_copied};
ghost use Rattle.std.specs.Ordering.{nat_cmp};
ghost use Rattle.graph_types.specs.Edges.{blocks_of};
ghost use Rattle.chunk_groups.specs.ChunkNames.{chunk_name_of, chunk_names};
ghost use Rattle.chunk_groups.specs.inner.Filing.{StandsIn};

use graph_types::{Block, ModuleGraph};
use pack_util::{NoMemory, Text, add_some};
use std::alloc::Global;

/// The name that a block gives to its chunk. Takes no memory.
pub(crate) fn chunk_name<'a>(graph: &'a ModuleGraph, block: &Block) -> Option<&'a Text>
    requires { StandsIn graph.now.records block.now }
    ensures { option_copied result ≡ chunk_name_of graph.now.records block.now }
{
    let rec = graph.rec(block.module);
    let item = &rec.items.as_slice()[block.item as usize];
    item.chunk_name.as_ref()
}

/// Whether a block gives no name to its chunk.
pub(crate) fn has_no_name(graph: &ModuleGraph, block: &Block) -> bool
    requires { StandsIn graph.now.records block.now }
    ensures { result ≡ not (is_some (chunk_name_of graph.now.records block.now)) }
{
    chunk_name(graph, block).is_none()
}

fn own_name(graph: &ModuleGraph, block: &Block) -> Result<Option<Text>, NoMemory>
    requires { StandsIn graph.now.records block.now }
    ensures { IfOk result (λ name. name ≡ chunk_name_of graph.now.records block.now) }
{
    match chunk_name(graph, block) {
        Some(name) => Ok(Some(name.clone()?)),
        None => Ok(None),
    }
}

fn all_names(alloc: Global, graph: &ModuleGraph) -> Result<Vec<Text>, NoMemory>
    ensures { IfOk result (λ names. names.items ≡ filter_map (chunk_name_of graph.now.records) (blocks_of graph.now.records)) }
{
    let mut names = Vec::new(alloc);
    for block in graph.blocks() {
        add_some(&mut names, own_name(graph, block)?)?;
    }
    Ok(names)
}

/// The names of all blocks, each once, in the order of their bytes.
pub(crate) fn chunk_names(alloc: Global, graph: &ModuleGraph) -> Result<Vec<Text>, NoMemory>
    ensures { IfOk result (λ names. names.items ≡ chunk_names graph.now.records) }
{
    let mut names = all_names(alloc, graph)?;
    names.sort()?;
    names.dedup();
    Ok(names)
}

/// Where a name stands among sorted names.
pub(crate) fn place_of(names: &[Text], name: &Text) -> usize
    requires sorted { IsSorted (slice_cmp nat_cmp) names.now }
    requires there { Contains names.now name.now }
    ensures in_range { result < length names.now }
    ensures found { HoldsAt (λ other. other ≡ name.now) names.now result }
{
    match names.binary_search(name) {
        Ok(place) => place,
        Err(place) => place,
    }
}
