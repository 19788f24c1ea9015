//! The ids by which texts name modules and chunks.
ghost use Rattle.std.specs.Prelude.{◌≡◌, ◌++◌, codes, OnOk, IfOk};
ghost use Rattle.chunk_graph.specs.Moves.{id_of};
ghost use Rattle.module_code.specs.Ids.{path_of, id_text, target_id, chunk_ids, ids_text};
ghost use Rattle.module_code.specs.Quoted.{quoted_text};

use crate::SealView;
use crate::id_table::{all_ids, id_at};
use crate::numbers::target_of;
use crate::quoted::{add_comma, add_quoted};
use chunk_graph::ChunkGraph;
use graph_types::{Item, ModuleGraph};
use pack_util::{ChunkNo, ModuleNo, NoMemory, add, add_number, add_some};
use std::alloc::Global;

fn path_of(graph: &ModuleGraph, m: ModuleNo) -> &str
    ensures { result.now ≡ path_of graph.now.records m.0 }
{
    if m.0 < graph.count() {
        graph.rec(m).path.get()
    } else {
        ""
    }
}

fn add_path(text: &mut Vec<u8>, path: &str) -> Result<(), NoMemory>
    ensures { OnOk result (text.new.items ≡ text.old.items ++ quoted_text (codes "./" ++ path.now)) }
{
    let mut name = String::from_str(*text.allocator(), "./")?;
    name.push_str(path)?;
    add_quoted(text, name.as_str())
}

/// Adds the id of a module: its number, or its path where ids are names.
pub fn add_module_id(text: &mut Vec<u8>, view: &SealView<'_>, m: ModuleNo) -> Result<(), NoMemory>
    ensures { OnOk result (text.new.items ≡ text.old.items ++ id_text view.now m.0) }
{
    if view.config.named_ids {
        add_path(text, path_of(view.graph, m))
    } else {
        add_number(text, m.0 as u64)
    }
}

/// Adds the id of the module that an item names. Without a module, which is a fault, it is 0.
pub fn add_target_id(text: &mut Vec<u8>, view: &SealView<'_>, item: &Item) -> Result<(), NoMemory>
    ensures { OnOk result (text.new.items ≡ text.old.items ++ target_id view.now item.now) }
{
    match target_of(view.graph, item) {
        Some(target) => add_module_id(text, view, target),
        None => add(text, b"0"),
    }
}

/// The id of a chunk. A number that isn't given out has none, as a chunk that is gone.
pub fn chunk_id(chunks: &ChunkGraph, c: ChunkNo) -> Option<u32>
    ensures { result ≡ id_of chunks.now c.0 }
{
    if c.0 < chunks.count() {
        chunks.id(c)
    } else {
        None
    }
}

/// The ids of the chunks of a list, in order.
pub fn chunk_ids(alloc: Global, chunks: &ChunkGraph, list: &[ChunkNo]) -> Result<Vec<u32>, NoMemory>
    ensures { IfOk result (λ ids. ids.items ≡ chunk_ids chunks.now list.now) }
{
    let all = all_ids(alloc, chunks)?;
    let mut ids = Vec::new(alloc);
    for chunk in list {
        add_some(&mut ids, id_at(&all, *chunk))?;
    }
    Ok(ids)
}

/// Adds ids with a comma between each two.
pub fn add_ids(text: &mut Vec<u8>, ids: &[u32]) -> Result<(), NoMemory>
    ensures { OnOk result (text.new.items ≡ text.old.items ++ ids_text ids.now) }
{
    for (place, id) in ids.iter().enumerate() {
        add_comma(text, place)?;
        add_number(text, *id as u64)?;
    }
    Ok(())
}
