ghost use Rattle.std.specs.Prelude.{◌≡◌, ◌<◌, ◌≤◌, ◌++◌, map, length, filter_map, option_to_list, option_map, IfOk, OnOk};
ghost use Rattle.std.specs.List.{AllByRecursion, range_with_len};
ghost use Rattle.chunk_graph.specs.Chunks.{chunk_at};
ghost use Rattle.serde_json.specs.View.{view};
ghost use Rattle.stats_text.specs.Lists.{held_modules, size_of_modules};
ghost use Rattle.stats_text.specs.Stats.{chunks_stats, modules_by_number, chunk_stats, chunk_told};
ghost use Rattle.stats_text.specs.inner.Ids.{all_ids};

use crate::ids::id_at;
use crate::members::{held_modules, total_size};
use crate::names::name_value;
use crate::numbers::numbers_value;
use chunk_graph::ChunkGraph;
use graph_types::ModuleGraph;
use pack_util::{ChunkNo, MAX_TEXT, NoMemory};
use serde_json::{Map, Value, put};
use std::alloc::Global;

fn modules_and_size(
    alloc: Global,
    graph: &ModuleGraph,
    chunks: &ChunkGraph,
    c: ChunkNo,
) -> Result<(Value, u64), NoMemory>
    requires sizes { AllByRecursion (λ rec. rec.size ≤ MAX_TEXT) graph.now.records }
    requires width { chunks.now.width ≡ length graph.now.records }
    requires there { c.0 < length chunks.now.chunks }
    ensures { IfOk result (λ both. (view both.0 ≡ modules_by_number (held_modules (chunk_at chunks.now c.0).mods))
        × (both.1 ≡ size_of_modules graph.now.records (held_modules (chunk_at chunks.now c.0).mods))) }
{
    let _count = graph.count();
    let held = held_modules(alloc, chunks.mods(c))?;
    let size = total_size(graph, &held);
    Ok((numbers_value(alloc, &held)?, size))
}

fn chunk_value(
    alloc: Global,
    graph: &ModuleGraph,
    chunks: &ChunkGraph,
    c: ChunkNo,
    id: u32,
) -> Result<Value, NoMemory>
    requires sizes { AllByRecursion (λ rec. rec.size ≤ MAX_TEXT) graph.now.records }
    requires width { chunks.now.width ≡ length graph.now.records }
    requires there { c.0 < length chunks.now.chunks }
    ensures { IfOk result (λ value. view value ≡ chunk_stats graph.now.records chunks.now c.0 id) }
{
    let mut members = Map::new(alloc);
    put(
        &mut members,
        alloc,
        "entry",
        Value::Bool(chunks.is_entry(c)),
    )?;
    put(&mut members, alloc, "id", Value::from(id))?;
    let (modules, size) = modules_and_size(alloc, graph, chunks, c)?;
    put(&mut members, alloc, "modules", modules)?;
    let name = name_value(alloc, chunks.name(c))?;
    put(&mut members, alloc, "name", name)?;
    put(&mut members, alloc, "no", Value::from(c.0))?;
    put(&mut members, alloc, "size", Value::from(size))?;
    Ok(Value::Object(members))
}

fn add_chunk(
    values: &mut Vec<Value>,
    graph: &ModuleGraph,
    chunks: &ChunkGraph,
    ids: &[Option<u32>],
    c: ChunkNo,
) -> Result<(), NoMemory>
    requires sizes { AllByRecursion (λ rec. rec.size ≤ MAX_TEXT) graph.now.records }
    requires width { chunks.now.width ≡ length graph.now.records }
    requires ids { ids.now ≡ all_ids chunks.now }
    requires there { c.0 < length chunks.now.chunks }
    ensures { OnOk result (map view values.new.items ≡ map view values.old.items ++ option_to_list (chunk_told graph.now.records chunks.now c.0)) }
{
    if let Some(id) = id_at(chunks, ids, c) {
        values.push(chunk_value(*values.allocator(), graph, chunks, c, id)?)?;
    }
    Ok(())
}

/// The chunks that aren't gone, by number.
pub fn chunks_value(
    alloc: Global,
    graph: &ModuleGraph,
    chunks: &ChunkGraph,
    ids: &[Option<u32>],
) -> Result<Value, NoMemory>
    requires sizes { AllByRecursion (λ rec. rec.size ≤ MAX_TEXT) graph.now.records }
    requires width { chunks.now.width ≡ length graph.now.records }
    requires ids { ids.now ≡ all_ids chunks.now }
    ensures { IfOk result (λ value. view value ≡ chunks_stats graph.now.records chunks.now) }
{
    let mut values = Vec::new(alloc);
    for place in 0..chunks.count() {
        add_chunk(&mut values, graph, chunks, ids, ChunkNo(place))?;
    }
    Ok(Value::Array(values))
}
