ghost use Rattle.std.specs.Prelude.{◌≡◌, ◌<◌, map, length, slice_index_or, IfOk};
ghost use Rattle.std.specs.List.{enumerate_from};
ghost use Rattle.std.specs.Option.{option_copied};
ghost use Rattle.serde_json.specs.View.{view};
ghost use Rattle.stats_text.specs.Stats.{groups_stats, group_stats};
ghost use Rattle.stats_text.specs.inner.Ids.{all_ids};

use crate::ids::group_ids_value;
use crate::names::name_value;
use crate::numbers::numbers_value;
use chunk_graph::ChunkGraph;
use graph_types::{GroupInfo, Groups};
use pack_util::{GroupNo, NoMemory, Text};
use serde_json::{Map, Value, put};
use std::alloc::Global;

fn text_of(name: &Option<Text>) -> Option<&str>
    ensures { option_copied result ≡ name.now }
{
    match name {
        Some(name) => Some(name.get()),
        None => None,
    }
}

fn group_value(
    alloc: Global,
    chunks: &ChunkGraph,
    ids: &[Option<u32>],
    g: GroupNo,
    info: &GroupInfo,
) -> Result<Value, NoMemory>
    requires ids { ids.now ≡ all_ids chunks.now }
    requires there { g.0 < length chunks.now.groups }
    ensures { IfOk result (λ value. view value ≡ group_stats chunks.now (g.0, info.now)) }
{
    let mut members = Map::new(alloc);
    let listed = group_ids_value(alloc, chunks, ids, g)?;
    put(&mut members, alloc, "chunks", listed)?;
    put(
        &mut members,
        alloc,
        "entry",
        Value::Bool(info.entry.is_some()),
    )?;
    let name = name_value(alloc, text_of(&info.name))?;
    put(&mut members, alloc, "name", name)?;
    let roots = numbers_value(alloc, info.roots.as_slice())?;
    put(&mut members, alloc, "roots", roots)?;
    Ok(Value::Object(members))
}

/// All groups, by number.
pub fn groups_value(
    alloc: Global,
    groups: &Groups,
    chunks: &ChunkGraph,
    ids: &[Option<u32>],
) -> Result<Value, NoMemory>
    requires ids { ids.now ≡ all_ids chunks.now }
    requires lists { length chunks.now.groups ≡ length groups.now.infos }
    ensures { IfOk result (λ value. view value ≡ groups_stats groups.now chunks.now) }
{
    let mut values = Vec::new(alloc);
    for place in 0..groups.count() {
        let g = GroupNo(place);
        values.push(group_value(alloc, chunks, ids, g, groups.info(g))?)?;
    }
    Ok(Value::Array(values))
}
