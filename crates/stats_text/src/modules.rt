ghost use Rattle.std.specs.Prelude.{◌≡◌, ◌<◌, ◌^◌, map, length, slice_index_or, IfOk};
ghost use Rattle.std.specs.List.{enumerate_from};
ghost use Rattle.graph_types.specs.Edges.{blocks_of, sync_targets_of};
ghost use Rattle.serde_json.specs.View.{view};
ghost use Rattle.stats_text.specs.Stats.{list_stats, id_stats, module_stats, module_told};

use crate::loaded::all_loaded;
use crate::names::text_value;
use crate::numbers::numbers_value;
use graph_types::{Groups, ModRecord, ModuleGraph};
use pack_util::{GroupNo, ModuleNo, NoMemory};
use serde_json::{Map, Value, put};
use std::alloc::Global;

fn id_value(alloc: Global, named: bool, m: ModuleNo, rec: &ModRecord) -> Result<Value, NoMemory>
    ensures { IfOk result (λ value. view value ≡ id_stats named (m.0, rec.now)) }
{
    if named {
        let path = rec.path.get();
        Ok(Value::String(format!(in alloc; "./{path}")?))
    } else {
        Ok(Value::from(m.0))
    }
}

fn module_value(
    alloc: Global,
    graph: &ModuleGraph,
    named: bool,
    loaded: &[GroupNo],
    m: ModuleNo,
    rec: &ModRecord,
) -> Result<Value, NoMemory>
    requires within { m.0 < length graph.now.records }
    requires own { rec.now ≡ slice_index_or graph.now.records m.0 rec.now }
    ensures { IfOk result (λ value. view value ≡ module_stats named graph.now.records loaded.now (m.0, rec.now)) }
{
    let mut members = Map::new(alloc);
    let blocks = numbers_value(alloc, loaded)?;
    put(&mut members, alloc, "blocks", blocks)?;
    let id = id_value(alloc, named, m, rec)?;
    put(&mut members, alloc, "id", id)?;
    let path = text_value(alloc, rec.path.get())?;
    put(&mut members, alloc, "path", path)?;
    put(&mut members, alloc, "size", Value::from(rec.size))?;
    let sync = numbers_value(alloc, graph.sync_targets(m))?;
    put(&mut members, alloc, "sync", sync)?;
    Ok(Value::Object(members))
}

/// All modules, by number.
pub fn modules_value(
    alloc: Global,
    graph: &ModuleGraph,
    groups: &Groups,
    named: bool,
) -> Result<Value, NoMemory>
    requires few { length (blocks_of graph.now.records) < 2 ^ 32 }
    requires blocks { length groups.now.of_block ≡ length (blocks_of graph.now.records) }
    ensures { IfOk result (λ value. view value ≡ list_stats (map (module_told named groups.now graph.now.records) (enumerate_from 0 graph.now.records))) }
{
    let loaded = all_loaded(alloc, graph, groups)?;
    let mut modules = Vec::new(alloc);
    for place in 0..graph.count() {
        let m = ModuleNo(place);
        let blocks = loaded[place as usize].as_slice();
        modules.push(module_value(alloc, graph, named, blocks, m, graph.rec(m))?)?;
    }
    Ok(Value::Array(modules))
}
