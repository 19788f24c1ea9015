ghost use Rattle.std.specs.Prelude.{◌≡◌, ◌<◌, ◌≤◌, ◌^◌, codes, flat_map, length, map, IfOk, OnOk};
ghost use Rattle.std.specs.List.{AllByRecursion, enumerate_from};
ghost use Rattle.graph_types.specs.Edges.{blocks_of};
ghost use Rattle.serde_json.specs.Data.{put as with_member};
ghost use Rattle.serde_json.specs.View.{members_view, view};
ghost use Rattle.stats_text.specs.Stats.{chunks_stats, groups_stats, list_stats, module_told, notes_in, stats_of, stats_text_of};
ghost use Rattle.stats_text.specs.Together.{BelongTogether};

use crate::assets::assets_value;
use crate::chunks::chunks_value;
use crate::groups::groups_value;
use crate::ids::all_ids;
use crate::modules::modules_value;
use crate::notes::notes_value;
use crate::splits::splits_value;
use chunk_graph::{ChunkGraph, Split};
use graph_types::{Config, Groups, ModuleGraph};
use pack_util::{MAX_TEXT, NoMemory, Text};
use serde_json::{Map, Value, put};
use std::alloc::Global;

/// Puts the chunks and the groups, which have the chunks' ids in common.
fn put_chunks(
    members: &mut Map<String, Value>,
    alloc: Global,
    graph: &ModuleGraph,
    groups: &Groups,
    chunks: &ChunkGraph,
) -> Result<(), NoMemory>
    requires sizes { AllByRecursion (λ rec. rec.size ≤ MAX_TEXT) graph.now.records }
    requires width { chunks.now.width ≡ length graph.now.records }
    requires lists { length chunks.now.groups ≡ length groups.now.infos }
    ensures { OnOk result (members_view members.new.entries
        ≡ with_member (codes "groups") (groups_stats groups.now chunks.now)
        (with_member (codes "chunks") (chunks_stats graph.now.records chunks.now) (members_view members.old.entries))) }
{
    let ids = all_ids(alloc, chunks)?;
    let told = chunks_value(alloc, graph, chunks, &ids)?;
    put(members, alloc, "chunks", told)?;
    let told = groups_value(alloc, groups, chunks, &ids)?;
    put(members, alloc, "groups", told)
}

/// Puts the modules, and their notes.
fn put_modules(
    members: &mut Map<String, Value>,
    alloc: Global,
    graph: &ModuleGraph,
    groups: &Groups,
    named: bool,
) -> Result<(), NoMemory>
    requires few { length (blocks_of graph.now.records) < 2 ^ 32 }
    requires blocks { length groups.now.of_block ≡ length (blocks_of graph.now.records) }
    ensures { OnOk result (members_view members.new.entries
        ≡ with_member (codes "notes") (list_stats (flat_map notes_in graph.now.records))
        (with_member (codes "modules") (list_stats (map (module_told named groups.now graph.now.records) (enumerate_from 0 graph.now.records))) (members_view members.old.entries))) }
{
    let told = modules_value(alloc, graph, groups, named)?;
    put(members, alloc, "modules", told)?;
    let told = notes_value(alloc, graph)?;
    put(members, alloc, "notes", told)
}

fn stats_value(
    alloc: Global,
    graph: &ModuleGraph,
    groups: &Groups,
    chunks: &ChunkGraph,
    config: &Config,
    splits: &[Split],
    assets: &[(u32, Text)],
) -> Result<Value, NoMemory>
    requires { BelongTogether graph.now groups.now chunks.now config.now splits.now }
    ensures { IfOk result (λ value. view value ≡ stats_of graph.now groups.now chunks.now config.now splits.now assets.now) }
{
    let mut members = Map::new(alloc);
    let told = assets_value(alloc, assets)?;
    put(&mut members, alloc, "assets", told)?;
    put_chunks(&mut members, alloc, graph, groups, chunks)?;
    put_modules(&mut members, alloc, graph, groups, config.named_ids)?;
    let told = splits_value(alloc, config, splits)?;
    put(&mut members, alloc, "splits", told)?;
    put(&mut members, alloc, "version", Value::from(1u32))?;
    Ok(Value::Object(members))
}

/// The text of `stats.json`. `assets` are all others in their order, each with its chunk's id and its name.
pub fn stats(
    alloc: Global,
    graph: &ModuleGraph,
    groups: &Groups,
    chunks: &ChunkGraph,
    config: &Config,
    splits: &[Split],
    assets: &[(u32, Text)],
) -> Result<Vec<u8>, NoMemory>
    requires { BelongTogether graph.now groups.now chunks.now config.now splits.now }
    ensures { IfOk result (λ text. text.items ≡ stats_text_of graph.now groups.now chunks.now config.now splits.now assets.now) }
{
    let value = stats_value(alloc, graph, groups, chunks, config, splits, assets)?;
    let mut text = value.to_string(alloc)?;
    text.push_str("\n")?;
    Ok(text.into_bytes())
}
