ghost use Rattle.std.specs.Prelude.{◌≡◌, ◌<◌, map, length, IfOk};
ghost use Rattle.std.specs.List.{AllByRecursion};
ghost use Rattle.serde_json.specs.View.{view};
ghost use Rattle.stats_text.specs.Stats.{number_stats, list_stats, modules_by_number, key_of, split_stats};

use crate::names::text_value;
use crate::numbers::numbers_value;
use chunk_graph::Split;
use graph_types::Config;
use pack_util::NoMemory;
use serde_json::{Map, Value, put};
use std::alloc::Global;

fn key_of(config: &Config, cache_group: u32) -> &str
    requires { cache_group < length config.now.cache_groups }
    ensures { result.now ≡ key_of config.now cache_group }
{
    config.cache_groups.as_slice()[cache_group as usize]
        .key
        .get()
}

fn chunks_value(alloc: Global, split: &Split) -> Result<Value, NoMemory>
    ensures { IfOk result (λ value. view value ≡ list_stats (map (λ c. number_stats c.0) split.now.chunks)) }
{
    numbers_value(alloc, split.chunks.as_slice())
}

fn modules_value(alloc: Global, split: &Split) -> Result<Value, NoMemory>
    ensures { IfOk result (λ value. view value ≡ modules_by_number split.now.modules) }
{
    numbers_value(alloc, split.modules.as_slice())
}

fn split_value(alloc: Global, config: &Config, split: &Split) -> Result<Value, NoMemory>
    requires { split.now.cache_group < length config.now.cache_groups }
    ensures { IfOk result (λ value. view value ≡ split_stats config.now split.now) }
{
    let mut members = Map::new(alloc);
    let chunks = chunks_value(alloc, split)?;
    put(&mut members, alloc, "chunks", chunks)?;
    put(&mut members, alloc, "forced", Value::Bool(split.forced))?;
    let group = text_value(alloc, key_of(config, split.cache_group))?;
    put(&mut members, alloc, "group", group)?;
    put(&mut members, alloc, "made", Value::from(split.made.0))?;
    let modules = modules_value(alloc, split)?;
    put(&mut members, alloc, "modules", modules)?;
    put(&mut members, alloc, "reused", Value::Bool(split.reused))?;
    Ok(Value::Object(members))
}

/// The splits, in the order in which they were made.
pub fn splits_value(alloc: Global, config: &Config, splits: &[Split]) -> Result<Value, NoMemory>
    requires { AllByRecursion (λ split. split.cache_group < length config.now.cache_groups) splits.now }
    ensures { IfOk result (λ value. view value ≡ list_stats (map (split_stats config.now) splits.now)) }
{
    let mut values = Vec::new(alloc);
    for split in splits {
        values.push(split_value(alloc, config, split)?)?;
    }
    Ok(Value::Array(values))
}
