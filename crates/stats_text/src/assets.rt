ghost use Rattle.std.specs.Prelude.{◌≡◌, map, IfOk};
ghost use Rattle.serde_json.specs.View.{view};
ghost use Rattle.stats_text.specs.Stats.{list_stats, asset_stats};

use crate::names::text_value;
use pack_util::{NoMemory, Text};
use serde_json::{Map, Value, put};
use std::alloc::Global;

fn asset_value(alloc: Global, asset: &(u32, Text)) -> Result<Value, NoMemory>
    ensures { IfOk result (λ value. view value ≡ asset_stats asset.now) }
{
    let mut members = Map::new(alloc);
    put(&mut members, alloc, "chunk", Value::from(asset.0))?;
    let name = text_value(alloc, asset.1.get())?;
    put(&mut members, alloc, "name", name)?;
    Ok(Value::Object(members))
}

/// The assets, in their order.
pub fn assets_value(alloc: Global, assets: &[(u32, Text)]) -> Result<Value, NoMemory>
    ensures { IfOk result (λ value. view value ≡ list_stats (map asset_stats assets.now)) }
{
    let mut values = Vec::new(alloc);
    for asset in assets {
        values.push(asset_value(alloc, asset)?)?;
    }
    Ok(Value::Array(values))
}
