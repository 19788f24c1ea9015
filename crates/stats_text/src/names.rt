//! Texts, and names that may be left out.
ghost use Rattle.std.specs.Prelude.{◌≡◌, IfOk};
ghost use Rattle.std.specs.Option.{option_copied};
ghost use Rattle.serde_json.specs.Data.{string};
ghost use Rattle.serde_json.specs.View.{view};
ghost use Rattle.stats_text.specs.Stats.{name_stats};

use pack_util::NoMemory;
use serde_json::{Value, json};
use std::alloc::Global;

pub fn text_value(alloc: Global, text: &str) -> Result<Value, NoMemory>
    ensures { IfOk result (λ value. view value ≡ string text.now) }
{
    json!(in alloc; text)
}

/// A name, or null where there is none.
pub fn name_value(alloc: Global, name: Option<&str>) -> Result<Value, NoMemory>
    ensures { IfOk result (λ value. view value ≡ name_stats (option_copied name.entry)) }
{
    match name {
        Some(name) => text_value(alloc, name),
        None => Ok(Value::Null),
    }
}
