//! Lists of numbers.
ghost use Rattle.std.specs.Prelude.{◌≡◌, ℕ, map, IfOk};
ghost use Rattle.serde_json.specs.View.{view};
ghost use Rattle.stats_text.specs.Stats.{number_stats, list_stats};

use pack_util::{ChunkNo, GroupNo, ModuleNo, NoMemory};
use serde_json::Value;
use std::alloc::Global;

/// What is told by its number.
pub trait Numbered {
    ghost number_of: { Self → ℕ };

    fn number(&self) -> u32
        ensures { result ≡ number_of self.now };
}

impl Numbered for ModuleNo {
    ghost number_of = { λ m. m.0 };

    fn number(&self) -> u32 {
        self.0
    }
}

impl Numbered for ChunkNo {
    ghost number_of = { λ c. c.0 };

    fn number(&self) -> u32 {
        self.0
    }
}

impl Numbered for GroupNo {
    ghost number_of = { λ g. g.0 };

    fn number(&self) -> u32 {
        self.0
    }
}

impl Numbered for u32 {
    ghost number_of = { λ number. number };

    fn number(&self) -> u32 {
        *self
    }
}

/// The numbers of a list's members.
pub fn numbers_value<T: Numbered>(alloc: Global, members: &[T]) -> Result<Value, NoMemory>
    ensures { IfOk result (λ value. view value ≡ list_stats (map (λ t. number_stats (T.number_of t)) members.now)) }
{
    let mut numbers = Vec::new(alloc);
    for one in members {
        numbers.push(Value::from(one.number()))?;
    }
    Ok(Value::Array(numbers))
}
