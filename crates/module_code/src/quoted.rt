ghost use Rattle.std.specs.Prelude.{◌≡◌, ◌++◌, ◌==◌, [], codes, OnOk, if◌then◌else◌};
ghost use Rattle.module_code.specs.Quoted.{quoted_text};

use pack_util::{NoMemory, add};
use serde_json::Value;

/// Adds a text as a JSON string.
#[tactic(auto, unfolding(crate::specs::Quoted::quoted_text))]
pub fn add_quoted(text: &mut Vec<u8>, part: &str) -> Result<(), NoMemory>
    ensures { OnOk result (text.new.items ≡ text.old.items ++ quoted_text part.now) }
{
    let alloc = *text.allocator();
    let value = Value::String(String::from_str(alloc, part)?);
    let written = value.to_string(alloc)?;
    add(text, written.as_bytes())
}

/// Adds a comma before each part but the first.
pub fn add_comma(text: &mut Vec<u8>, place: usize) -> Result<(), NoMemory>
    ensures { OnOk result (text.new.items ≡ text.old.items ++ (if place == 0 then [] else codes ",")) }
{
    let comma: &[u8] = if place == 0 { b"" } else { b"," };
    add(text, comma)
}
