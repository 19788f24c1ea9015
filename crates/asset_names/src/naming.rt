ghost use Rattle.std.specs.Prelude.{◌≡◌, ◌++◌, take, IfOk, OnOk, string_bytes};
ghost use Rattle.std.specs.List.{flat_map, list_any};
ghost use Rattle.std.specs.Fmt.{decimal};
ghost use Rattle.std.specs.Option.{option_copied};
ghost use Rattle.std.specs.Str.{IsAscii};
ghost use Rattle.asset_names.specs.Names.{name_from};
ghost use Rattle.asset_names.specs.inner.Shown.{hash_in, is_hash, shown_with};

use crate::hash::whole_hash;
use graph_types::{Part, Template};
use pack_util::{NoMemory, Text};
use std::alloc::Global;

/// The name that a template gives to the asset of a chunk.
pub fn name_of(
    alloc: Global,
    template: &Template,
    name: Option<&str>,
    id: u32,
    bytes: &[u8],
) -> Result<Text, NoMemory>
    ensures { IfOk result (λ text. text ≡ name_from template.now.parts (option_copied name.entry) id bytes.now) }
{
    let parts = template.parts.as_slice();
    let hash = hash_for(alloc, parts, bytes)?;
    put_together(alloc, parts, name, id, hash.as_str())
}

/// The hash that parts show: none is taken where no part shows one, and one serves all that do.
fn hash_for(alloc: Global, parts: &[Part], bytes: &[u8]) -> Result<String, NoMemory>
    ensures { IfOk result (λ hash. string_bytes hash ≡ hash_in parts.now bytes.now) }
{
    if has_hash(parts) {
        whole_hash(alloc, bytes)
    } else {
        Ok(String::new(alloc))
    }
}

fn has_hash(parts: &[Part]) -> bool
    ensures { result ≡ list_any is_hash parts.now }
{
    parts.iter().any(|part| matches!(part, Part::Hash(_)))
}

fn put_together(
    alloc: Global,
    parts: &[Part],
    name: Option<&str>,
    id: u32,
    hash: &str,
) -> Result<Text, NoMemory>
    requires { IsAscii hash.now }
    ensures { IfOk result (λ text. text ≡ flat_map (shown_with (option_copied name.entry) id hash.now) parts.now) }
{
    let mut text = String::new(alloc);
    for part in parts {
        push_part(&mut text, part, name, id, hash)?;
    }
    Ok(Text::from_string(text))
}

fn push_part(
    text: &mut String,
    part: &Part,
    name: Option<&str>,
    id: u32,
    hash: &str,
) -> Result<(), NoMemory>
    requires { IsAscii hash.now }
    ensures { OnOk result (string_bytes text.new ≡ string_bytes text.old ++ shown_with (option_copied name.entry) id hash.now part.now) }
{
    match part {
        Part::Fixed(fixed) => text.push_str(fixed.get()),
        Part::Name => match name {
            Some(name) => text.push_str(name),
            None => push_number(text, id),
        },
        Part::Id => push_number(text, id),
        Part::Hash(digits) => text.push_str(first_digits(hash, *digits)),
    }
}

fn push_number(text: &mut String, number: u32) -> Result<(), NoMemory>
    ensures { OnOk result (string_bytes text.new ≡ string_bytes text.old ++ decimal number) }
{
    write!(text, "{number}")
}

fn first_digits(hash: &str, digits: u32) -> &str
    requires { IsAscii hash.now }
    ensures { result.now ≡ take digits hash.now }
{
    let end = hash.len().min(digits as usize);
    &hash[..end]
}
