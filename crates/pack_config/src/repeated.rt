//! Names that several cache groups have.
ghost use Rattle.std.specs.Prelude.{◌≡◌, ◌++◌, ◌∷◌, [], List, OnOk};
ghost use Rattle.json_order.specs.declared.tree.JsonPair.{JsonPair};
ghost use Rattle.pack_config.specs.Splits.{name_value, repeated_by, repeated_in};
ghost use Rattle.pack_config.specs.inner.Found.{after};
ghost use Rattle.pack_config.specs.inner.Seen.{HasNamesOf};

use crate::ConfigKind;
use crate::found::Found;
use crate::member::{text_of, value_at};
use json_order::JsonPair;
use pack_util::{NoMemory, Text};
use std::alloc::Global;
use std::collections::BTreeSet;

/// Notes each name that a group before has.
pub(crate) fn note_repeated(
    alloc: Global,
    found: &mut Found,
    pairs: &[JsonPair],
) -> Result<(), NoMemory>
    ensures { OnOk result (found.new ≡ after found.old (repeated_in pairs.now)) }
{
    let mut names = BTreeSet::new(alloc);
    for pair in pairs {
        note_name(alloc, found, &mut names, pair)?;
    }
    Ok(())
}

/// Notes the name of a group where the groups before have it, and keeps it otherwise.
fn note_name(
    alloc: Global,
    found: &mut Found,
    names: &mut BTreeSet<Text>,
    pair: &JsonPair,
) -> Result<(), NoMemory>
    ensures faults { (earlier : List JsonPair) → HasNamesOf names.old earlier
        → OnOk result (found.new ≡ after found.old (repeated_by earlier (name_value pair.now))) }
    ensures names { (earlier : List JsonPair) → HasNamesOf names.old earlier
        → OnOk result (HasNamesOf names.new (earlier ++ pair.now ∷ [])) }
{
    let Some(tree) = value_at("name", Some(&pair.value)) else {
        return Ok(());
    };
    let Some(name) = text_of(tree) else {
        return Ok(());
    };
    let is_new = names.insert(Text::new(alloc, name)?)?;
    if !is_new {
        found.note(tree.at, ConfigKind::Repeated);
    }
    Ok(())
}
