//! The conditions of cache groups.
ghost use Rattle.std.specs.Prelude.{◌≡◌, ◌++◌, map, filter_map, flat_map, option_to_list, IfOk, OnOk};
ghost use Rattle.pack_config.specs.Conditions.{condition_at, condition_of, condition_rule, meanings_of, member_of, known_meaning, named_faults, nothing, only_of};
ghost use Rattle.pack_config.specs.inner.Found.{after};
ghost use Rattle.pack_config.specs.inner.Known.{known_faults};

use crate::ConfigKind;
use crate::found::Found;
use crate::value::text;
use graph_types::Condition;
use json_order::{JsonNode, JsonPair, JsonTree};
use pack_util::{NoMemory, Seq, Text};
use sqlite_items::Boxed;
use std::alloc::Global;

/// The condition that a value is.
#[cycle(condition)]
pub(crate) fn condition(
    alloc: Global,
    found: &mut Found,
    tree: &JsonTree,
) -> Result<Condition, NoMemory>
    ensures faults { OnOk result (found.new ≡ after found.old (condition_rule tree.now)) }
    ensures value { IfOk result (λ condition. condition ≡ condition_of tree.now) }
{
    match &tree.node {
        JsonNode::Str(text) => Ok(Condition::Prefix(text.clone()?)),
        JsonNode::List(items) => { Ok(Condition::Or(conditions(alloc, found, items.as_slice())?)) }
        JsonNode::Object(pairs) => {
            let named = named_conditions(alloc, found, pairs.as_slice())?;
            Ok(only(alloc, found, tree, named))
        }
        _ => {
            found.wrong_type(tree);
            Ok(nothing(alloc))
        }
    }
}

/// The condition that always holds.
pub(crate) fn nothing(alloc: Global) -> Condition
    ensures { result ≡ nothing }
{
    Condition::And(Seq::new(alloc))
}

/// The one condition of an object.
fn only(alloc: Global, found: &mut Found, tree: &JsonTree, named: Vec<Condition>) -> Condition
    ensures faults { found.new ≡ after found.old (only_of tree.now.at named.items).faults }
    ensures value { result ≡ (only_of tree.now.at named.items).value }
{
    let mut named = named;
    match named.pop() {
        Some(condition) if named.is_empty() => condition,
        _ => {
            found.wrong_type(tree);
            nothing(alloc)
        }
    }
}

#[cycle(condition)]
fn conditions(
    alloc: Global,
    found: &mut Found,
    trees: &[JsonTree],
) -> Result<Seq<Condition>, NoMemory>
    ensures faults { OnOk result (found.new ≡ after found.old (flat_map condition_rule trees.now)) }
    ensures value { IfOk result (λ all. all ≡ map condition_of trees.now) }
{
    let mut conditions = Vec::new(alloc);
    for tree in trees {
        conditions.push(condition(alloc, found, tree)?)?;
    }
    Ok(Seq::from_vec(conditions))
}

#[cycle(condition)]
fn named_conditions(
    alloc: Global,
    found: &mut Found,
    pairs: &[JsonPair],
) -> Result<Vec<Condition>, NoMemory>
    ensures faults { OnOk result (found.new ≡ after found.old (flat_map (λ pair. named_faults (member_of pair)) pairs.now)) }
    ensures value { IfOk result (λ all. all.items ≡ filter_map (λ pair. condition_at (member_of pair)) pairs.now) }
{
    let mut conditions = Vec::new(alloc);
    for pair in pairs {
        push_named(alloc, found, &mut conditions, pair)?;
    }
    Ok(conditions)
}

#[cycle(condition)]
fn push_named(
    alloc: Global,
    found: &mut Found,
    conditions: &mut Vec<Condition>,
    pair: &JsonPair,
) -> Result<(), NoMemory>
    ensures faults { OnOk result (found.new ≡ after found.old (named_faults (member_of pair.now))) }
    ensures value { OnOk result (conditions.new.items ≡ conditions.old.items ++ option_to_list (condition_at (member_of pair.now))) }
{
    match named_condition(alloc, found, pair)? {
        Some(condition) => conditions.push(condition)?,
        None => found.note(pair.key_at, ConfigKind::UnknownKey),
    }
    Ok(())
}

/// The condition that a member of an object is.
#[cycle(condition)]
fn named_condition(
    alloc: Global,
    found: &mut Found,
    pair: &JsonPair,
) -> Result<Option<Condition>, NoMemory>
    ensures faults { OnOk result (found.new ≡ after found.old (known_faults (known_meaning (member_of pair.now)))) }
    ensures value { IfOk result (λ condition. condition ≡ condition_at (member_of pair.now)) }
{
    let value = &pair.value;
    Ok(Some(match pair.key.get() {
        "prefix" => Condition::Prefix(pattern(alloc, found, value)?),
        "contains" => Condition::Contains(pattern(alloc, found, value)?),
        "endsWith" => Condition::EndsWith(pattern(alloc, found, value)?),
        "inDir" => Condition::InDir(pattern(alloc, found, value)?),
        "and" => Condition::And(listed(alloc, found, value)?),
        "or" => Condition::Or(listed(alloc, found, value)?),
        "not" => Condition::Not(Boxed::new(alloc, condition(alloc, found, value)?)?),
        _ => return Ok(None),
    }))
}

#[cycle(condition)]
fn listed(alloc: Global, found: &mut Found, tree: &JsonTree) -> Result<Seq<Condition>, NoMemory>
    ensures faults { OnOk result (found.new ≡ after found.old ((meanings_of tree.now).many.faults)) }
    ensures value { IfOk result (λ all. all ≡ (meanings_of tree.now).many.value) }
{
    match &tree.node {
        JsonNode::List(items) => Ok(conditions(alloc, found, items.as_slice())?),
        _ => {
            found.wrong_type(tree);
            Ok(Seq::new(alloc))
        }
    }
}

fn pattern(alloc: Global, found: &mut Found, tree: &JsonTree) -> Result<Text, NoMemory>
    ensures faults { OnOk result (found.new ≡ after found.old ((meanings_of tree.now).text.faults)) }
    ensures value { IfOk result (λ text. text ≡ (meanings_of tree.now).text.value) }
{
    Text::new(alloc, text(found, Some(tree)).unwrap_or(""))
}
