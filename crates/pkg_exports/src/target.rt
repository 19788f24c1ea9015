ghost use Rattle.std.specs.Prelude.{◌≡◌, map, IfOk};
ghost use Rattle.std.specs.List.{list_any};
ghost use Rattle.pkg_exports.specs.Keys.{is_array_index};
ghost use Rattle.pkg_exports.specs.Targets.{list_outcome, object_outcome, outcome_of};

use crate::key::{is_array_index, is_met};
use crate::outcome::{Outcome, later};
use crate::text::text_outcome;
use json_order::{JsonNode, JsonPair, JsonTree};
use pack_util::{NoMemory, Text};
use std::alloc::Global;

/// What a value is as a target, where each `*` becomes `star`.
#[cycle(target)]
pub fn outcome_of(
    alloc: Global,
    tree: &JsonTree,
    star: &str,
    conditions: &[Text],
) -> Result<Outcome, NoMemory>
    ensures { IfOk result (λ outcome. outcome ≡ outcome_of star.now conditions.now tree.now) }
{
    match &tree.node {
        JsonNode::Null => Ok(Outcome::Null),
        JsonNode::Bool(_) | JsonNode::Number(_) => Ok(Outcome::BadTarget),
        JsonNode::Str(text) => text_outcome(alloc, text.get(), star),
        JsonNode::List(members) => list_outcome(alloc, members.as_slice(), star, conditions),
        JsonNode::Object(pairs) => object_outcome(alloc, pairs.as_slice(), star, conditions),
    }
}

#[cycle(target)]
fn list_outcome(
    alloc: Global,
    members: &[JsonTree],
    star: &str,
    conditions: &[Text],
) -> Result<Outcome, NoMemory>
    ensures { IfOk result (λ outcome. outcome ≡ list_outcome (map (outcome_of star.now conditions.now) members.now)) }
{
    let mut last = Outcome::Null;
    for member in members {
        let outcome = outcome_of(alloc, member, star, conditions)?;
        if outcome.ends_list() {
            return Ok(outcome);
        }
        last = later(last, outcome);
    }
    Ok(last)
}

#[cycle(target)]
fn object_outcome(
    alloc: Global,
    pairs: &[JsonPair],
    star: &str,
    conditions: &[Text],
) -> Result<Outcome, NoMemory>
    ensures { IfOk result (λ outcome. outcome ≡ object_outcome conditions.now (map (λ pair. (pair.key, outcome_of star.now conditions.now pair.value)) pairs.now)) }
{
    if has_array_index(pairs) {
        return Ok(Outcome::BadKey);
    }
    let mut left = pairs;
    while let [pair, rest @ ..] = left {
        if is_met(pair.key.get(), conditions) {
            let outcome = outcome_of(alloc, &pair.value, star, conditions)?;
            if outcome.is_defined() {
                return Ok(outcome);
            }
        }
        left = rest;
    }
    Ok(Outcome::Undefined)
}

fn has_array_index(pairs: &[JsonPair]) -> bool
    ensures { result ≡ list_any (λ pair. is_array_index pair.key) pairs.now }
{
    pairs.iter().any(|pair| is_array_index(pair.key.get()))
}
