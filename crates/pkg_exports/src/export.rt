ghost use Rattle.std.specs.Prelude.{◌≡◌};
ghost use Rattle.std.specs.List.{list_all, list_any};
ghost use Rattle.pack_util.specs.Answers.{Answers};
ghost use Rattle.pkg_exports.specs.declared.exports_end.ExportsEnd.TheVariants.{NoMemory};
ghost use Rattle.pkg_exports.specs.Exports.{answer_of, object_target, root_target, target_of};
ghost use Rattle.pkg_exports.specs.Keys.{begins_with_dot};

use crate::exports_end::ExportsEnd;
use crate::key::begins_with_dot;
use crate::map::map_outcome;
use crate::outcome::Outcome;
use crate::target::outcome_of;
use json_order::{JsonNode, JsonPair, JsonTree};
use pack_util::Text;
use std::alloc::Global;

fn has_dotted(pairs: &[JsonPair]) -> bool
    ensures { result ≡ list_any (λ pair. begins_with_dot pair.key) pairs.now }
{
    pairs.iter().any(|pair| begins_with_dot(pair.key.get()))
}

fn all_dotted(pairs: &[JsonPair]) -> bool
    ensures { result ≡ list_all (λ pair. begins_with_dot pair.key) pairs.now }
{
    pairs.iter().all(|pair| begins_with_dot(pair.key.get()))
}

fn answer_of(outcome: Outcome) -> Result<Option<Text>, ExportsEnd>
    ensures { result ≡ answer_of outcome }
{
    match outcome {
        Outcome::Undefined | Outcome::Null => Ok(None),
        Outcome::Target(text) => Ok(Some(text)),
        Outcome::BadTarget => Err(ExportsEnd::BadTarget),
        Outcome::BadKey => Err(ExportsEnd::BadKey),
    }
}

fn root_target(
    alloc: Global,
    exports: &JsonTree,
    subpath: &str,
    conditions: &[Text],
) -> Result<Option<Text>, ExportsEnd>
    ensures { Answers NoMemory (λ value. value) (root_target exports.now subpath.now conditions.now) result }
{
    if subpath != "." {
        return Ok(None);
    }
    answer_of(outcome_of(alloc, exports, "*", conditions)?)
}

fn object_target(
    alloc: Global,
    exports: &JsonTree,
    pairs: &[JsonPair],
    subpath: &str,
    conditions: &[Text],
) -> Result<Option<Text>, ExportsEnd>
    ensures { Answers NoMemory (λ value. value) (object_target exports.now pairs.now subpath.now conditions.now) result }
{
    if !has_dotted(pairs) {
        root_target(alloc, exports, subpath, conditions)
    } else if all_dotted(pairs) {
        answer_of(map_outcome(alloc, pairs, subpath, conditions)?)
    } else {
        Err(ExportsEnd::Mixed)
    }
}

/// The target of a subpath by the `exports` of a package, None where the subpath isn't exported.
pub fn export_target(
    alloc: Global,
    exports: &JsonTree,
    subpath: &str,
    conditions: &[Text],
) -> Result<Option<Text>, ExportsEnd>
    ensures { Answers NoMemory (λ value. value) (target_of exports.now subpath.now conditions.now) result }
{
    match &exports.node {
        JsonNode::Null | JsonNode::Bool(_) | JsonNode::Number(_) => Ok(None),
        JsonNode::Str(_) | JsonNode::List(_) => { root_target(alloc, exports, subpath, conditions) }
        JsonNode::Object(pairs) => {
            object_target(alloc, exports, pairs.as_slice(), subpath, conditions)
        }
    }
}
