ghost use Rattle.std.specs.Prelude.{◌≡◌, ◌&&◌, not, IfOk, if◌then◌else◌};
ghost use Rattle.std.specs.List.{find};
ghost use Rattle.std.specs.Option.{option_copied};
ghost use Rattle.pkg_exports.specs.Exports.{greatest, is_exact, map_outcome, matches_of, pattern_outcome};
ghost use Rattle.pkg_exports.specs.Keys.{is_match, matched_part};
ghost use Rattle.pkg_exports.specs.Segments.{has_refused_segment};

use crate::best::best_match;
use crate::outcome::Outcome;
use crate::segment::has_refused_segment;
use crate::star::{has_star, matched_part};
use crate::target::outcome_of;
use json_order::JsonPair;
use pack_util::{NoMemory, Text};
use std::alloc::Global;

fn is_exact(pair: &JsonPair, subpath: &str) -> bool
    ensures { result ≡ is_exact subpath.now pair.now }
{
    !has_star(pair.key.get()) && pair.key.get() == subpath
}

fn exact_match<'a>(pairs: &'a [JsonPair], subpath: &str) -> Option<&'a JsonPair>
    ensures { option_copied result ≡ find (is_exact subpath.now) pairs.now }
{
    pairs.iter().find(|pair| is_exact(pair, subpath))
}

/// What the `*` of a key stands for, where the key matches and that is no refused part.
fn exported_part<'a>(key: &str, subpath: &'a str) -> Option<&'a str>
    ensures { option_copied result ≡ (if is_match subpath.now key.now && not (has_refused_segment (matched_part subpath.now key.now)) then Some (matched_part subpath.now key.now) else None) }
{
    let part = matched_part(key, subpath)?;
    if has_refused_segment(part) {
        return None;
    }
    Some(part)
}

fn pattern_outcome(
    alloc: Global,
    pairs: &[JsonPair],
    subpath: &str,
    conditions: &[Text],
) -> Result<Outcome, NoMemory>
    ensures { IfOk result (λ outcome. outcome ≡ pattern_outcome subpath.now conditions.now (greatest (matches_of subpath.now pairs.now))) }
{
    let Some(pair) = best_match(pairs, subpath) else {
        return Ok(Outcome::Undefined);
    };
    match exported_part(pair.key.get(), subpath) {
        Some(part) => outcome_of(alloc, &pair.value, part, conditions),
        None => Ok(Outcome::Undefined),
    }
}

/// What a map has for a subpath.
pub fn map_outcome(
    alloc: Global,
    pairs: &[JsonPair],
    subpath: &str,
    conditions: &[Text],
) -> Result<Outcome, NoMemory>
    ensures { IfOk result (λ outcome. outcome ≡ map_outcome subpath.now conditions.now pairs.now) }
{
    if subpath.ends_with('/') {
        return Ok(Outcome::Undefined);
    }
    match exact_match(pairs, subpath) {
        Some(pair) => outcome_of(alloc, &pair.value, "*", conditions),
        None => pattern_outcome(alloc, pairs, subpath, conditions),
    }
}
