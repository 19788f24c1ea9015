ghost use Rattle.std.specs.Prelude.{◌≡◌, option_map};
ghost use Rattle.std.specs.Option.{option_copied};
ghost use Rattle.pkg_exports.specs.Exports.{greatest, matches_of};
ghost use Rattle.pkg_exports.specs.inner.Steps.{better_of};

use crate::star::{matched_part, outranks};
use json_order::JsonPair;

fn better<'a>(best: Option<&'a JsonPair>, pair: &'a JsonPair, subpath: &str) -> Option<&'a JsonPair>
    ensures { option_copied result ≡ better_of subpath.now (option_copied best.entry) pair.now }
{
    if matched_part(pair.key.get(), subpath).is_none() {
        return best;
    }
    match best {
        Some(other) if !outranks(pair.key.get(), other.key.get()) => best,
        _ => Some(pair),
    }
}

/// The member of a map that decides of those whose key matches by its `*`.
pub fn best_match<'a>(pairs: &'a [JsonPair], subpath: &str) -> Option<&'a JsonPair>
    ensures { option_copied result ≡ greatest (matches_of subpath.now pairs.now) }
{
    let mut best: Option<&JsonPair> = None;
    for pair in pairs {
        best = better(best, pair, subpath);
    }
    best
}
