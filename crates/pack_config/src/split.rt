//! The cache groups that `splitChunks` makes.
ghost use Rattle.std.specs.Prelude.{◌≡◌, ◌++◌, ◌∷◌, [], Some, not, map, length, nat_le, flat_map, bytes_eq, IfOk, OnOk, if◌then◌else◌};
ghost use Rattle.std.specs.List.{filter, list_any};
ghost use Rattle.std.specs.Option.{option_copied};
ghost use Rattle.pack_config.specs.Splits.{default_group, group_limit, group_of, groups_in, groups_of, groups_with, groups_rule, is_group, member_rule, missing_keys, split_of, split_rule};
ghost use Rattle.pack_config.specs.Values.{out_of_range, where_given};
ghost use Rattle.pack_config.specs.inner.Found.{after};

use crate::found::Found;
use crate::group::{default_group, group};
use crate::member::{has_key, pairs_of, truth_of, value_at};
use crate::place::Places;
use crate::repeated::note_repeated;
use crate::shared::{Base, limited_object, read_limits};
use crate::value::only_false;
use graph_types::CacheGroup;
use json_order::{JsonPair, JsonTree};
use pack_util::{NoMemory, Seq};
use std::alloc::Global;

/// How many cache groups there may be.
const GROUP_LIMIT: usize = 16;

#[tactic(auto, using(crate::proofs::After::after_more))]
pub(crate) fn split_chunks(
    alloc: Global,
    found: &mut Found,
    places: &Places<'_>,
    value: Option<&JsonTree>,
) -> Result<Seq<CacheGroup>, NoMemory>
    ensures faults { OnOk result (found.new ≡ after found.old (where_given split_rule (option_copied value.entry))) }
    ensures value { IfOk result (λ groups. groups ≡ split_of places.now (option_copied value.entry)) }
{
    if let Some(tree) = value {
        if let Some(truth) = truth_of(tree) {
            if truth {
                found.out_of_range(tree);
            }
            return Ok(Seq::new(alloc));
        }
        limited_object(found, tree, &["cacheGroups"]);
    }
    only_false(found, value_at("name", value));
    let base = Base::new(read_limits(found, value));
    cache_groups(alloc, found, places, base, value_at("cacheGroups", value))
}

#[tactic(auto, using(crate::proofs::After::after_more))]
fn cache_groups(
    alloc: Global,
    found: &mut Found,
    places: &Places<'_>,
    base: Base,
    value: Option<&JsonTree>,
) -> Result<Seq<CacheGroup>, NoMemory>
    ensures faults { OnOk result (found.new ≡ after found.old (where_given groups_rule (option_copied value.entry))) }
    ensures value { IfOk result (λ groups. groups ≡ groups_of places.now base (option_copied value.entry)) }
{
    let Some(tree) = value else {
        let mut groups = Vec::new(alloc);
        add_defaults(alloc, &mut groups, base, &[])?;
        return Ok(Seq::from_vec(groups));
    };
    let Some(pairs) = pairs_of(tree) else {
        found.wrong_type(tree);
        return Ok(Seq::new(alloc));
    };
    all_groups(alloc, found, places, base, tree, pairs)
}

/// The groups of an object's members, with the default ones.
fn all_groups(
    alloc: Global,
    found: &mut Found,
    places: &Places<'_>,
    base: Base,
    tree: &JsonTree,
    pairs: &[JsonPair],
) -> Result<Seq<CacheGroup>, NoMemory>
    ensures faults { OnOk result (found.new ≡ after found.old (groups_in (Some pairs.now) tree.now)) }
    ensures value { IfOk result (λ groups. groups ≡ groups_with places.now base pairs.now) }
{
    let mut groups = given_groups(alloc, found, places, base, pairs)?;
    add_defaults(alloc, &mut groups, base, pairs)?;
    note_count(found, &groups, tree);
    note_repeated(alloc, found, pairs)?;
    Ok(Seq::from_vec(groups))
}

fn note_count(found: &mut Found, groups: &[CacheGroup], tree: &JsonTree)
    ensures { found.new ≡ after found.old (if nat_le (length groups.now) group_limit then [] else out_of_range tree.now) }
{
    if groups.len() > GROUP_LIMIT {
        found.out_of_range(tree);
    }
}

#[tactic(auto, using(crate::proofs::After::each_all))]
fn given_groups(
    alloc: Global,
    found: &mut Found,
    places: &Places<'_>,
    base: Base,
    pairs: &[JsonPair],
) -> Result<Vec<CacheGroup>, NoMemory>
    ensures faults { OnOk result (found.new ≡ after found.old (flat_map member_rule pairs.now)) }
    ensures value { IfOk result (λ groups. groups.items ≡ map (group_of places.now base) (filter is_group pairs.now)) }
{
    let mut groups = Vec::new(alloc);
    for pair in pairs {
        push_group(alloc, found, places, base, &mut groups, pair)?;
    }
    Ok(groups)
}

fn push_group(
    alloc: Global,
    found: &mut Found,
    places: &Places<'_>,
    base: Base,
    groups: &mut Vec<CacheGroup>,
    pair: &JsonPair,
) -> Result<(), NoMemory>
    ensures faults { OnOk result (found.new ≡ after found.old (member_rule pair.now)) }
    ensures value { OnOk result (groups.new.items ≡ groups.old.items ++ map (group_of places.now base) (filter is_group (pair.now ∷ []))) }
{
    if pairs_of(&pair.value).is_none() {
        only_false(found, Some(&pair.value));
        return Ok(());
    }
    groups.push(group(alloc, found, places, base, &pair.key, &pair.value)?)?;
    Ok(())
}

fn add_defaults(
    alloc: Global,
    groups: &mut Vec<CacheGroup>,
    base: Base,
    pairs: &[JsonPair],
) -> Result<(), NoMemory>
    ensures { OnOk result (groups.new.items ≡ groups.old.items ++ map (default_group base) (missing_keys pairs.now)) }
{
    add_default(alloc, groups, base, pairs, "default")?;
    add_default(alloc, groups, base, pairs, "defaultVendors")?;
    Ok(())
}

fn add_default(
    alloc: Global,
    groups: &mut Vec<CacheGroup>,
    base: Base,
    pairs: &[JsonPair],
    key: &str,
) -> Result<(), NoMemory>
    ensures { OnOk result (groups.new.items ≡ groups.old.items ++ (if not (list_any (λ pair. bytes_eq pair.key key.now) pairs.now) then default_group base key.now ∷ [] else [])) }
{
    if !has_key(pairs, key) {
        groups.push(default_group(alloc, base, key)?)?;
    }
    Ok(())
}
