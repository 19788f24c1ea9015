//! One cache group.
ghost use Rattle.std.specs.Prelude.{◌≡◌, Some, IfOk, OnOk, if◌then◌else◌};
ghost use Rattle.std.specs.Option.{option_copied};
ghost use Rattle.pack_config.specs.Conditions.{condition_rule};
ghost use Rattle.pack_config.specs.Splits.{default_group, enforced, group_rule, group_with, is_enforced, limits_of, name_rule, name_spot, test_of, vendors};
ghost use Rattle.pack_config.specs.Values.{only_false, text_value, where_given};
ghost use Rattle.pack_config.specs.inner.Own.{combined, own_of, own_rule};
ghost use Rattle.pack_config.specs.inner.Found.{after};

use crate::condition::{condition, nothing};
use crate::found::Found;
use crate::member::{text_of, truth_of, value_at};
use crate::place::{FIRST, Places};
use crate::shared::{Base, Limits, limited_object, read_limits};
use crate::value::{signed, truth};
use fault_place::Spot;
use graph_types::{CacheGroup, Condition};
use json_order::JsonTree;
use pack_util::{NoMemory, Seq, Text};
use path_text::is_normal;
use std::alloc::Global;

/// What a group has of its own beside its limits.
#[derive(Drop)]
struct Own {
    test: Condition,
    name: Option<Text>,
    name_at: Spot,
    enforce: bool,
    reuse: bool,
    priority: i32,
}

/// The group that the object of a key is.
#[tactic(auto, using(crate::proofs::After::after_more))]
pub(crate) fn group(
    alloc: Global,
    found: &mut Found,
    places: &Places<'_>,
    base: Base,
    key: &Text,
    tree: &JsonTree,
) -> Result<CacheGroup, NoMemory>
    ensures faults { OnOk result (found.new ≡ after found.old (group_rule tree.now)) }
    ensures value { IfOk result (λ group. group ≡ group_with places.now (if is_enforced tree.now then enforced base else base) (limits_of (Some tree.now)) key.now tree.now) }
{
    limited_object(
        found,
        tree,
        &["test", "enforce", "reuseExistingChunk", "priority"],
    );
    let limits = read_limits(found, Some(tree));
    let own = read_own(alloc, found, places, tree)?;
    Ok(combined(key.clone()?, own, limits, base))
}

#[tactic(auto, using(crate::proofs::After::after_more))]
fn read_own(
    alloc: Global,
    found: &mut Found,
    places: &Places<'_>,
    tree: &JsonTree,
) -> Result<Own, NoMemory>
    ensures faults { OnOk result (found.new ≡ after found.old (own_rule tree.now)) }
    ensures value { IfOk result (λ own. own ≡ own_of places.now tree.now) }
{
    let (name, name_at) = name(alloc, found, places, value_at("name", Some(tree)))?;
    Ok(Own {
        test: test(alloc, found, value_at("test", Some(tree)))?,
        name,
        name_at,
        enforce: truth(found, value_at("enforce", Some(tree))).unwrap_or(false),
        reuse: truth(found, value_at("reuseExistingChunk", Some(tree))).unwrap_or(false),
        priority: signed(found, value_at("priority", Some(tree))).unwrap_or(0),
    })
}

fn combined(key: Text, own: Own, limits: Limits, base: Base) -> CacheGroup
    ensures { result ≡ combined key own limits base }
{
    let Own {
        test,
        name,
        name_at,
        enforce,
        reuse,
        priority,
    } = own;
    let base = if enforce { base.enforced() } else { base };
    let threshold = if enforce {
        None
    } else {
        limits.threshold.or(base.threshold)
    };
    CacheGroup {
        key,
        name,
        name_at,
        test,
        select: limits.select.unwrap_or(base.select),
        min_size: u64::from(limits.min_size.unwrap_or(base.min_size)),
        min_chunks: limits.min_chunks.unwrap_or(base.min_chunks),
        max_async: limits.max_async.or(base.max_async),
        max_initial: limits.max_initial.or(base.max_initial),
        threshold: threshold.map(u64::from),
        priority,
        reuse,
    }
}

fn test(alloc: Global, found: &mut Found, value: Option<&JsonTree>) -> Result<Condition, NoMemory>
    ensures faults { OnOk result (found.new ≡ after found.old (where_given condition_rule (option_copied value.entry))) }
    ensures value { IfOk result (λ test. test ≡ test_of (option_copied value.entry)) }
{
    match value {
        Some(tree) => condition(alloc, found, tree),
        None => Ok(nothing(alloc)),
    }
}

fn name(
    alloc: Global,
    found: &mut Found,
    places: &Places<'_>,
    value: Option<&JsonTree>,
) -> Result<(Option<Text>, Spot), NoMemory>
    ensures faults { OnOk result (found.new ≡ after found.old (where_given name_rule (option_copied value.entry))) }
    ensures value { IfOk result (λ name. name ≡ (text_value (option_copied value.entry), name_spot places.now (text_value (option_copied value.entry)) (option_copied value.entry))) }
{
    let Some(tree) = value else {
        return Ok((None, FIRST))
    };
    let Some(name) = text_of(tree) else {
        note_no_name(found, tree);
        return Ok((None, FIRST));
    };
    if !is_normal(name) {
        found.out_of_range(tree);
    }
    Ok((Some(Text::new(alloc, name)?), places.spot(tree.at)))
}

fn note_no_name(found: &mut Found, tree: &JsonTree)
    ensures { found.new ≡ after found.old (only_false tree.now) }
{
    match truth_of(tree) {
        Some(false) => {}
        Some(true) => found.out_of_range(tree),
        None => found.wrong_type(tree),
    }
}

/// The group that is there where its key isn't given: that of `default`, or that of `defaultVendors`.
pub(crate) fn default_group(alloc: Global, base: Base, key: &str) -> Result<CacheGroup, NoMemory>
    ensures { IfOk result (λ group. group ≡ default_group base key.now) }
{
    let is_default = key == "default";
    Ok(CacheGroup {
        key: Text::new(alloc, key)?,
        name: None,
        name_at: FIRST,
        test: if is_default {
            nothing(alloc)
        } else {
            vendors(alloc)?
        },
        select: base.select,
        min_size: u64::from(base.min_size),
        min_chunks: if is_default { 2 } else { base.min_chunks },
        max_async: base.max_async,
        max_initial: base.max_initial,
        threshold: base.threshold.map(u64::from),
        priority: if is_default { -20 } else { -10 },
        reuse: true,
    })
}

fn vendors(alloc: Global) -> Result<Condition, NoMemory>
    ensures { IfOk result (λ test. test ≡ vendors) }
{
    Ok(Condition::InDir(Text::new(alloc, "node_modules")?))
}
