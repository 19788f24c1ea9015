ghost use Rattle.std.specs.Prelude.{◌≡◌, ◌++◌, option_map, option_to_list, IfOk, OnOk};
ghost use Rattle.std.specs.Option.{option_copied};
ghost use Rattle.pack_config.specs.Grammar.{alias_member, alias_rule, aliases_of, resolve_rule};
ghost use Rattle.pack_config.specs.Values.{text_of, where_given};
ghost use Rattle.pack_config.specs.inner.Resolve.{resolve_of};
ghost use Rattle.pack_config.specs.inner.Found.{after};

use crate::ConfigKind;
use crate::found::Found;
use crate::member::{pairs_of, value_at};
use crate::value::{object, text, texts};
use json_order::{JsonPair, JsonTree};
use pack_util::{NoMemory, Seq, Text};
use std::alloc::Global;

/// How requests are resolved.
#[derive(Drop)]
pub(crate) struct Resolve {
    pub(crate) alias: Seq<(Text, Text)>,
    pub(crate) extensions: Seq<Text>,
    pub(crate) main_fields: Seq<Text>,
    pub(crate) main_files: Seq<Text>,
    pub(crate) conditions: Seq<Text>,
}

#[tactic(auto, using(crate::proofs::After::after_more))]
pub(crate) fn read_resolve(
    alloc: Global,
    found: &mut Found,
    value: Option<&JsonTree>,
) -> Result<Resolve, NoMemory>
    ensures faults { OnOk result (found.new ≡ after found.old (resolve_rule (option_copied value.entry))) }
    ensures value { IfOk result (λ resolve. resolve ≡ resolve_of (option_copied value.entry)) }
{
    if let Some(tree) = value {
        object(
            found,
            tree,
            &[
                "alias",
                "extensions",
                "mainFields",
                "mainFiles",
                "conditionNames",
            ],
        );
    }
    Ok(Resolve {
        alias: alias(alloc, found, value_at("alias", value))?,
        extensions: texts(
            alloc,
            found,
            value_at("extensions", value),
            &[".js", ".json"],
        )?,
        main_fields: texts(
            alloc,
            found,
            value_at("mainFields", value),
            &["browser", "module", "main"],
        )?,
        main_files: texts(alloc, found, value_at("mainFiles", value), &["index"])?,
        conditions: texts(
            alloc,
            found,
            value_at("conditionNames", value),
            &["webpack", "browser", "module"],
        )?,
    })
}

#[tactic(auto, using(crate::proofs::After::each_all))]
fn alias(
    alloc: Global,
    found: &mut Found,
    value: Option<&JsonTree>,
) -> Result<Seq<(Text, Text)>, NoMemory>
    ensures faults { OnOk result (found.new ≡ after found.old (where_given alias_rule (option_copied value.entry))) }
    ensures value { IfOk result (λ all. all ≡ aliases_of (option_copied value.entry)) }
{
    let Some(tree) = value else {
        return Ok(Seq::new(alloc))
    };
    let Some(pairs) = pairs_of(tree) else {
        found.wrong_type(tree);
        return Ok(Seq::new(alloc));
    };
    let mut aliases = Vec::new(alloc);
    for pair in pairs {
        push_alias(alloc, found, &mut aliases, pair)?;
    }
    Ok(Seq::from_vec(aliases))
}

#[tactic(auto, using(crate::proofs::After::after_more))]
fn push_alias(
    alloc: Global,
    found: &mut Found,
    aliases: &mut Vec<(Text, Text)>,
    pair: &JsonPair,
) -> Result<(), NoMemory>
    ensures faults { OnOk result (found.new ≡ after found.old (alias_member pair.now)) }
    ensures value { OnOk result (aliases.new.items ≡ aliases.old.items ++ option_to_list (option_map (λ target. (pair.now.key, target)) (text_of pair.now.value))) }
{
    if pair.key.get().is_empty() {
        found.note(pair.key_at, ConfigKind::OutOfRange);
    }
    if let Some(target) = text(found, Some(&pair.value)) {
        aliases.push((pair.key.clone()?, Text::new(alloc, target)?))?;
    }
    Ok(())
}
