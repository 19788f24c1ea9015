ghost use Rattle.std.specs.Prelude.{◌≡◌, [], Some, codes, IfOk, OnOk};
ghost use Rattle.std.specs.Option.{option_copied};
ghost use Rattle.pack_config.specs.Answer.{ConfigAnswersBy, IsConfigAnswer, IsAnswerIn};
ghost use Rattle.pack_config.specs.Faults.{config_fault};
ghost use Rattle.pack_config.specs.Grammar.{faults_of, optimization_rule, output_rule};
ghost use Rattle.pack_config.specs.Values.{value_at};
ghost use Rattle.pack_config.specs.inner.Optimization.{optimization_of};
ghost use Rattle.pack_config.specs.inner.Parts.{ArePartsOf};
ghost use Rattle.pack_config.specs.inner.Stopped.{stopped_as};
ghost use Rattle.pack_config.specs.inner.Found.{after};
ghost use Rattle.pack_config.specs.declared.fault.ConfigEnd.TheVariants.{Fault};

use crate::entry::entries;
use crate::found::Found;
use crate::member::value_at;
use crate::output::{Output, read_output};
use crate::place::Places;
use crate::resolve::{Resolve, read_resolve};
use crate::split::split_chunks;
use crate::value::{object, one_of, only_false, truth};
use crate::{ConfigEnd, ConfigFault, ConfigKind};
use graph_types::{CacheGroup, Config, EntrySpec};
use json_order::{JsonEnd, JsonTree, read};
use pack_util::{MAX_TEXT, NoMemory, Seq};
use std::alloc::Global;

/// The configuration that a text is, or its first fault.
pub fn read_config(alloc: Global, text: &[u8]) -> Result<Config, ConfigEnd>
    ensures { ConfigAnswersBy (IsConfigAnswer text.now) result }
{
    if text.len() as u64 > MAX_TEXT {
        return Err(fault(0, ConfigKind::TooLong));
    }
    match read(alloc, text) {
        Ok(tree) => config_of(alloc, text, &tree),
        Err(end) => Err(stopped(end)),
    }
}

fn stopped(end: JsonEnd) -> ConfigEnd
    ensures { result ≡ stopped_as end }
{
    match end {
        JsonEnd::Fault(stop) => fault(stop.offset, ConfigKind::Json),
        JsonEnd::NoMemory => ConfigEnd::NoMemory,
    }
}

fn fault(offset: u64, kind: ConfigKind) -> ConfigEnd
    ensures { result ≡ Fault (config_fault kind offset) }
{
    ConfigEnd::Fault(ConfigFault { offset, kind })
}

fn config_of(alloc: Global, text: &[u8], tree: &JsonTree) -> Result<Config, ConfigEnd>
    ensures { ConfigAnswersBy (IsAnswerIn text.now tree.now) result }
{
    let mut found = Found::new();
    let parts = read_parts(alloc, &mut found, text, tree)?;
    let Parts {
        entries,
        output,
        resolve,
        optimization,
    } = parts;
    if let Some(fault) = found.least() {
        return Err(ConfigEnd::Fault(fault));
    }
    Ok(Config {
        entries,
        filename: output.filename,
        chunk_filename: output.chunk_filename,
        public_path: output.public_path,
        alias: resolve.alias,
        extensions: resolve.extensions,
        main_fields: resolve.main_fields,
        main_files: resolve.main_files,
        conditions: resolve.conditions,
        named_ids: optimization.named_ids,
        merge_equal: optimization.merge_equal,
        drop_empty: optimization.drop_empty,
        cache_groups: optimization.cache_groups,
    })
}

/// What the parts of a configuration say.
#[derive(Drop)]
struct Parts {
    entries: Seq<EntrySpec>,
    output: Output,
    resolve: Resolve,
    optimization: Optimization,
}

#[tactic(auto, using(crate::proofs::After::after_more))]
fn read_parts(
    alloc: Global,
    found: &mut Found,
    text: &[u8],
    tree: &JsonTree,
) -> Result<Parts, NoMemory>
    ensures faults { OnOk result (found.new ≡ after found.old (faults_of tree.now)) }
    ensures value { IfOk result (λ parts. output_rule (value_at (codes "output") (Some tree.now)) ≡ [] → ArePartsOf text.now tree.now parts) }
{
    object(
        found,
        tree,
        &[
            "mode",
            "target",
            "devtool",
            "entry",
            "output",
            "resolve",
            "optimization",
        ],
    );
    let root = Some(tree);
    one_of(
        found,
        value_at("mode", root),
        &["production", "development", "none"],
    );
    one_of(found, value_at("target", root), &["web"]);
    only_false(found, value_at("devtool", root));
    let places = Places::new(alloc, text)?;
    let entries = entries(alloc, found, &places, value_at("entry", root))?;
    let output = read_output(alloc, found, value_at("output", root))?;
    let resolve = read_resolve(alloc, found, value_at("resolve", root))?;
    let optimization = read_optimization(alloc, found, &places, value_at("optimization", root))?;
    Ok(Parts {
        entries,
        output,
        resolve,
        optimization,
    })
}

#[derive(Drop)]
struct Optimization {
    named_ids: bool,
    merge_equal: bool,
    drop_empty: bool,
    cache_groups: Seq<CacheGroup>,
}

#[tactic(auto, using(crate::proofs::After::after_more))]
fn read_optimization(
    alloc: Global,
    found: &mut Found,
    places: &Places<'_>,
    value: Option<&JsonTree>,
) -> Result<Optimization, NoMemory>
    ensures faults { OnOk result (found.new ≡ after found.old (optimization_rule (option_copied value.entry))) }
    ensures value { IfOk result (λ optimization. optimization ≡ optimization_of places.now (option_copied value.entry)) }
{
    if let Some(tree) = value {
        object(
            found,
            tree,
            &[
                "moduleIds",
                "mergeDuplicateChunks",
                "removeEmptyChunks",
                "minimize",
                "splitChunks",
            ],
        );
    }
    only_false(found, value_at("minimize", value));
    Ok(Optimization {
        named_ids: one_of(found, value_at("moduleIds", value), &["natural", "named"])
            == Some("named"),
        merge_equal: truth(found, value_at("mergeDuplicateChunks", value)).unwrap_or(true),
        drop_empty: truth(found, value_at("removeEmptyChunks", value)).unwrap_or(true),
        cache_groups: split_chunks(alloc, found, places, value_at("splitChunks", value))?,
    })
}
