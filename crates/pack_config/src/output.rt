ghost use Rattle.std.specs.Prelude.{◌≡◌, [], IfOk, OnOk};
ghost use Rattle.std.specs.Option.{option_copied};
ghost use Rattle.pack_config.specs.Grammar.{output_rule, public_path};
ghost use Rattle.pack_config.specs.inner.Output.{IsOutputOf};
ghost use Rattle.pack_config.specs.inner.Found.{after};

use crate::found::Found;
use crate::member::value_at;
use crate::template::template;
use crate::value::{object, one_of, text, whole};
use graph_types::Template;
use json_order::JsonTree;
use pack_util::{NoMemory, Text};
use std::alloc::Global;

/// How the assets are named.
#[derive(Drop)]
pub(crate) struct Output {
    pub(crate) filename: Template,
    pub(crate) chunk_filename: Template,
    pub(crate) public_path: Text,
}

#[tactic(auto, using(crate::proofs::After::after_more))]
pub(crate) fn read_output(
    alloc: Global,
    found: &mut Found,
    value: Option<&JsonTree>,
) -> Result<Output, NoMemory>
    ensures faults { OnOk result (found.new ≡ after found.old (output_rule (option_copied value.entry))) }
    ensures value { IfOk result (λ output. output_rule (option_copied value.entry) ≡ [] → IsOutputOf (option_copied value.entry) output) }
{
    if let Some(tree) = value {
        object(
            found,
            tree,
            &[
                "path",
                "filename",
                "chunkFilename",
                "hashDigestLength",
                "publicPath",
            ],
        );
    }
    one_of(found, value_at("path", value), &["dist", "./dist"]);
    let digits = whole(found, value_at("hashDigestLength", value), 1, 64).unwrap_or(20);
    Ok(Output {
        filename: template(
            alloc,
            found,
            value_at("filename", value),
            "[name].js",
            digits,
        )?,
        chunk_filename: template(
            alloc,
            found,
            value_at("chunkFilename", value),
            "[id].js",
            digits,
        )?,
        public_path: public_path(alloc, text(found, value_at("publicPath", value)))?,
    })
}

fn public_path(alloc: Global, text: Option<&str>) -> Result<Text, NoMemory>
    ensures { IfOk result (λ path. path ≡ public_path (option_copied text.entry)) }
{
    match text {
        Some("auto") | None => Text::new(alloc, ""),
        Some(path) => Text::new(alloc, path),
    }
}
