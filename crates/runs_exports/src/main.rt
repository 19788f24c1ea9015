//! Worked examples of manifests and of the `exports` of packages. A line of the input is `M TEXT`, which asks for the fields of
//! the manifest TEXT, or `E SUBPATH CONDITIONS JSON`, which asks what SUBPATH is by the `exports` JSON where the CONDITIONS hold,
//! with commas between and `-` for none. The line of the output is the answer, and any other line comes back as it is.
//! Where the expected answers come from: docs/PROMISES.md.
#![tactic(auto)]

use json_order::{JsonEnd, JsonNode, JsonTree, read};
use pack_util::{Seq, Text};
use pkg_exports::{ExportsEnd, export_target};
use pkg_manifest::{Manifest, ManifestEnd, manifest};
use std::alloc::{AllocError, Global};
use std::io;

/// The tree as JSON without blanks, each text as it is without its escapes.
fn show(line: &mut String, tree: &JsonTree) -> Result<(), AllocError> {
    match &tree.node {
        JsonNode::Null => line.push_str("null"),
        JsonNode::Bool(true) => line.push_str("true"),
        JsonNode::Bool(false) => line.push_str("false"),
        JsonNode::Number(text) => line.push_str(text.get()),
        JsonNode::Str(text) => quote(line, text),
        JsonNode::List(trees) => {
            line.push_str("[")?;
            for (index, tree) in trees.as_slice().iter().enumerate() {
                line.push_str(if index == 0 { "" } else { "," })?;
                show(line, tree)?;
            }
            line.push_str("]")
        }
        JsonNode::Object(pairs) => {
            line.push_str("{")?;
            for (index, pair) in pairs.as_slice().iter().enumerate() {
                line.push_str(if index == 0 { "" } else { "," })?;
                quote(line, &pair.key)?;
                line.push_str(":")?;
                show(line, &pair.value)?;
            }
            line.push_str("}")
        }
    }
}

fn quote(line: &mut String, text: &Text) -> Result<(), AllocError> {
    line.push_str("\"")?;
    line.push_str(text.get())?;
    line.push_str("\"")
}

fn show_mains(line: &mut String, mains: &Seq<(Text, Text)>) -> Result<(), AllocError> {
    line.push_str("mains [")?;
    for (index, (key, value)) in mains.as_slice().iter().enumerate() {
        line.push_str(if index == 0 { "" } else { " " })?;
        line.push_str(key.get())?;
        line.push_str("=")?;
        line.push_str(value.get())?;
    }
    line.push_str("]")
}

fn show_manifest(line: &mut String, manifest: &Manifest) -> Result<(), AllocError> {
    show_mains(line, &manifest.mains)?;
    match &manifest.exports {
        None => line.push_str(" no exports"),
        Some(tree) => {
            line.push_str(" exports ")?;
            show(line, tree)
        }
    }
}

fn manifest_answer(alloc: Global, text: &str) -> Result<String, AllocError> {
    let mut line = String::new(alloc);
    match manifest(alloc, text.as_bytes()) {
        Ok(manifest) => show_manifest(&mut line, &manifest)?,
        Err(ManifestEnd::BadManifest) => line.push_str("BadManifest")?,
        Err(ManifestEnd::NoMemory) => return Err(AllocError),
    }
    Ok(line)
}

fn conditions_of(alloc: Global, names: &str) -> Result<Vec<Text>, AllocError> {
    let mut conditions = Vec::new(alloc);
    if names != "-" {
        for name in names.split(',') {
            conditions.push(Text::new(alloc, name)?)?;
        }
    }
    Ok(conditions)
}

fn target_answer(
    alloc: Global,
    exports: &JsonTree,
    subpath: &str,
    conditions: &[Text],
) -> Result<String, AllocError> {
    match export_target(alloc, exports, subpath, conditions) {
        Ok(Some(target)) => String::from_str(alloc, target.get()),
        Ok(None) => String::from_str(alloc, "None"),
        Err(ExportsEnd::Mixed) => String::from_str(alloc, "Mixed"),
        Err(ExportsEnd::BadKey) => String::from_str(alloc, "BadKey"),
        Err(ExportsEnd::BadTarget) => String::from_str(alloc, "BadTarget"),
        Err(ExportsEnd::NoMemory) => Err(AllocError),
    }
}

fn exports_answer(alloc: Global, example: &str) -> Result<String, AllocError> {
    let Some((subpath, rest)) = example.split_once(' ') else {
        return String::from_str(alloc, "BadLine");
    };
    let Some((names, json)) = rest.split_once(' ') else {
        return String::from_str(alloc, "BadLine");
    };
    let conditions = conditions_of(alloc, names)?;
    match read(alloc, json.as_bytes()) {
        Ok(exports) => target_answer(alloc, &exports, subpath, &conditions),
        Err(JsonEnd::Fault(_)) => String::from_str(alloc, "BadJson"),
        Err(JsonEnd::NoMemory) => Err(AllocError),
    }
}

fn answer(alloc: Global, line: &str) -> Result<String, AllocError> {
    if let Some(text) = line.strip_prefix("M ") {
        return manifest_answer(alloc, text);
    }
    match line.strip_prefix("E ") {
        Some(example) => exports_answer(alloc, example),
        None => String::from_str(alloc, line),
    }
}

fn main(rt: HostRuntime) -> io::Result<()> {
    let alloc = rt.alloc();
    for line in rt.lines(alloc) {
        let line = line?;
        let answer = answer(alloc, line.as_str())?;
        println!(rt; "{answer}")?;
    }
    Ok(())
}
