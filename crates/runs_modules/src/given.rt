//! The tree and the configuration that lines give.

use graph_types::Config;
use outside::{MemTree, TreeEnd};
use pack_config::{ConfigEnd, read_config};
use std::alloc::{AllocError, Global};
use test_escapes::unescaped;

fn add(alloc: Global, tree: &mut MemTree, path: &str, text: &[u8]) -> Result<(), AllocError> {
    match tree.with(alloc, path, text) {
        Err(TreeEnd::NoMemory) => Err(AllocError),
        _ => Ok(()),
    }
}

/// An object of so many bytes: blanks, and then `{}`.
fn object_behind_blanks(alloc: Global, count: &str) -> Result<Vec<u8>, AllocError> {
    let mut text = Vec::new(alloc);
    if let Ok(count) = count.parse::<u32>() {
        for _ in 2..count {
            text.push(b' ')?;
        }
    }
    text.extend_from_slice(b"{}")?;
    Ok(text)
}

fn add_given(alloc: Global, tree: &mut MemTree, kind: &str, given: &str) -> Result<(), AllocError> {
    let Some((path, text)) = given.split_once('|') else {
        return Ok(());
    };
    match kind {
        "F" => add(alloc, tree, path, &unescaped(alloc, text.as_bytes())?),
        "Z" => add(alloc, tree, path, &object_behind_blanks(alloc, text)?),
        _ => Ok(()),
    }
}

/// The tree of the files that these lines say.
pub(crate) fn tree_of(alloc: Global, lines: &[String]) -> Result<MemTree, AllocError> {
    let mut tree = MemTree::new(alloc);
    for line in lines {
        if let Some((kind, given)) = line.as_str().split_once(' ') {
            add_given(alloc, &mut tree, kind, given)?;
        }
    }
    Ok(tree)
}

/// The text of the configuration that a line says, or the empty one.
fn config_text(lines: &[String]) -> &str {
    for line in lines {
        if let Some(("C", given)) = line.as_str().split_once(' ') {
            return given;
        }
    }
    "{}"
}

/// The configuration that these lines say, and none where the text has a fault.
pub(crate) fn config_of(alloc: Global, lines: &[String]) -> Result<Option<Config>, AllocError> {
    match read_config(alloc, config_text(lines).as_bytes()) {
        Ok(config) => Ok(Some(config)),
        Err(ConfigEnd::Fault(_)) => Ok(None),
        Err(ConfigEnd::NoMemory) => Err(AllocError),
    }
}
