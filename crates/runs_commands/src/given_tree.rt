//! The tree that lines give.

use outside::{MemTree, TreeEnd};
use std::alloc::{AllocError, Global};
use test_escapes::unescaped;

fn add(alloc: Global, tree: &mut MemTree, path: &str, text: &[u8]) -> Result<(), AllocError> {
    match tree.with(alloc, path, text) {
        Err(TreeEnd::NoMemory) => Err(AllocError),
        _ => Ok(()),
    }
}

fn add_file(alloc: Global, tree: &mut MemTree, given: &str) -> Result<(), AllocError> {
    let Some((path, text)) = given.split_once('|') else {
        return Ok(());
    };
    let text = unescaped(alloc, text.as_bytes())?;
    add(alloc, tree, path, &text)
}

fn add_repeated(alloc: Global, tree: &mut MemTree, given: &str) -> Result<(), AllocError> {
    let Some((path, rest)) = given.split_once('|') else {
        return Ok(());
    };
    let Some((count, part)) = rest.split_once('|') else {
        return Ok(());
    };
    let part = unescaped(alloc, part.as_bytes())?;
    let mut text = Vec::new(alloc);
    if let Ok(count) = count.parse::<u32>() {
        for _ in 0..count {
            text.extend_from_slice(&part)?;
        }
    }
    add(alloc, tree, path, &text)
}

/// The tree of the files that these lines say.
pub(crate) fn tree_of(alloc: Global, lines: &[String]) -> Result<MemTree, AllocError> {
    let mut tree = MemTree::new(alloc);
    for line in lines {
        match line.as_str().split_once(' ') {
            Some(("F", given)) => add_file(alloc, &mut tree, given)?,
            Some(("R", given)) => add_repeated(alloc, &mut tree, given)?,
            _ => {}
        }
    }
    Ok(tree)
}
