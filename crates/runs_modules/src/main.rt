//! Worked examples of requests and modules, as the lines of the input say, whose grammar README.md has.
#![tactic(auto)]

mod asked;
mod given;
mod shown;

use asked::Asked;
use given::{config_of, tree_of};
use outside::{MemReader, MemTree};
use resolve_path::ManifestCache;
use std::alloc::{AllocError, Global};
use std::io;
use tree_listing::{ListEnd, list};

/// The tree and the configuration of these lines, ready to be asked, and none where there is no configuration or no listing.
fn begun<'a>(
    alloc: Global,
    lines: &[String],
    tree: &'a MemTree,
) -> Result<Option<Asked<'a>>, AllocError> {
    let Some(config) = config_of(alloc, lines)? else {
        return Ok(None);
    };
    let mut reader = MemReader::new(alloc, tree);
    let listing = match list(alloc, &mut reader) {
        Ok(listing) => listing,
        Err(ListEnd::NoMemory) => return Err(AllocError),
        Err(_) => return Ok(None),
    };
    Ok(Some(Asked {
        reader,
        listing,
        config,
        cache: ManifestCache::new(alloc)?,
        told: 0,
    }))
}

/// The answers to the lines of one tree.
fn answers(alloc: Global, lines: &[String]) -> Result<String, AllocError> {
    let tree = tree_of(alloc, lines)?;
    let Some(mut asked) = begun(alloc, lines, &tree)? else {
        return String::from_str(alloc, "no configuration or no listing\n");
    };
    let mut output = String::new(alloc);
    for line in lines {
        let answer = asked.answer(alloc, line.as_str())?;
        output.push_str(answer.as_str())?;
    }
    Ok(output)
}

fn main(rt: HostRuntime) -> io::Result<()> {
    let alloc = rt.alloc();
    let mut lines: Vec<String> = Vec::new(alloc);
    for line in rt.lines(alloc) {
        let line = line?;
        if line.as_str() == "T" {
            let output = answers(alloc, &lines)?;
            print!(rt; "{output}")?;
            lines.clear();
        }
        lines.push(line)?;
    }
    let output = answers(alloc, &lines)?;
    print!(rt; "{output}")?;
    Ok(())
}
