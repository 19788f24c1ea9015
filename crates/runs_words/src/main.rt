//! Words with what they ask for, and sample trees. An input line of words has a `|` before each word; a line `tree N` asks
//! for the files of a sample: each path with its length and hash, and the text of each module. A line `hash N` asks for
//! one hash of a whole sample.
#![tactic(auto)]

mod trees;
mod words;

use std::alloc::{AllocError, Global};
use std::io;

fn answer(alloc: Global, line: &str) -> Result<String, AllocError> {
    if let Some(number) = line.strip_prefix("tree ") {
        return trees::tree_text(alloc, number.parse::<u32>().unwrap_or(0));
    }
    if let Some(number) = line.strip_prefix("hash ") {
        return trees::tree_hash(alloc, number.parse::<u32>().unwrap_or(0));
    }
    words::job_text(alloc, line)
}

fn main(rt: HostRuntime) -> io::Result<()> {
    let alloc = rt.alloc();
    for line in rt.lines(alloc) {
        let line = line?;
        let answer = answer(alloc, line.as_str())?;
        println!(rt; "{answer}")?;
    }
    Ok(())
}
