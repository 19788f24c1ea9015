//! What is sealed of small graphs: groups, what they reach, have available and have placed, and splits. The first word of a
//! line says what is asked, and the words behind it are the graph (README.md). The expected lines come from plain programs
//! (`bench/chunk_groups/search.py`, `bench/split_chunks/plain.py`).
#![tactic(auto)]

mod changes;
mod graphs;
mod named;
mod placing;
mod reached;
mod rows;
mod splits;

use pack_util::NoMemory;
use std::alloc::Global;
use std::io;

fn answer(alloc: Global, line: &str) -> Result<String, NoMemory> {
    let (asked, words) = line.split_once(' ').unwrap_or((line, ""));
    match asked {
        "groups" => reached::answer(alloc, words),
        "named" => named::answer(alloc, words),
        "splits" => splits::answer(alloc, words),
        _ => Ok(String::new(alloc)),
    }
}

fn main(rt: HostRuntime) -> io::Result<()> {
    let alloc = rt.alloc();
    for line in rt.lines(alloc) {
        let line = line?;
        let answer = answer(alloc, line.as_str())?;
        println!(rt; "{answer}")?;
    }
    Ok(())
}
