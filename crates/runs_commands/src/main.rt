//! Commands carried out in memory, as the lines of the input say, whose grammar README.md has.
#![tactic(auto)]

mod given_tree;
mod left;
mod meeting_reader;
mod setting;

use given_tree::tree_of;
use left::{Left, answer, shown};
use outside::{MemLines, MemSink, MemTree};
use pack_run::run;
use setting::Setting;
use std::alloc::{AllocError, Global};
use std::sync::atomic::AtomicU32;
use std::sync::atomic::Ordering::SeqCst;
use std::thread::Threads;
use std::{io, mem};

fn owned(alloc: Global, words: &str) -> Result<Vec<String>, AllocError> {
    let mut owned = Vec::new(alloc);
    if words.is_empty() {
        return Ok(owned);
    }
    for word in words.split(' ') {
        owned.push(String::from_str(alloc, word)?)?;
    }
    Ok(owned)
}

/// The tree of commands, and how many reads that wait have begun in the last.
#[derive(Clone, Copy)]
struct Outside<'a> {
    tree: &'a MemTree,
    begun: &'a AtomicU32,
}

fn carry_out<'a, Rt: Threads + Sync>(
    rt: &Rt,
    alloc: Global,
    outside: Outside<'a>,
    setting: &Setting,
    words: &str,
    left: &mut Left<'a>,
    output: &mut String,
) -> Result<(), AllocError> {
    let words = owned(alloc, words)?;
    let mut readers = setting.readers(alloc, outside.tree, outside.begun)?;
    let mut sink = MemSink::failing(alloc, setting.failing.puts.to_vec(alloc)?);
    let mut lines = MemLines::failing(alloc, setting.failing.lines.to_vec(alloc)?);
    outside.begun.store(0, SeqCst);
    let end = run(rt, alloc, &words, &mut readers, &mut sink, &mut lines);
    shown(output, &end, &lines, &sink)?;
    left.readers = readers;
    left.before = mem::replace(&mut left.sink, sink);
    Ok(())
}

/// The answers to the lines of one tree.
fn answers<Rt: Threads + Sync>(
    rt: &Rt,
    alloc: Global,
    lines: &[String],
) -> Result<String, AllocError> {
    let tree = tree_of(alloc, lines)?;
    let begun = AtomicU32::new(0);
    let outside = Outside {
        tree: &tree,
        begun: &begun,
    };
    let mut output = String::new(alloc);
    let mut setting = Setting::new(alloc);
    let mut left = Left {
        readers: Vec::new(alloc),
        sink: MemSink::new(alloc),
        before: MemSink::new(alloc),
    };
    for line in lines {
        let line = line.as_str();
        let (name, given) = line.split_once(' ').unwrap_or((line, ""));
        match name {
            "T" | "F" | "R" => {}
            "W" => carry_out(rt, alloc, outside, &setting, given, &mut left, &mut output)?,
            _ if setting.take(alloc, name, given)? => {}
            _ => answer(alloc, &left, line, &mut output)?,
        }
    }
    Ok(output)
}

fn main(rt: HostRuntime) -> io::Result<()> {
    let alloc = rt.alloc();
    let mut lines: Vec<String> = Vec::new(alloc);
    for line in rt.lines(alloc) {
        let line = line?;
        if line.as_str() == "T" {
            let output = answers(&rt, alloc, &lines)?;
            print!(rt; "{output}")?;
            lines.clear();
        }
        lines.push(line)?;
    }
    let output = answers(&rt, alloc, &lines)?;
    print!(rt; "{output}")?;
    Ok(())
}
