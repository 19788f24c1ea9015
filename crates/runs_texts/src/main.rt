//! Worked examples of texts and what is read in them. A line of the input has words, a tab and a text: the first word is the
//! reader that is asked, and the others are its own. In a text `\xHH` is a byte and `\\` a backslash. The output has the
//! answers, and docs/PROMISES.md says where the expected ones come from.
#![tactic(auto)]

mod json;
mod parse;
mod scan;
mod tokens;

use std::alloc::{AllocError, Global};
use std::io::{self, BufRead, BufReader};
use test_escapes::unescaped;

fn answer(alloc: Global, words: &str, text: &[u8]) -> Result<String, AllocError> {
    let (reader, asked) = words.split_once(' ').unwrap_or((words, ""));
    match reader {
        "json" => json::answer(alloc, text),
        "tokens" => tokens::answer(alloc, asked, text),
        "scan" => scan::answer(alloc, asked, text),
        "parse" => parse::answer(alloc, asked, text),
        _ => String::from_str(alloc, "no reader"),
    }
}

/// What stands behind the tab is the text.
fn line_answer(alloc: Global, line: &str) -> Result<String, AllocError> {
    let (words, given) = line.split_once('\t').unwrap_or((line, ""));
    let text = unescaped(alloc, given.as_bytes())?;
    answer(alloc, words, &text)
}

fn main(rt: HostRuntime) -> io::Result<()> {
    let alloc = rt.alloc();
    for line in BufReader::new(alloc, rt.reader())?.lines(alloc) {
        let answer = line_answer(alloc, line?.as_str())?;
        println!(rt; "{answer}")?;
    }
    Ok(())
}
