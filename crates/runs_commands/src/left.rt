//! What commands print and leave.

use crate::meeting_reader::MeetingReader;
use outside::{MemLines, MemSink, Why};
use pack_run::End;
use std::alloc::{AllocError, Global};
use std::str;

/// What comes before the public path in the text of an entry's chunk.
const RUNTIME_END: &str = "})(self);\n";

/// The readers and the sink of the last command, and the sink of the one before.
#[derive(Drop)]
pub(crate) struct Left<'a> {
    pub(crate) readers: Vec<MeetingReader<'a>>,
    pub(crate) sink: MemSink,
    pub(crate) before: MemSink,
}

/// Which failure a status stands for, where it stands for two.
fn failure(end: &End) -> &'static str {
    match end {
        End::WriteFault => " WriteFault",
        End::LineFault => " LineFault",
        _ => "",
    }
}

/// What a command prints, its status, and the names of its assets.
pub(crate) fn shown(
    output: &mut String,
    end: &End,
    lines: &MemLines,
    sink: &MemSink,
) -> Result<(), AllocError> {
    for line in lines.lines() {
        output.push_str(str::from_utf8(line.get()).unwrap_or("no text"))?;
        output.push_str("\n")?;
    }
    let status = end.status();
    let failure = failure(end);
    write!(output, "status {status}{failure}\n")?;
    for asset in sink.held() {
        let name = asset.name.get();
        write!(output, "asset {name}\n")?;
    }
    Ok(())
}

fn text_of<'a>(sink: &'a MemSink, name: &str) -> &'a str {
    for asset in sink.held() {
        if asset.name.get() == name {
            return str::from_utf8(asset.bytes.get()).unwrap_or("no text\n");
        }
    }
    ""
}

/// Behind the runtime's functions, where a text has them.
fn behind_runtime(text: &str) -> &str {
    match text.split_once(RUNTIME_END) {
        Some((_, rest)) => rest,
        None => text,
    }
}

fn add_modules<'a>(
    paths: &mut Vec<&'a str>,
    reader: &'a MeetingReader<'_>,
) -> Result<(), AllocError> {
    for (path, why) in reader.log() {
        if *why == Why::Module {
            paths.push(path.get())?;
        }
    }
    Ok(())
}

/// The paths of the files that were read as modules, in byte order.
fn reads(
    alloc: Global,
    output: &mut String,
    readers: &[MeetingReader<'_>],
) -> Result<(), AllocError> {
    let mut paths = Vec::new(alloc);
    for reader in readers {
        add_modules(&mut paths, reader)?;
    }
    paths.sort_unstable();
    for path in paths.as_slice() {
        write!(output, "read {path}\n")?;
    }
    Ok(())
}

fn compared(left: &Left<'_>) -> &'static str {
    if left.sink.held() == left.before.held() {
        "the same assets\n"
    } else {
        "other assets\n"
    }
}

/// Adds the answer to a line that asks what a command has left, or else the line.
pub(crate) fn answer(
    alloc: Global,
    left: &Left<'_>,
    line: &str,
    output: &mut String,
) -> Result<(), AllocError> {
    match line.split_once(' ') {
        Some(("A", name)) => output.push_str(behind_runtime(text_of(&left.sink, name))),
        Some(("V", name)) => output.push_str(text_of(&left.sink, name)),
        None if line == "L" => reads(alloc, output, &left.readers),
        None if line == "=" => output.push_str(compared(left)),
        _ => write!(output, "{line}\n"),
    }
}
