use fault_place::fault_line;
use graph_types::{ModKind, ModRecord};
use module_parse::{long_record, parse};
use pack_util::{Bytes, FileId, MAX_TEXT};
use std::alloc::{AllocError, Global};
use std::str;
use test_escapes::escaped;

fn kind_name(kind: ModKind) -> &'static str {
    match kind {
        ModKind::Es => "Es",
        ModKind::Plain => "Plain",
        ModKind::Json => "Json",
        ModKind::Bad => "Bad",
    }
}

fn shown(alloc: Global, rec: &ModRecord) -> Result<String, AllocError> {
    let mut line = String::new(alloc);
    let kind = kind_name(rec.kind);
    let size = rec.size;
    let requests = rec.items.as_slice().len();
    write!(line, "{kind} {size} {requests}")?;
    for fault in rec.faults.as_slice() {
        line.push_str("; ")?;
        let told = fault_line(alloc, fault)?;
        line.push_str(str::from_utf8(&told).unwrap_or("no text"))?;
    }
    escaped(alloc, line.as_str())
}

fn read(alloc: Global, path: &str, text: &[u8]) -> Result<String, AllocError> {
    if text.len() as u64 > MAX_TEXT {
        return String::from_str(alloc, "too long");
    }
    let text = Bytes::new(alloc, text)?;
    shown(alloc, &parse(alloc, FileId(0), path, text)?)
}

fn long(alloc: Global, path: &str, given: &[u8]) -> Result<String, AllocError> {
    let size = str::from_utf8(given).unwrap_or("");
    match size.parse::<u64>() {
        Ok(size) => shown(alloc, &long_record(alloc, FileId(0), path, size)?),
        Err(_) => String::from_str(alloc, "no length"),
    }
}

/// Asked are `read` and a path, or `long` and a path, where the text is the length.
pub(crate) fn answer(alloc: Global, asked: &str, given: &[u8]) -> Result<String, AllocError> {
    match asked.split_once(' ') {
        Some(("long", path)) => long(alloc, path, given),
        Some((_, path)) => read(alloc, path, given),
        None => String::from_str(alloc, "no path"),
    }
}
