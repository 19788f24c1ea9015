//! One call each, and the line that tells what it gave and how many faults are counted.
use outside::{AssetSink, DirEntry, EntryKind, LineSink, OutsideEnd, ReadGot, TreeReader, Why};
use outside_real::{DirReader, DirSink, StdLines};
use std::io;

/// More bytes than this are too long.
const MOST: u64 = 5;

pub fn tell(rt: &HostRuntime, lines: &mut StdLines<&HostRuntime>, text: &str) -> io::Result<()> {
    match lines.line(rt.alloc(), text.as_bytes()) {
        Ok(()) => Ok(()),
        Err(_) => Err(io::ErrorKind::Other.into()),
    }
}

fn end_text(end: OutsideEnd) -> &'static str {
    match end {
        OutsideEnd::Failed => "failed",
        OutsideEnd::NoMemory => "no memory",
    }
}

/// The names in their order, a folder's with a slash and a file's with its length.
fn names(rt: &HostRuntime, mut entries: Vec<DirEntry>) -> io::Result<String> {
    entries.sort_by(|one, other| one.name.cmp(&other.name))?;
    let mut text = String::new(rt.alloc());
    for entry in entries.iter() {
        let name = entry.name.get();
        let shown = match entry.kind {
            EntryKind::Folder => format!(in rt.alloc(); " {name}/")?,
            EntryKind::File(length) => format!(in rt.alloc(); " {name}={length}")?,
        };
        text.push_str(shown.as_str())?;
    }
    Ok(text)
}

pub fn list(
    rt: &HostRuntime,
    reader: &mut DirReader<&HostRuntime>,
    folder: &str,
    lines: &mut StdLines<&HostRuntime>,
) -> io::Result<()> {
    let text = match reader.list_dir(rt.alloc(), folder) {
        Ok(entries) => names(rt, entries)?,
        Err(end) => format!(in rt.alloc(); " {}", end_text(end))?,
    };
    let faults = reader.faults();
    let line = format!(in rt.alloc(); "list \"{folder}\", {faults} faults:{text}")?;
    tell(rt, lines, line.as_str())
}

pub fn read(
    rt: &HostRuntime,
    reader: &mut DirReader<&HostRuntime>,
    path: &str,
    lines: &mut StdLines<&HostRuntime>,
) -> io::Result<()> {
    let text = match reader.read(rt.alloc(), path, Why::Module, MOST) {
        Ok(ReadGot::Whole(bytes)) => String::from_utf8_lossy(rt.alloc(), bytes.get())?,
        Ok(ReadGot::TooLong) => String::from_str(rt.alloc(), "too long")?,
        Err(end) => String::from_str(rt.alloc(), end_text(end))?,
    };
    let faults = reader.faults();
    let line = format!(in rt.alloc(); "read \"{path}\", {faults} faults: {text}")?;
    tell(rt, lines, line.as_str())
}

pub fn put(
    rt: &HostRuntime,
    sink: &mut DirSink<&HostRuntime>,
    name: &str,
    bytes: &[u8],
    lines: &mut StdLines<&HostRuntime>,
) -> io::Result<()> {
    let text = match sink.put(rt.alloc(), name, bytes) {
        Ok(()) => "ok",
        Err(end) => end_text(end),
    };
    let faults = sink.faults();
    let line = format!(in rt.alloc(); "put \"{name}\", {faults} faults: {text}")?;
    tell(rt, lines, line.as_str())
}
