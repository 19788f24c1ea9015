//! Graphs and groups from a line of words.

ghost use Rattle.std.specs.Prelude.{◌≡◌, ◌+◌, ◌<◌, ◌≤◌, ◌^◌, length, map, sum, OnOk, IfOk, vec_len};
ghost use Rattle.std.specs.Option.{IfSome};
ghost use Rattle.graph_types.specs.Fits.{HoldsWholeRecords};
ghost use Rattle.runs_seal.specs.Small.{AreGood, AreSmall, HasSmall, IsGood};

use graph_types::{GroupInfo, Groups, Item, ItemKind, ModKind, ModRecord, ModuleGraph};
use pack_util::{Bytes, FileId, ModuleNo, NoMemory, Seq, Span, Text};
use std::alloc::Global;

fn numbers(alloc: Global, text: &str) -> Result<Vec<u32>, NoMemory> {
    let mut all = Vec::new(alloc);
    for part in text.split(',') {
        if let Ok(number) = part.parse::<u32>() {
            all.push(number)?;
        }
    }
    Ok(all)
}

fn modules(alloc: Global, text: &str) -> Result<Seq<ModuleNo>, NoMemory> {
    let mut all = Vec::new(alloc);
    for number in numbers(alloc, text)? {
        all.push(ModuleNo(number))?;
    }
    Ok(Seq::from_vec(all))
}

/// An item from its target, with `=NAME` for its chunk's name and `@OFFSET` for its request's quote.
fn item(alloc: Global, kind: ItemKind, word: &str, size: u32) -> Result<Option<Item>, NoMemory>
    ensures { IfOk result (λ item. IfSome item (IsGood size)) }
{
    let (word, at) = word.split_once('@').unwrap_or((word, "0"));
    let (target, name) = match word.split_once('=') {
        Some((target, name)) => (target, Some(Text::new(alloc, name)?)),
        None => (word, None),
    };
    let Ok(target) = target.parse::<u32>() else {
        return Ok(None);
    };
    Ok(Some(Item {
        kind,
        span: Span { start: 0, end: 0 },
        at: at.parse::<u32>().unwrap_or(0).min(size),
        request: Text::new(alloc, "./a.js")?,
        chunk_name: name,
        target: Some(FileId(target)),
    }))
}

fn any_item(alloc: Global, part: &str, size: u32) -> Result<Option<Item>, NoMemory>
    ensures { IfOk result (λ item. IfSome item (IsGood size)) }
{
    if let Some(word) = part.strip_prefix('l') {
        return item(alloc, ItemKind::Lazy, word, size);
    }
    match part.strip_prefix('i') {
        Some(word) => item(alloc, ItemKind::Import, word, size),
        None => Ok(None),
    }
}

fn add_item(alloc: Global, items: &mut Vec<Item>, part: &str, size: u32) -> Result<(), NoMemory>
    requires good { AreGood size items.old.items }
    requires room { vec_len items.old < 8_192 }
    ensures { OnOk result (AreGood size items.new.items) }
{
    let item = any_item(alloc, part, size)?;
    let Some(item) = item else {
        return Ok(());
    };
    items.push(item)?;
    Ok(())
}

/// Adds an item as often as `*COUNT` behind it says, or once.
fn add_part(alloc: Global, items: &mut Vec<Item>, part: &str, size: u32) -> Result<(), NoMemory>
    requires { AreGood size items.old.items }
    ensures { OnOk result (AreGood size items.new.items) }
{
    let (part, count) = part.split_once('*').unwrap_or((part, "1"));
    for _ in 0..count.parse::<u32>().unwrap_or(0) {
        if items.len() >= 8_192 {
            return Ok(());
        }
        add_item(alloc, items, part, size)?;
    }
    Ok(())
}

fn items(alloc: Global, text: &str, size: u32) -> Result<Vec<Item>, NoMemory>
    ensures { IfOk result (λ items. AreGood size items.items) }
{
    let mut items = Vec::new(alloc);
    for part in text.split(',') {
        add_part(alloc, &mut items, part, size)?;
    }
    Ok(items)
}

/// A text in which `_` is a space and `~` a line's end.
fn bytes(alloc: Global, word: &str) -> Result<Vec<u8>, NoMemory>
    ensures { IfOk result (λ bytes. vec_len bytes ≤ 4_096) }
{
    let mut bytes = Vec::new(alloc);
    for byte in word.bytes() {
        if bytes.len() >= 4_096 {
            return Ok(bytes);
        }
        bytes.push(match byte {
            b'_' => b' ',
            b'~' => b'\n',
            other => other,
        })?;
    }
    Ok(bytes)
}

/// The size that the part `sSIZE` says, at most that of the largest text, or none.
fn size(list: &str) -> u32
    ensures { result ≤ 4_194_304 }
{
    for part in list.split(',') {
        if let Some(text) = part.strip_prefix('s') {
            return text.parse::<u32>().unwrap_or(0).min(4_194_304);
        }
    }
    0
}

/// A record from `ITEMS;PATH;TEXT`, where path and text may be left out.
fn record(alloc: Global, file: u32, word: &str) -> Result<ModRecord, NoMemory>
    ensures file { IfOk result (λ rec. rec.file.0 ≡ file) }
    ensures small { IfOk result HasSmall }
{
    let (list, rest) = word.split_once(';').unwrap_or((word, "a.js"));
    let (path, text) = rest.split_once(';').unwrap_or((rest, ""));
    let text = bytes(alloc, text)?;
    let items = items(alloc, list, text.len() as u32)?;
    Ok(ModRecord {
        file: FileId(file),
        path: Text::new(alloc, path)?,
        size: u64::from(size(list)),
        kind: ModKind::Es,
        text: Bytes::from_vec(text),
        items: Seq::from_vec(items),
        binds: Seq::new(alloc),
        exports: Seq::new(alloc),
        stars: Seq::new(alloc),
        edits: Seq::new(alloc),
        notes: Seq::new(alloc),
        faults: Seq::new(alloc),
    })
}

fn add_record(alloc: Global, records: &mut Vec<ModRecord>, word: &str) -> Result<(), NoMemory>
    requires small { AreSmall records.old.items }
    requires room { vec_len records.old < 32_768 }
    ensures { OnOk result (AreSmall records.new.items) }
{
    let Some(text) = word.strip_prefix("m:") else {
        return Ok(());
    };
    let count = records.len() as u32;
    let rec = record(alloc, count, text)?;
    records.push(rec)?;
    Ok(())
}

fn records(alloc: Global, line: &str) -> Result<Vec<ModRecord>, NoMemory>
    ensures { IfOk result (λ records. AreSmall records.items) }
{
    let mut records = Vec::new(alloc);
    for word in line.split(' ') {
        if records.len() >= 32_768 {
            return Ok(records);
        }
        add_record(alloc, &mut records, word)?;
    }
    Ok(records)
}

fn files(alloc: Global, text: &str) -> Result<Seq<FileId>, NoMemory> {
    let mut all = Vec::new(alloc);
    for number in numbers(alloc, text)? {
        all.push(FileId(number))?;
    }
    Ok(Seq::from_vec(all))
}

/// The files of each entry, from the words `r:FILES`.
pub fn entries(alloc: Global, line: &str) -> Result<Vec<Seq<FileId>>, NoMemory> {
    let mut all = Vec::new(alloc);
    for word in line.split(' ') {
        if let Some(text) = word.strip_prefix("r:") {
            all.push(files(alloc, text)?)?;
        }
    }
    Ok(all)
}

/// The graph of the line's modules.
pub fn graph(alloc: Global, line: &str, entries: &[Seq<FileId>]) -> Result<ModuleGraph, NoMemory>
    ensures whole { IfOk result (HoldsWholeRecords (length entries.now)) }
    ensures sizes { IfOk result (λ graph. sum (map (λ rec. rec.size) graph.records) ≤ 2 ^ 50) }
{
    let records = records(alloc, line)?;
    let graph = ModuleGraph::from_records(alloc, records, entries, Vec::new(alloc))?;
    Ok(graph)
}

/// A group from `e:ROOTS`, the group of an entry, or from `g:ROOTS/BLOCKS`.
fn group(alloc: Global, word: &str) -> Result<Option<GroupInfo>, NoMemory> {
    let entry = word.strip_prefix("e:");
    let Some(text) = entry.or(word.strip_prefix("g:")) else {
        return Ok(None);
    };
    let (roots, blocks) = text.split_once('/').unwrap_or((text, ""));
    let roots = modules(alloc, roots)?;
    let blocks = Seq::from_vec(numbers(alloc, blocks)?);
    Ok(Some(GroupInfo {
        entry: entry.map(|_| 0),
        name: None,
        roots,
        blocks,
    }))
}

/// The line's groups, no more than 16.
pub fn groups(alloc: Global, line: &str) -> Result<Groups, NoMemory> {
    let mut infos = Vec::new(alloc);
    for word in line.split(' ') {
        if infos.len() >= 16 {
            break;
        }
        if let Some(info) = group(alloc, word)? {
            infos.push(info)?;
        }
    }
    Ok(Groups::new(infos, Vec::new(alloc)))
}
