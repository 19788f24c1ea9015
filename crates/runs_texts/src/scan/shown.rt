use es_scan::Scan;
use fault_place::Fault;
use graph_types::{Bind, Edit, EditText, Export, ExportFrom, Item, ItemKind, Note, NoteKind};
use std::alloc::AllocError;
use std::str;

fn kind_name(kind: ItemKind) -> &'static str {
    match kind {
        ItemKind::Import => "Import",
        ItemKind::ExportFrom => "ExportFrom",
        ItemKind::Require => "Require",
        ItemKind::Lazy => "Lazy",
        ItemKind::Eager => "Eager",
    }
}

fn note_name(kind: NoteKind) -> &'static str {
    match kind {
        NoteKind::N1 => "N1",
        NoteKind::N2 => "N2",
        NoteKind::N3 => "N3",
        NoteKind::N4 => "N4",
    }
}

/// What stands before the next member of a list.
fn between(line: &String) -> &'static str {
    if line.is_empty() { "" } else { "; " }
}

/// A detail behind a blank, where it isn't empty.
fn push_detail(line: &mut String, detail: &str) -> Result<(), AllocError> {
    if detail.is_empty() {
        return Ok(());
    }
    write!(line, " {detail}")
}

/// Request and chunk name.
fn push_request(line: &mut String, item: &Item) -> Result<(), AllocError> {
    push_detail(line, item.request.get())?;
    match &item.chunk_name {
        Some(name) => {
            let name = name.get();
            write!(line, " as {name}")
        }
        None => Ok(()),
    }
}

fn push_item(line: &mut String, item: &Item) -> Result<(), AllocError> {
    let between = between(line);
    let kind = kind_name(item.kind);
    write!(line, "{between}{kind}")?;
    push_request(line, item)
}

/// The same with the places of the item and of its request's quote.
fn push_span(line: &mut String, item: &Item) -> Result<(), AllocError> {
    let between = between(line);
    let kind = kind_name(item.kind);
    let start = item.span.start;
    let end = item.span.end;
    let at = item.at;
    write!(line, "{between}{kind} {start}..{end} at {at}")?;
    push_request(line, item)
}

/// Local name, number of the item, and the name there, or `*`.
fn push_bind(line: &mut String, bind: &Bind) -> Result<(), AllocError> {
    let between = between(line);
    let local = bind.local.get();
    let item = bind.item;
    let name = match &bind.name {
        Some(name) => name.get(),
        None => "*",
    };
    write!(line, "{between}bind {local}={item}:{name}")
}

fn push_from(line: &mut String, from: &ExportFrom) -> Result<(), AllocError> {
    match from {
        ExportFrom::Local(name) => line.push_str(name.get()),
        ExportFrom::Name(item, name) => {
            let name = name.get();
            write!(line, "{item}:{name}")
        }
        ExportFrom::Space(item) => write!(line, "{item}:*"),
    }
}

fn push_export(line: &mut String, export: &Export) -> Result<(), AllocError> {
    let between = between(line);
    let name = export.name.get();
    write!(line, "{between}export {name}=")?;
    push_from(line, &export.from)
}

fn push_put(line: &mut String, put: &EditText) -> Result<(), AllocError> {
    match put {
        EditText::Fixed(text) => line.push_str(text.get()),
        EditText::Load(item) => write!(line, "{{{item}}}"),
    }
}

fn is_empty(put: &EditText) -> bool {
    match put {
        EditText::Fixed(text) => text.get().is_empty(),
        EditText::Load(_) => false,
    }
}

fn push_edit(line: &mut String, edit: &Edit) -> Result<(), AllocError> {
    let between = between(line);
    let start = edit.span.start;
    let end = edit.span.end;
    let blank = if is_empty(&edit.put) { "" } else { " " };
    write!(line, "{between}edit {start}..{end}{blank}")?;
    push_put(line, &edit.put)
}

fn push_note(line: &mut String, note: &Note) -> Result<(), AllocError> {
    let between = between(line);
    let at = note.at;
    let kind = note_name(note.kind);
    write!(line, "{between}note {at} {kind}")?;
    push_detail(line, note.detail.get())
}

fn push_fault(line: &mut String, fault: &Fault) -> Result<(), AllocError> {
    let between = between(line);
    let row = fault.place.line;
    let column = fault.place.column;
    let number = fault.kind.number();
    write!(line, "{between}fault {row}:{column} B{number}")?;
    push_detail(line, fault.detail.get())
}

fn push_items(line: &mut String, scan: &Scan) -> Result<(), AllocError> {
    for item in scan.items.as_slice() {
        push_item(line, item)?;
    }
    Ok(())
}

fn push_spans(line: &mut String, scan: &Scan) -> Result<(), AllocError> {
    for item in scan.items.as_slice() {
        push_span(line, item)?;
    }
    Ok(())
}

fn push_binds(line: &mut String, scan: &Scan) -> Result<(), AllocError> {
    for bind in scan.binds.as_slice() {
        push_bind(line, bind)?;
    }
    Ok(())
}

/// Each export, and then each star.
fn push_exports(line: &mut String, scan: &Scan) -> Result<(), AllocError> {
    for export in scan.exports.as_slice() {
        push_export(line, export)?;
    }
    for star in scan.stars.as_slice() {
        let between = between(line);
        let item = star.item;
        write!(line, "{between}star {item}")?;
    }
    Ok(())
}

fn push_edits(line: &mut String, scan: &Scan) -> Result<(), AllocError> {
    for edit in scan.edits.as_slice() {
        push_edit(line, edit)?;
    }
    Ok(())
}

fn push_notes(line: &mut String, scan: &Scan) -> Result<(), AllocError> {
    for note in scan.notes.as_slice() {
        push_note(line, note)?;
    }
    Ok(())
}

fn push_faults(line: &mut String, scan: &Scan) -> Result<(), AllocError> {
    for fault in scan.faults.as_slice() {
        push_fault(line, fault)?;
    }
    Ok(())
}

fn push_part(line: &mut String, text: &[u8], start: usize, end: usize) -> Result<(), AllocError> {
    let part = text.get(start..end).unwrap_or(b"?");
    line.push_str(str::from_utf8(part).unwrap_or("?"))
}

/// The text with its edits.
fn push_edited(line: &mut String, text: &[u8], scan: &Scan) -> Result<(), AllocError> {
    let mut kept = 0;
    for edit in scan.edits.as_slice() {
        push_part(line, text, kept, edit.span.start as usize)?;
        push_put(line, &edit.put)?;
        kept = edit.span.end as usize;
    }
    push_part(line, text, kept, text.len())
}

/// Each list, one after another.
fn push_every(line: &mut String, scan: &Scan) -> Result<(), AllocError> {
    push_spans(line, scan)?;
    push_binds(line, scan)?;
    push_exports(line, scan)?;
    push_edits(line, scan)?;
    push_notes(line, scan)?;
    push_faults(line, scan)?;
    if scan.es {
        let between = between(line);
        write!(line, "{between}es")?;
    }
    Ok(())
}

pub(crate) fn show(
    line: &mut String,
    asked: &str,
    text: &[u8],
    scan: &Scan,
) -> Result<(), AllocError> {
    match asked {
        "items" => push_items(line, scan),
        "binds" => push_binds(line, scan),
        "exports" => push_exports(line, scan),
        "text" => push_edited(line, text, scan),
        "notes" => push_notes(line, scan),
        "faults" => push_faults(line, scan),
        "es" => line.push_str(if scan.es { "es" } else { "plain" }),
        _ => push_every(line, scan),
    }
}
