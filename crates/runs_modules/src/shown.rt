//! Modules and what requests name, as texts.

use fault_place::fault_line;
use graph_types::{Item, ItemKind, ModKind, ModRecord, NoteKind};
use outside::Why;
use pack_util::FileId;
use resolve_path::Resolution;
use std::alloc::{AllocError, Global};
use std::str;
use tree_listing::Listing;

fn kind_name(kind: ModKind) -> &'static str {
    match kind {
        ModKind::Es => "Es",
        ModKind::Plain => "Plain",
        ModKind::Json => "Json",
        ModKind::Bad => "Bad",
    }
}

fn item_name(kind: ItemKind) -> &'static str {
    match kind {
        ItemKind::Import => "import",
        ItemKind::ExportFrom => "export from",
        ItemKind::Require => "require",
        ItemKind::Lazy => "lazy",
        ItemKind::Eager => "eager",
    }
}

fn note_name(kind: NoteKind) -> &'static str {
    match kind {
        NoteKind::N1 => "N1",
        NoteKind::N2 => "N2",
        NoteKind::N3 => "N3",
        NoteKind::N4 => "N4",
    }
}

pub(crate) fn why_name(why: Why) -> &'static str {
    match why {
        Why::Config => "config",
        Why::Module => "module",
        Why::Manifest => "manifest",
    }
}

fn path_of<'a>(listing: &'a Listing, file: FileId) -> &'a str {
    if file.0 < listing.count() {
        listing.path(file)
    } else {
        "no such file"
    }
}

fn add_item(output: &mut String, listing: &Listing, item: &Item) -> Result<(), AllocError> {
    let kind = item_name(item.kind);
    let file = match item.target {
        Some(file) => path_of(listing, file),
        None => "nothing",
    };
    write!(output, "  {kind} {}: {file}\n", item.request.get())
}

/// A module with its items, notes and faults.
pub(crate) fn module(
    alloc: Global,
    listing: &Listing,
    rec: &ModRecord,
) -> Result<String, AllocError> {
    let mut output = String::new(alloc);
    let kind = kind_name(rec.kind);
    write!(output, "{} {kind} {}\n", rec.path.get(), rec.size)?;
    for item in rec.items.as_slice() {
        add_item(&mut output, listing, item)?;
    }
    for note in rec.notes.as_slice() {
        let kind = note_name(note.kind);
        write!(output, "  {kind} {} {}\n", note.at, note.detail.get())?;
    }
    for fault in rec.faults.as_slice() {
        let told = fault_line(alloc, fault)?;
        let line = str::from_utf8(&told).unwrap_or("no text");
        write!(output, "  {line}\n")?;
    }
    Ok(output)
}

/// What a request names.
pub(crate) fn resolution(
    alloc: Global,
    listing: &Listing,
    answer: &Resolution,
) -> Result<String, AllocError> {
    let (kind, path) = match answer {
        Resolution::File(file) => ("", path_of(listing, *file)),
        Resolution::Unresolved => ("Unresolved", ""),
        Resolution::NotExported => ("NotExported", ""),
        Resolution::BadManifest(path) => ("BadManifest ", path.get()),
        Resolution::BadTarget(path) => ("BadTarget ", path.get()),
    };
    format!(in alloc; "{kind}{path}\n")
}
