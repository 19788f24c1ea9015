ghost use Rattle.std.specs.Prelude.{◌≡◌, ◌∷◌, [], IfOk};
ghost use Rattle.tree_listing.specs.inner.Kept.{AreFew, KeepsEntries, root};
ghost use Rattle.tree_listing.specs.inner.Split.{IsSplit};

use crate::ListEnd;
use crate::listed_file::ListedFile;
use fault_place::Limit;
use outside::{DirEntry, EntryKind};
use pack_util::{NoMemory, Text};
use path_text::{child, is_segment};
use std::alloc::Global;

/// A file or folder that a walk has found, by its whole path.
#[derive(Drop)]
pub(crate) struct Kept {
    pub(crate) path: Text,
    pub(crate) kind: EntryKind,
}

impl Kept {
    pub(crate) fn root(alloc: Global) -> Result<Kept, NoMemory>
        ensures { IfOk result (λ kept. kept ≡ root) }
    {
        Ok(Kept {
            path: Text::new(alloc, "")?,
            kind: EntryKind::Folder,
        })
    }
}

/// Keeps the entries of a folder. One whose name isn't a segment of a normal path is passed over.
pub(crate) fn keep_all(
    alloc: Global,
    kept: &mut Vec<Kept>,
    folder: &str,
    entries: Vec<DirEntry>,
) -> Result<(), ListEnd>
    requires { AreFew kept.old.items }
    ensures { KeepsEntries folder.now entries.items kept.old.items kept.new.items result }
{
    for entry in entries {
        keep(alloc, kept, folder, entry)?;
    }
    Ok(())
}

fn keep(alloc: Global, kept: &mut Vec<Kept>, folder: &str, entry: DirEntry) -> Result<(), ListEnd>
    requires { AreFew kept.old.items }
    ensures { KeepsEntries folder.now (entry ∷ []) kept.old.items kept.new.items result }
{
    if !is_segment(entry.name.get()) {
        return Ok(());
    }
    let path = child(alloc, folder, entry.name.get())?;
    if path.len() as u64 > Limit::PathBytes.number() {
        return Err(ListEnd::Limit(Limit::PathBytes));
    }
    // The root is kept too, and isn't counted.
    if kept.len() as u64 > Limit::Files.number() {
        return Err(ListEnd::Limit(Limit::Files));
    }
    kept.push(Kept {
        path: Text::from_string(path),
        kind: entry.kind,
    })?;
    Ok(())
}

/// The files and the folders among what was kept.
pub(crate) fn split(
    alloc: Global,
    kept: Vec<Kept>,
) -> Result<(Vec<ListedFile>, Vec<Text>), NoMemory>
    ensures { IfOk result (λ parts. IsSplit kept.items parts.0.items parts.1.items) }
{
    let mut files = Vec::new(alloc);
    let mut folders = Vec::new(alloc);
    for entry in kept {
        match entry.kind {
            EntryKind::File(length) => files.push(ListedFile::new(entry.path, length))?,
            EntryKind::Folder => folders.push(entry.path)?,
        }
    }
    Ok((files, folders))
}
