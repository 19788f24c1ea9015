//! The entries of a folder, out of a tree's files.
ghost use Rattle.std.specs.Prelude.{◌≡◌, IfOk, IsTrue, OnOk, length, nat_eq, option_copied};
ghost use Rattle.std.specs.List.{before_first, list_any, starts_with};
ghost use Rattle.std.specs.Ordering.{nat_cmp};
ghost use Rattle.std.specs.Cmp.Lexicographic.{slice_cmp};
ghost use Rattle.std.specs.FinMap.Entries.{is_sorted};
ghost use Rattle.path_text.specs.Path.{is_slash};
ghost use Rattle.outside.specs.inner.Cut.{has_prefix};
ghost use Rattle.outside.specs.Reads.{AreEntries};
ghost use Rattle.outside.specs.Tree.{IsTree, is_folder, within};
ghost use Rattle.outside.specs.inner.Walk.{child_in, is_last_name, kind_of_rest, rest_within, with_entry};

use crate::files::files_with_prefix;
use crate::{DirEntry, EntryKind};
use pack_util::{Bytes, NoMemory, Text};
use std::alloc::Global;

pub fn is_folder(files: &[(Text, Bytes)], folder: &str) -> bool
    requires { IsTrue (is_sorted (slice_cmp nat_cmp) files.now) }
    ensures { result ≡ is_folder files.now folder.now }
{
    folder.is_empty() || has_one_within(files_with_prefix(files, folder.as_bytes()), folder)
}

fn has_one_within(files: &[(Text, Bytes)], folder: &str) -> bool
    ensures { result ≡ list_any (has_prefix (within folder.now)) files.now }
{
    files.iter().any(|file| lies_within(file.0.get(), folder))
}

pub fn entries_of(
    alloc: Global,
    files: &[(Text, Bytes)],
    folder: &str,
) -> Result<Vec<DirEntry>, NoMemory>
    requires { IsTree files.now }
    ensures { IfOk result (λ entries. AreEntries files.now folder.now entries.items) }
{
    let mut entries = Vec::new(alloc);
    for file in files_with_prefix(files, folder.as_bytes()) {
        add_child(alloc, &mut entries, folder, file)?;
    }
    Ok(entries)
}

/// Adds the entry that a file is, or lies in, unless that is the folder which was added last.
fn add_child(
    alloc: Global,
    entries: &mut Vec<DirEntry>,
    folder: &str,
    file: &(Text, Bytes),
) -> Result<(), NoMemory>
    ensures { OnOk result (entries.new.items ≡ with_entry entries.old.items (child_in folder.now file.now)) }
{
    let Some(rest) = rest_within(file.0.get(), folder) else {
        return Ok(());
    };
    let (name, kind) = first_entry(rest, file.1.get().len() as u64);
    if matches!(kind, EntryKind::Folder) && is_last_name(entries, name) {
        return Ok(());
    }
    let name = Text::new(alloc, name)?;
    entries.push(DirEntry { name, kind })?;
    Ok(())
}

fn lies_within(path: &str, folder: &str) -> bool
    ensures { result ≡ starts_with nat_eq path.now (within folder.now) }
{
    rest_within(path, folder).is_some()
}

/// What follows a folder and its slash in a path.
fn rest_within<'a>(path: &'a str, folder: &str) -> Option<&'a str>
    ensures { option_copied result ≡ rest_within folder.now path.now }
{
    if folder.is_empty() {
        return Some(path);
    }
    path.strip_prefix(folder)?.strip_prefix('/')
}

/// The first segment, which is a folder's name where more follows, or else the name of a file of `count` bytes.
fn first_entry(rest: &str, count: u64) -> (&str, EntryKind)
    ensures name { result.0.now ≡ before_first is_slash rest.now }
    ensures kind { result.1 ≡ kind_of_rest rest.now count }
{
    match rest.split_once('/') {
        Some((name, _)) => (name, EntryKind::Folder),
        None => (rest, EntryKind::File(count)),
    }
}

/// Whether the last entry has the name. The files of one folder stand together, so its entry is the last or isn't there.
fn is_last_name(entries: &[DirEntry], name: &str) -> bool
    ensures { result ≡ is_last_name name.now entries.now }
{
    let Some(last) = entries.last() else {
        return false;
    };
    last.name.get() == name
}
