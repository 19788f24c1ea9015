ghost use Rattle.std.specs.Prelude.{◌≡◌, [], IfOk, option_copied};
ghost use Rattle.path_text.specs.Path.{IsNormal};
ghost use Rattle.outside.specs.Tree.{IsTree, bytes_at, has_file_within, is_folder};
ghost use Rattle.outside.specs.Reads.{AreEntries};
ghost use Rattle.outside.specs.Additions.{Becomes, clashes, has_file_above, with_file};

use crate::files::{files_with_prefix, find_file, put_file};
use crate::{DirEntry, TreeEnd, folder};
use pack_util::{Bytes, NoMemory, Text};
use path_text::is_normal;
use std::alloc::Global;
use std::marker::Model;

/// A tree in memory, which contracts see as its files in byte order of path.
#[derive(Drop)]
pub struct MemTree {
    files: Vec<(Text, Bytes)>,
}

impl Model for MemTree {
    ghost use Rattle.std.specs.Prelude.{ℕ, List};
    ghost use Rattle.std.specs.Coded.{coded_list, coded_ℕ, coded×};
    ghost use Rattle.outside.specs.Tree.{Tree, IsTree};

    ghost Value = { Tree };

    ghost coded = { coded_list (coded× (coded_list coded_ℕ) (coded_list coded_ℕ)) };

    ghost view = { λ tree. tree.files.items };

    ghost invariant = { λ tree. IsTree tree.files.items };
}

impl MemTree {
    /// The tree of no files. Takes no memory.
    pub fn new(alloc: Global) -> MemTree
        ensures { result ≡ [] }
    {
        MemTree {
            files: Vec::new(alloc),
        }
    }

    /// Adds a file, in the time of a search where it is the last in byte order; else all files after it are moved.
    pub fn with(&mut self, alloc: Global, path: &str, bytes: &[u8]) -> Result<(), TreeEnd>
        ensures { Becomes (with_file self.old path.now bytes.now) self.old self.new result }
    {
        if !is_normal(path) {
            return Err(TreeEnd::NotNormal);
        }
        if has_clash(alloc, &self.files, path)? {
            return Err(TreeEnd::Clash);
        }
        let file = (Text::new(alloc, path)?, Bytes::new(alloc, bytes)?);
        put_file(&mut self.files, file)?;
        Ok(())
    }

    pub(crate) fn find(&self, path: &str) -> Option<&Bytes>
        ensures { option_copied result ≡ bytes_at self.now path.now }
    {
        find_file(&self.files, path.as_bytes())
    }

    pub(crate) fn is_folder(&self, path: &str) -> bool
        ensures { result ≡ is_folder self.now path.now }
    {
        folder::is_folder(&self.files, path)
    }

    pub(crate) fn entries(&self, alloc: Global, path: &str) -> Result<Vec<DirEntry>, NoMemory>
        ensures { IfOk result (λ entries. AreEntries self.now path.now entries.items) }
    {
        folder::entries_of(alloc, &self.files, path)
    }

    /// Does nothing, and tells a proof that the value is a tree.
    pub(crate) fn know_tree(&self)
        ensures { IsTree self.now }
    {
        let _files = &self.files;
    }
}

/// Whether a path is there, is a folder of a file there, or has a file there as a folder.
fn has_clash(alloc: Global, files: &[(Text, Bytes)], path: &str) -> Result<bool, NoMemory>
    requires tree { IsTree files.now }
    requires normal { IsNormal path.now }
    ensures { IfOk result (λ clash. clash ≡ clashes files.now path.now) }
{
    Ok(
        find_file(files, path.as_bytes()).is_some()
            || has_file_within(alloc, files, path)?
            || has_file_above(files, path.as_bytes()),
    )
}

/// Whether a path is a folder of a file.
fn has_file_within(alloc: Global, files: &[(Text, Bytes)], path: &str) -> Result<bool, NoMemory>
    requires tree { IsTree files.now }
    requires normal { IsNormal path.now }
    ensures { IfOk result (λ held. held ≡ has_file_within files.now path.now) }
{
    let within = format!(in alloc; "{path}/")?;
    Ok(!files_with_prefix(files, within.as_bytes()).is_empty())
}

/// Whether a path lies below a file, as if that were a folder.
fn has_file_above(files: &[(Text, Bytes)], path: &[u8]) -> bool
    requires { IsTree files.now }
    ensures { result ≡ has_file_above files.now path.now }
{
    for (end, byte) in path.iter().enumerate() {
        if *byte == b'/' && find_file(files, &path[..end]).is_some() {
            return true;
        }
    }
    false
}
