ghost use Rattle.std.specs.Prelude.{◌≡◌, ◌<◌, ◌↔◌, length, Contains, IsTrue, IfOk, IfErr, option_map};
ghost use Rattle.std.specs.Cmp.Lexicographic.{slice_cmp};
ghost use Rattle.std.specs.Ordering.{nat_cmp};
ghost use Rattle.tree_listing.specs.inner.Kept.{AreFound};
ghost use Rattle.tree_listing.specs.inner.Split.{Holds, IsSortedOnce};
ghost use Rattle.path_text.specs.Path.{IsNormal};
ghost use Rattle.tree_listing.specs.Listing.{IsListing, path_at, length_at, number_at};

use crate::ListEnd;
use crate::kept::{Kept, split};
use crate::listed_file::ListedFile;
use pack_util::{FileId, NoMemory, Text};
use std::alloc::Global;
use std::cmp::Ordering;
use std::marker::Model;

/// The files of a tree with their lengths, numbered in byte order of path, and its folders, the root among them.
#[derive(Drop)]
pub struct Listing {
    files: Vec<ListedFile>,
    folders: Vec<Text>,
}

impl Model for Listing {
    ghost use Rattle.tree_listing.specs.Listing.{IsListing, Listed};

    ghost Value = { Listed };

    ghost view = { λ listing. record { files = listing.files.items; folders = listing.folders.items } };

    ghost invariant = { λ listing. IsListing (record { files = listing.files.items; folders = listing.folders.items }) };
}

impl Listing {
    pub(crate) fn new(alloc: Global, kept: Vec<Kept>) -> Result<Listing, ListEnd>
        requires { AreFound kept.items }
        ensures ok { IfOk result (λ listing. Holds kept.items listing) }
        ensures err { IfErr result (λ end. end ≡ ListEnd.NoMemory) }
    {
        let (files, folders) = split(alloc, kept)?;
        let files = sorted_once(files)?;
        let folders = sorted_once(folders)?;
        Ok(Listing { files, folders })
    }

    /// The number of files.
    pub fn count(&self) -> u32
        ensures count { result ≡ length self.now.files }
        ensures is { IsListing self.now }
    {
        self.files.len() as u32
    }

    /// The number of the file at a path. Takes no memory.
    pub fn find(&self, path: &str) -> Option<FileId>
        ensures { option_map (λ file. file.0) result ≡ number_at self.now.files path.now }
    {
        let found = self.files.as_slice().binary_search_by(
            |file: &ListedFile| -> Ordering
                ensures { result ≡ slice_cmp nat_cmp file.now.0 path.entry.now }
            { file.path().cmp(path) },
        );
        match found {
            Ok(place) => Some(FileId(place as u32)),
            Err(_) => None,
        }
    }

    pub fn path(&self, f: FileId) -> &str
        requires { f.0 < length self.now.files }
        ensures path { result.now ≡ path_at self.now.files f.0 }
        ensures normal { IsNormal result.now }
    {
        self.files[f.0 as usize].path()
    }

    /// The number of bytes.
    pub fn length(&self, f: FileId) -> u64
        requires { f.0 < length self.now.files }
        ensures { result ≡ length_at self.now.files f.0 }
    {
        self.files[f.0 as usize].length()
    }

    /// Takes no memory.
    pub fn is_folder(&self, path: &str) -> bool
        ensures { IsTrue result ↔ Contains self.now.folders path.now }
    {
        let found = self.folders.as_slice().binary_search_by(
            |folder: &Text| -> Ordering
                ensures { result ≡ slice_cmp nat_cmp folder.now path.entry.now }
            { folder.get().cmp(path) },
        );
        found.is_ok()
    }
}

/// In order, and each once.
#[tactic(auto, using(crate::proofs::Sorting::sort_leaves))]
fn sorted_once<T: Ord + Drop>(mut items: Vec<T>) -> Result<Vec<T>, NoMemory>
    ensures { IfOk result (λ left. IsSortedOnce T.cmp T.eq items.items left.items) }
{
    items.sort()?;
    items.dedup();
    Ok(items)
}
