use crate::faults::counted;
use crate::system::{open_plain, place_below, require_folder};
use outside::{DirEntry, EntryKind, OutsideEnd, ReadGot, TreeReader, Why};
use pack_util::{Bytes, Text};
use path_text::is_segment;
use std::alloc::Global;
use std::io::Read;
use std::rt::Files;
use std::{fs, io};

/// The most entries that one folder may have.
const MOST_ENTRIES: usize = 4_194_304;

/// Reads the files below a folder of the system. What is neither a file nor a folder itself isn't there for it.
#[derive(Drop)]
pub struct DirReader<F> {
    rt: F,
    root: Text,
    faults: u64,
}

impl<F> DirReader<F> {
    pub fn new(rt: F, root: Text) -> DirReader<F> {
        DirReader {
            rt,
            root,
            faults: 0,
        }
    }
}

impl<F: Files + AllocGlobal> DirReader<F> {
    fn entries(&self, alloc: Global, path: &str) -> io::Result<Vec<DirEntry>> {
        let place = place_below(&self.rt, alloc, self.root.get(), path)?;
        require_folder(&self.rt, place.as_str())?;
        let mut entries = Vec::new(alloc);
        // `read_dir` wants a runtime that it can copy, as a reference to one is.
        for entry in fs::read_dir(&&self.rt, place.as_str())? {
            let entry = entry?;
            let Some(kind) = kind_of(&entry)? else {
                continue;
            };
            if entries.len() >= MOST_ENTRIES {
                return Err(io::ErrorKind::Other.into());
            }
            let name = Text::new(alloc, entry.file_name())?;
            entries.push(DirEntry { name, kind })?;
        }
        Ok(entries)
    }

    /// The first bytes of a file, at most so many.
    fn front(&self, alloc: Global, path: &str, most: u64) -> io::Result<Vec<u8>> {
        let place = place_below(&self.rt, alloc, self.root.get(), path)?;
        let mut bytes = Vec::new(alloc);
        open_plain(&self.rt, place.as_str())?
            .take(most)
            .read_to_end(&mut bytes)?;
        Ok(bytes)
    }
}

/// What an entry is, where it is a file or a folder itself and a path may have its name.
fn kind_of<F: Files>(entry: &fs::DirEntry<F>) -> io::Result<Option<EntryKind>> {
    if !is_segment(entry.file_name()) {
        return Ok(None);
    }
    let metadata = match entry.metadata() {
        // It has gone since it was listed, as an unfinished file of another build may.
        Err(error) if error.kind() == io::ErrorKind::NotFound => return Ok(None),
        found => found?,
    };
    Ok(if metadata.is_dir() {
        Some(EntryKind::Folder)
    } else if metadata.is_file() {
        Some(EntryKind::File(metadata.len()))
    } else {
        None
    })
}

impl<F: Files + AllocGlobal + Drop> TreeReader for DirReader<F> {
    ghost use Rattle.std.specs.Prelude.{◌≤◌, [], None, refl};
    ghost use Rattle.std.proofs.Common.{arith};

    ghost view = { λ reader. record { tree = None; log = []; listed = []; faults = reader.faults; strays = 0 } };

    ghost follows = { λ before now. before.faults ≤ now.faults };

    ghost follows_itself = { λ a. Prim.omega arith };

    ghost follows_on = { λ a b c one two. Prim.omega arith };

    ghost keeps = { λ a b follows. record { tree = refl; faults = follows; strays = Prim.omega arith } };

    ghost tells_a_tree = { λ a t told. Prim.cc };

    fn list_dir(&mut self, alloc: Global, path: &str) -> Result<Vec<DirEntry>, OutsideEnd> {
        let listed = self.entries(alloc, path);
        match listed {
            Ok(entries) => Ok(entries),
            Err(error) => Err(counted(&mut self.faults, error)),
        }
    }

    fn read(
        &mut self,
        alloc: Global,
        path: &str,
        _why: Why,
        most: u64,
    ) -> Result<ReadGot, OutsideEnd> {
        let read = self.front(alloc, path, most.saturating_add(1));
        match read {
            Ok(bytes) if bytes.len() as u64 <= most => Ok(ReadGot::Whole(Bytes::from_vec(bytes))),
            Ok(_) => Ok(ReadGot::TooLong),
            Err(error) => Err(counted(&mut self.faults, error)),
        }
    }

    fn faults(&self) -> u64 {
        self.faults
    }
}
