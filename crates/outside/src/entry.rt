use pack_util::{Bytes, Text};

/// What a file is read for.
#[derive(Clone, Copy, PartialEq, Eq)]
pub enum Why {
    Config,
    Module,
    Manifest,
}

/// What a read gave: all of the file's bytes, or that there are more than were asked for.
#[derive(PartialEq, Eq, Drop)]
pub enum ReadGot {
    Whole(Bytes),
    TooLong,
}

#[derive(Clone, Copy, PartialEq, Eq)]
pub enum EntryKind {
    /// A file of so many bytes.
    File(u64),
    Folder,
}

/// An entry of a folder.
#[derive(Clone, PartialEq, Eq, Drop)]
pub struct DirEntry {
    pub name: Text,
    pub kind: EntryKind,
}
