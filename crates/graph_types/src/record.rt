use crate::{Bind, Edit, Export, Item, Note, Star};
use fault_place::Fault;
use pack_util::{Bytes, FileId, Seq, Text};

/// How a module's text is read.
#[derive(Clone, Copy, PartialEq, Eq)]
pub enum ModKind {
    /// An ES module: it has an import or an export declaration.
    Es,
    /// A module without one, CommonJS among them.
    Plain,
    Json,
    /// A text that isn't read.
    Bad,
}

/// All that the build knows of one file's text. A record is made once and never changed.
#[derive(Clone, PartialEq, Eq, Drop)]
pub struct ModRecord {
    pub file: FileId,
    pub path: Text,
    /// The file's length in bytes, also where its text isn't kept.
    pub size: u64,
    pub kind: ModKind,
    /// The file's bytes, or none where there are too many.
    pub text: Bytes,
    /// By their places in the text, as all the lists below.
    pub items: Seq<Item>,
    pub binds: Seq<Bind>,
    pub exports: Seq<Export>,
    pub stars: Seq<Star>,
    /// Disjoint.
    pub edits: Seq<Edit>,
    pub notes: Seq<Note>,
    pub faults: Seq<Fault>,
}
