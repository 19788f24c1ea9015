/// A file's place among the paths of the tree in byte order.
#[derive(Clone, Copy, PartialEq, Eq, PartialOrd, Ord)]
pub struct FileId(pub u32);

/// A module's place among the reached files in byte order of path.
#[derive(Clone, Copy, PartialEq, Eq, PartialOrd, Ord)]
pub struct ModuleNo(pub u32);

/// A chunk group's place: entries first, then named ones, then the rest.
#[derive(Clone, Copy, PartialEq, Eq, PartialOrd, Ord)]
pub struct GroupNo(pub u32);

/// A chunk's place in the order in which the numbers of chunks were given out.
#[derive(Clone, Copy, PartialEq, Eq, PartialOrd, Ord)]
pub struct ChunkNo(pub u32);

/// A range of a text, in bytes.
#[derive(Clone, Copy, PartialEq, Eq)]
pub struct Span {
    pub start: u32,
    pub end: u32,
}

/// The most bytes that the text of a module or of the configuration may have.
pub const MAX_TEXT: u64 = 4_194_304;
