use pack_util::Text;

/// What is told of a module beside its faults, by the name under which it is printed.
#[derive(Clone, Copy, PartialEq, Eq)]
pub enum NoteKind {
    /// A `require` that names no file: the detail is its request.
    N1,
    /// A `require` without one text.
    N2,
    /// A key of a magic comment that isn't known: the detail is the key.
    N3,
    /// A magic comment that isn't read.
    N4,
}

/// A note at an offset of the module's text.
#[derive(Clone, PartialEq, Eq, Drop)]
pub struct Note {
    pub at: u32,
    pub kind: NoteKind,
    pub detail: Text,
}
