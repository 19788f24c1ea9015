use pack_util::{FileId, Span, Text};

/// How a module names another.
#[derive(Clone, Copy, PartialEq, Eq)]
pub enum ItemKind {
    /// An import declaration.
    Import,
    /// An export declaration with `from`.
    ExportFrom,
    /// A call of `require`.
    Require,
    /// A call of `import` whose chunk is loaded on demand.
    Lazy,
    /// A call of `import` whose module is in the caller's chunk.
    Eager,
}

/// One place at which a module names another.
#[derive(Clone, PartialEq, Eq, Drop)]
pub struct Item {
    pub kind: ItemKind,
    /// From the keyword to the last byte of the form.
    pub span: Span,
    /// The offset of the request's quote.
    pub at: u32,
    pub request: Text,
    /// The name that a magic comment gives to the chunk.
    pub chunk_name: Option<Text>,
    /// The file that the request names, where it names one.
    pub target: Option<FileId>,
}
