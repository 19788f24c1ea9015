use pack_util::{Span, Text};

/// What is put in the place of a part of a module's text.
#[derive(Clone, PartialEq, Eq, Drop)]
pub enum EditText {
    Fixed(Text),
    /// What loads the module that the item with this number names.
    Load(u32),
}

/// A part of a module's text that the emitted text has otherwise.
#[derive(Clone, PartialEq, Eq, Drop)]
pub struct Edit {
    pub span: Span,
    pub put: EditText,
}
