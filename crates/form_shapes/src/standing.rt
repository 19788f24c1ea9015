use crate::Form;

/// What stands at a token.
#[derive(Clone, Copy, PartialEq, Eq)]
pub enum Standing {
    Nothing,
    /// An import or an export declaration.
    Declaration(Form),
    /// A call of `import` with one text.
    ImportCall(Form),
    /// A call of `require` with one text.
    RequireCall(Form),
    /// An `import` or an `export` that begins no form.
    BadForm,
    /// A call of `import` without one text, or a method of that name.
    OddImport,
    /// A call of `require` without one text.
    OddRequire,
}
