use crate::Sign;

/// Which name of a specifier has to be one that a module may declare; the other may be a keyword too.
#[derive(Clone, Copy, PartialEq, Eq)]
pub enum Side {
    Left,
    Right,
    Neither,
}

/// A part of a form.
#[derive(Clone, Copy, PartialEq, Eq)]
pub enum Part {
    /// One token.
    One(Sign),
    /// Specifiers in braces, with their commas.
    Named(Side),
    /// The declarators of `var`, `let` or `const`.
    Variables,
}
