ghost use Rattle.std.specs.Prelude.{◌≡◌};
ghost use Rattle.form_shapes.specs.Forms.{longer};

use crate::Shape;

/// A form of a module, by numbers of tokens.
#[derive(Clone, Copy, PartialEq, Eq)]
pub struct Form {
    pub shape: Shape,
    /// Of the token behind its parts.
    pub parts: usize,
    /// Of the token behind the form, and behind its attributes where it has some.
    pub end: usize,
}

/// The form that ends last, and of two that end at once the first.
pub(crate) fn longer(best: Option<Form>, other: Option<Form>) -> Option<Form>
    ensures { result ≡ longer best other }
{
    let Some(known) = best else {
        return other;
    };
    match other {
        Some(found) if known.end < found.end => other,
        _ => best,
    }
}
