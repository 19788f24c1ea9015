ghost use Rattle.std.specs.Prelude.{◌≡◌, Some};
ghost use Rattle.asset_names.specs.Message.{template_message};
ghost use Rattle.asset_names.specs.declared.template_end.TemplateEnd.TheVariants.{NoMemory};

use std::alloc::{AllocError, AllocFailed};
use std::error::Error;
use std::fmt;

/// Why a text gives no template.
#[derive(Clone, Copy, Debug, PartialEq, Eq)]
pub enum TemplateEnd {
    /// The text is no template.
    BadTemplate,
    NoMemory,
}

impl fmt::Display for TemplateEnd {
    ghost output = { λ end. Some (template_message end) };

    fn fmt<W: fmt::Write>(&self, f: &mut fmt::Formatter<W>) -> fmt::Result {
        f.write_str(match self {
            TemplateEnd::BadTemplate => "the text is not a template",
            TemplateEnd::NoMemory => "out of memory",
        })
    }
}

impl Error for TemplateEnd {}

impl From<AllocError> for TemplateEnd {
    ghost from_gives = { λ _ end. end ≡ NoMemory };

    fn from(_error: AllocError) -> TemplateEnd {
        TemplateEnd::NoMemory
    }
}

impl<T: Drop> From<AllocFailed<T>> for TemplateEnd {
    ghost from_gives = { λ _ end. end ≡ NoMemory };

    fn from(_error: AllocFailed<T>) -> TemplateEnd {
        TemplateEnd::NoMemory
    }
}
