ghost use Rattle.std.specs.Prelude.{◌≡◌, Some};
ghost use Rattle.path_text.specs.Message.{message_of};
ghost use Rattle.path_text.specs.declared.path_end.PathEnd.TheVariants.{NoMemory};

use std::alloc::{AllocError, AllocFailed};
use std::error::Error;
use std::fmt;

/// Why a text names no path.
#[derive(Clone, Copy, Debug, PartialEq, Eq)]
pub enum PathEnd {
    /// A `..` finds no segment to take.
    Above,
    /// The text begins with `/`.
    Absolute,
    /// A character is below U+0020 or is U+007F.
    BadChar,
    NoMemory,
}

impl fmt::Display for PathEnd {
    ghost output = { λ end. Some (message_of end) };

    fn fmt<W: fmt::Write>(&self, f: &mut fmt::Formatter<W>) -> fmt::Result {
        f.write_str(match self {
            PathEnd::Above => "the path leaves the root",
            PathEnd::Absolute => "the path is absolute",
            PathEnd::BadChar => "the path has a control character",
            PathEnd::NoMemory => "out of memory",
        })
    }
}

impl Error for PathEnd {}

impl From<AllocError> for PathEnd {
    ghost from_gives = { λ _ e. e ≡ NoMemory };

    fn from(_error: AllocError) -> PathEnd {
        PathEnd::NoMemory
    }
}

impl<T: Drop> From<AllocFailed<T>> for PathEnd {
    ghost from_gives = { λ _ e. e ≡ NoMemory };

    fn from(_error: AllocFailed<T>) -> PathEnd {
        PathEnd::NoMemory
    }
}
