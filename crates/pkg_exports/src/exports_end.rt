ghost use Rattle.std.specs.Prelude.{◌≡◌};
ghost use Rattle.pkg_exports.specs.declared.exports_end.ExportsEnd.TheVariants.{NoMemory};

use std::alloc::{AllocError, AllocFailed};

/// Why `exports` gives a subpath no answer.
#[derive(Clone, Copy, PartialEq, Eq)]
pub enum ExportsEnd {
    /// Some key of `exports` begins with `.` and some doesn't.
    Mixed,
    /// A key of an object of conditions is an array index.
    BadKey,
    /// A target is a number, a truth value, or a text that isn't allowed as one: `./` doesn't begin it, it has `%` or `\`, or a
    /// segment of it is `.`, `..` or `node_modules`.
    BadTarget,
    NoMemory,
}

impl From<AllocError> for ExportsEnd {
    ghost from_gives = { λ _ end. end ≡ NoMemory };

    fn from(_: AllocError) -> ExportsEnd {
        ExportsEnd::NoMemory
    }
}

impl<T: Drop> From<AllocFailed<T>> for ExportsEnd {
    ghost from_gives = { λ _ end. end ≡ NoMemory };

    fn from(_: AllocFailed<T>) -> ExportsEnd {
        ExportsEnd::NoMemory
    }
}
