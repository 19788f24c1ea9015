ghost use Rattle.std.specs.Prelude.{◌≡◌};
ghost use Rattle.cli_words.specs.declared.words_end.WordsEnd.TheVariants.{NoMemory};

use std::alloc::{AllocError, AllocFailed};

/// Why words ask for nothing.
#[derive(Clone, Copy, PartialEq, Eq)]
pub enum WordsEnd {
    /// No command has these words.
    Usage,
    NoMemory,
}

impl From<AllocError> for WordsEnd {
    ghost from_gives = { λ _ end. end ≡ NoMemory };

    fn from(_: AllocError) -> WordsEnd {
        WordsEnd::NoMemory
    }
}

impl<T: Drop> From<AllocFailed<T>> for WordsEnd {
    ghost from_gives = { λ _ end. end ≡ NoMemory };

    fn from(_: AllocFailed<T>) -> WordsEnd {
        WordsEnd::NoMemory
    }
}
