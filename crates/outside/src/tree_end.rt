ghost use Rattle.std.specs.Prelude.{◌≡◌};
ghost use Rattle.outside.specs.declared.tree_end.TreeEnd.TheVariants.{NoMemory};

use std::alloc::{AllocError, AllocFailed};

/// Why a file was not added to a tree.
#[derive(Clone, Copy, PartialEq, Eq)]
pub enum TreeEnd {
    /// The path is not normal.
    NotNormal,
    /// The path is there already, is a folder of a file there, or has a file there as a folder.
    Clash,
    NoMemory,
}

impl From<AllocError> for TreeEnd {
    ghost from_gives = { λ _ end. end ≡ NoMemory };

    fn from(_: AllocError) -> TreeEnd {
        TreeEnd::NoMemory
    }
}

impl<T: Drop> From<AllocFailed<T>> for TreeEnd {
    ghost from_gives = { λ _ end. end ≡ NoMemory };

    fn from(_: AllocFailed<T>) -> TreeEnd {
        TreeEnd::NoMemory
    }
}
