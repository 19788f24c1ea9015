ghost use Rattle.std.specs.Prelude.{◌≡◌};
ghost use Rattle.tree_listing.specs.declared.list_end.ListEnd.TheVariants.{NoMemory};
ghost use Rattle.tree_listing.specs.Ends.{end_of};

use fault_place::Limit;
use outside::OutsideEnd;
use std::alloc::{AllocError, AllocFailed};

/// Why a tree has no listing.
#[derive(Clone, Copy, PartialEq, Eq)]
pub enum ListEnd {
    /// A folder could not be listed, and the reader's count of faults rose.
    Failed,
    /// The tree has more files and folders, or a longer path, than the limit allows.
    Limit(Limit),
    NoMemory,
}

impl From<AllocError> for ListEnd {
    ghost from_gives = { λ _ end. end ≡ NoMemory };

    fn from(_: AllocError) -> ListEnd {
        ListEnd::NoMemory
    }
}

impl<T: Drop> From<AllocFailed<T>> for ListEnd {
    ghost from_gives = { λ _ end. end ≡ NoMemory };

    fn from(_: AllocFailed<T>) -> ListEnd {
        ListEnd::NoMemory
    }
}

impl From<OutsideEnd> for ListEnd {
    ghost from_gives = { λ end answer. answer ≡ end_of end };

    fn from(end: OutsideEnd) -> ListEnd {
        match end {
            OutsideEnd::Failed => ListEnd::Failed,
            OutsideEnd::NoMemory => ListEnd::NoMemory,
        }
    }
}
