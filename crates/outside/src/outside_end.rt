ghost use Rattle.std.specs.Prelude.{◌≡◌};
ghost use Rattle.outside.specs.declared.outside_end.OutsideEnd.TheVariants.{NoMemory};

use std::alloc::{AllocError, AllocFailed};

/// Why a call on something outside gave nothing.
#[derive(Clone, Copy, PartialEq, Eq)]
pub enum OutsideEnd {
    /// The thing itself failed, and its count of faults rose.
    Failed,
    NoMemory,
}

impl From<AllocError> for OutsideEnd {
    ghost from_gives = { λ _ end. end ≡ NoMemory };

    fn from(_: AllocError) -> OutsideEnd {
        OutsideEnd::NoMemory
    }
}

impl<T: Drop> From<AllocFailed<T>> for OutsideEnd {
    ghost from_gives = { λ _ end. end ≡ NoMemory };

    fn from(_: AllocFailed<T>) -> OutsideEnd {
        OutsideEnd::NoMemory
    }
}
