ghost use Rattle.std.specs.Prelude.{◌≡◌};
ghost use Rattle.make_core.specs.declared.run_end.RunEnd.TheVariants.{NoMemory};

use std::alloc::{AllocError, AllocFailed};

/// Why a list of events leaves no state.
#[derive(Clone, Copy, PartialEq, Eq)]
pub enum RunEnd {
    /// The event at this index is the first that isn't allowed.
    NotAllowed { index: u32 },
    NoMemory,
}

impl From<AllocError> for RunEnd {
    ghost from_gives = { λ _ e. e ≡ NoMemory };

    fn from(_error: AllocError) -> RunEnd {
        RunEnd::NoMemory
    }
}

impl<T: Drop> From<AllocFailed<T>> for RunEnd {
    ghost from_gives = { λ _ e. e ≡ NoMemory };

    fn from(_error: AllocFailed<T>) -> RunEnd {
        RunEnd::NoMemory
    }
}
