use crate::SplitBreak;
use std::alloc::{AllocError, AllocFailed};

/// Why a list of splits isn't accepted.
#[derive(Clone, Copy, PartialEq, Eq)]
pub enum CheckEnd {
    Break(SplitBreak),
    NoMemory,
}

impl From<AllocError> for CheckEnd {
    ghost use Rattle.std.specs.Prelude.{◌≡◌};
    ghost use Rattle.split_chunks.specs.declared.check_end.CheckEnd.TheVariants.{NoMemory};

    ghost from_gives = { λ _ e. e ≡ NoMemory };

    fn from(_: AllocError) -> CheckEnd {
        CheckEnd::NoMemory
    }
}

impl<T: Drop> From<AllocFailed<T>> for CheckEnd {
    ghost use Rattle.std.specs.Prelude.{◌≡◌};
    ghost use Rattle.split_chunks.specs.declared.check_end.CheckEnd.TheVariants.{NoMemory};

    ghost from_gives = { λ _ e. e ≡ NoMemory };

    fn from(_: AllocFailed<T>) -> CheckEnd {
        CheckEnd::NoMemory
    }
}
