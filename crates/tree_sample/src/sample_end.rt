ghost use Rattle.std.specs.Prelude.{◌≡◌};
ghost use Rattle.tree_sample.specs.declared.sample_end.SampleEnd.TheVariants.{NoMemory};

use std::alloc::{AllocError, AllocFailed};

/// Why there is no sample.
#[derive(Clone, Copy, PartialEq, Eq)]
pub enum SampleEnd {
    /// A sample has 1 to 20,000 modules.
    OutOfRange,
    NoMemory,
}

impl From<AllocError> for SampleEnd {
    ghost from_gives = { λ _ end. end ≡ NoMemory };

    fn from(_: AllocError) -> SampleEnd {
        SampleEnd::NoMemory
    }
}

impl<T: Drop> From<AllocFailed<T>> for SampleEnd {
    ghost from_gives = { λ _ end. end ≡ NoMemory };

    fn from(_: AllocFailed<T>) -> SampleEnd {
        SampleEnd::NoMemory
    }
}
