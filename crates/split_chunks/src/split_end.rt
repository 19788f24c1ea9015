use chunk_graph::ChunkEnd;
use std::alloc::{AllocError, AllocFailed};

/// Why splits end early.
#[derive(Clone, Copy, PartialEq, Eq)]
pub enum SplitEnd {
    /// The splits need more numbers of chunks than there are.
    Limit,
    NoMemory,
}

impl From<AllocError> for SplitEnd {
    ghost use Rattle.std.specs.Prelude.{◌≡◌};
    ghost use Rattle.split_chunks.specs.declared.split_end.SplitEnd.TheVariants.{NoMemory};

    ghost from_gives = { λ _ e. e ≡ NoMemory };

    fn from(_: AllocError) -> SplitEnd {
        SplitEnd::NoMemory
    }
}

impl<T: Drop> From<AllocFailed<T>> for SplitEnd {
    ghost use Rattle.std.specs.Prelude.{◌≡◌};
    ghost use Rattle.split_chunks.specs.declared.split_end.SplitEnd.TheVariants.{NoMemory};

    ghost from_gives = { λ _ e. e ≡ NoMemory };

    fn from(_: AllocFailed<T>) -> SplitEnd {
        SplitEnd::NoMemory
    }
}

impl From<ChunkEnd> for SplitEnd {
    ghost use Rattle.std.specs.Prelude.{◌≡◌};
    ghost use Rattle.split_chunks.specs.Ends.{split_end};

    ghost from_gives = { λ end e. e ≡ split_end end };

    fn from(end: ChunkEnd) -> SplitEnd {
        match end {
            ChunkEnd::Limit => SplitEnd::Limit,
            ChunkEnd::NoMemory => SplitEnd::NoMemory,
        }
    }
}
