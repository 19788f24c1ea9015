use std::alloc::{AllocError, AllocFailed};

/// Why a chunk isn't made.
#[derive(Clone, Copy, PartialEq, Eq)]
pub enum ChunkEnd {
    /// All numbers of chunks are given out.
    Limit,
    NoMemory,
}

impl From<AllocError> for ChunkEnd {
    ghost use Rattle.std.specs.Prelude.{◌≡◌};
    ghost use Rattle.chunk_graph.specs.declared.end.ChunkEnd.TheVariants.{NoMemory};

    ghost from_gives = { λ _ e. e ≡ NoMemory };

    fn from(_: AllocError) -> ChunkEnd {
        ChunkEnd::NoMemory
    }
}

impl<T: Drop> From<AllocFailed<T>> for ChunkEnd {
    ghost use Rattle.std.specs.Prelude.{◌≡◌};
    ghost use Rattle.chunk_graph.specs.declared.end.ChunkEnd.TheVariants.{NoMemory};

    ghost from_gives = { λ _ e. e ≡ NoMemory };

    fn from(_: AllocFailed<T>) -> ChunkEnd {
        ChunkEnd::NoMemory
    }
}
