use chunk_groups::GroupsEnd;
use fault_place::{Fault, Limit};
use pack_util::Seq;
use split_chunks::SplitEnd;
use std::alloc::{AllocError, AllocFailed};

/// Why a graph isn't sealed.
#[derive(Drop)]
pub enum SealEnd {
    /// Names that are taken or that clash, in order; there is at least one.
    Faults(Seq<Fault>),
    /// More groups, chunks or bytes than the limit allows.
    Limit(Limit),
    NoMemory,
}

impl From<AllocError> for SealEnd {
    ghost use Rattle.std.specs.Prelude.{◌≡◌};
    ghost use Rattle.seal_build.specs.declared.seal_end.SealEnd.TheVariants.{NoMemory};

    ghost from_gives = { λ _ e. e ≡ NoMemory };

    fn from(_: AllocError) -> SealEnd {
        SealEnd::NoMemory
    }
}

impl<T: Drop> From<AllocFailed<T>> for SealEnd {
    ghost use Rattle.std.specs.Prelude.{◌≡◌};
    ghost use Rattle.seal_build.specs.declared.seal_end.SealEnd.TheVariants.{NoMemory};

    ghost from_gives = { λ _ e. e ≡ NoMemory };

    fn from(_: AllocFailed<T>) -> SealEnd {
        SealEnd::NoMemory
    }
}

impl From<GroupsEnd> for SealEnd {
    ghost use Rattle.std.specs.Prelude.{◌≡◌};
    ghost use Rattle.seal_build.specs.Ends.{end_of_groups};

    ghost from_gives = { λ end e. e ≡ end_of_groups end };

    fn from(end: GroupsEnd) -> SealEnd {
        match end {
            GroupsEnd::Faults(faults) => SealEnd::Faults(faults),
            GroupsEnd::Limit => SealEnd::Limit(Limit::Groups),
            GroupsEnd::NoMemory => SealEnd::NoMemory,
        }
    }
}

impl From<SplitEnd> for SealEnd {
    ghost use Rattle.std.specs.Prelude.{◌≡◌};
    ghost use Rattle.seal_build.specs.Ends.{end_of_splits};

    ghost from_gives = { λ end e. e ≡ end_of_splits end };

    fn from(end: SplitEnd) -> SealEnd {
        match end {
            SplitEnd::Limit => SealEnd::Limit(Limit::Chunks),
            SplitEnd::NoMemory => SealEnd::NoMemory,
        }
    }
}
