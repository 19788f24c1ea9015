ghost use Rattle.std.specs.Prelude.{◌≡◌};
ghost use Rattle.make_rounds.specs.Cause.{read_end};
ghost use Rattle.make_rounds.specs.declared.make_end.MakeEnd.TheVariants as ends;
ghost use Rattle.make_rounds.specs.declared.make_end.MakeEnd.TheVariants.{NoMemory};

use fault_place::Limit;
use outside::OutsideEnd;
use std::alloc::{AllocError, AllocFailed};

/// Why no graph was made.
#[derive(Clone, Copy, PartialEq, Eq)]
pub enum MakeEnd {
    /// A read failed, and the reader's count of faults rose.
    ReadFault,
    /// The reached files exceed it.
    Limit(Limit),
    NoMemory,
}

impl From<OutsideEnd> for MakeEnd {
    ghost from_gives = { λ end answer. answer ≡ read_end end };

    fn from(end: OutsideEnd) -> MakeEnd {
        match end {
            OutsideEnd::Failed => MakeEnd::ReadFault,
            OutsideEnd::NoMemory => MakeEnd::NoMemory,
        }
    }
}

impl From<AllocError> for MakeEnd {
    ghost from_gives = { λ _ end. end ≡ NoMemory };

    fn from(_: AllocError) -> MakeEnd {
        MakeEnd::NoMemory
    }
}

impl<T: Drop> From<AllocFailed<T>> for MakeEnd {
    ghost from_gives = { λ _ end. end ≡ NoMemory };

    fn from(_: AllocFailed<T>) -> MakeEnd {
        MakeEnd::NoMemory
    }
}

impl From<Limit> for MakeEnd {
    ghost from_gives = { λ limit end. end ≡ ends.Limit limit };

    fn from(limit: Limit) -> MakeEnd {
        MakeEnd::Limit(limit)
    }
}
