use fault_place::Fault;
use pack_util::Seq;
use std::alloc::{AllocError, AllocFailed};

/// Why a graph has no groups.
#[derive(Drop)]
pub enum GroupsEnd {
    /// Names that are taken, in order; there is at least one.
    Faults(Seq<Fault>),
    /// There are more groups than the limit on groups allows.
    Limit,
    NoMemory,
}

impl From<AllocError> for GroupsEnd {
    ghost use Rattle.std.specs.Prelude.{◌≡◌};
    ghost use Rattle.chunk_groups.specs.declared.groups_end.GroupsEnd.TheVariants.{NoMemory};

    ghost from_gives = { λ _ e. e ≡ NoMemory };

    fn from(_: AllocError) -> GroupsEnd {
        GroupsEnd::NoMemory
    }
}

impl<T: Drop> From<AllocFailed<T>> for GroupsEnd {
    ghost use Rattle.std.specs.Prelude.{◌≡◌};
    ghost use Rattle.chunk_groups.specs.declared.groups_end.GroupsEnd.TheVariants.{NoMemory};

    ghost from_gives = { λ _ e. e ≡ NoMemory };

    fn from(_: AllocFailed<T>) -> GroupsEnd {
        GroupsEnd::NoMemory
    }
}
