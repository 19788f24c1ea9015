ghost use Rattle.std.specs.Prelude.{◌≡◌};
ghost use Rattle.pack_config.specs.Faults.{rank};

use std::alloc::{AllocError, AllocFailed};

/// Why a text gives no configuration.
#[derive(Clone, Copy, PartialEq, Eq)]
pub enum ConfigEnd {
    Fault(ConfigFault),
    NoMemory,
}

/// What is wrong in a configuration, and where: the offset is in bytes.
#[derive(Clone, Copy, PartialEq, Eq)]
pub struct ConfigFault {
    pub offset: u64,
    pub kind: ConfigKind,
}

#[derive(Clone, Copy, PartialEq, Eq)]
pub enum ConfigKind {
    /// The text has too many bytes.
    TooLong,
    /// The text isn't JSON.
    Json,
    /// No such key is known: the offset is the key's.
    UnknownKey,
    /// The value is of another type than the key wants, or lacks a member.
    WrongType,
    /// The value or the key is of the type that is wanted, but not allowed.
    OutOfRange,
    /// A cache group before has the name.
    Repeated,
}

impl ConfigKind {
    /// Which of two faults at one place counts: the lower.
    pub(crate) fn rank(self) -> u8
        ensures { result ≡ rank self }
    {
        match self {
            ConfigKind::TooLong => 0,
            ConfigKind::Json => 1,
            ConfigKind::UnknownKey => 2,
            ConfigKind::WrongType => 3,
            ConfigKind::OutOfRange => 4,
            ConfigKind::Repeated => 5,
        }
    }
}

impl From<AllocError> for ConfigEnd {
    ghost use Rattle.pack_config.specs.declared.fault.ConfigEnd.TheVariants.{NoMemory};

    ghost from_gives = { λ _ end. end ≡ NoMemory };

    fn from(_: AllocError) -> ConfigEnd {
        ConfigEnd::NoMemory
    }
}

impl<T: Drop> From<AllocFailed<T>> for ConfigEnd {
    ghost use Rattle.pack_config.specs.declared.fault.ConfigEnd.TheVariants.{NoMemory};

    ghost from_gives = { λ _ end. end ≡ NoMemory };

    fn from(_: AllocFailed<T>) -> ConfigEnd {
        ConfigEnd::NoMemory
    }
}
