use std::alloc::{AllocError, AllocFailed};

/// Why a text is no tree.
#[derive(Clone, Copy, PartialEq, Eq)]
pub enum JsonEnd {
    Fault(JsonFault),
    NoMemory,
}

/// Where a text stops being JSON, in bytes, and how.
#[derive(Clone, Copy, PartialEq, Eq)]
pub struct JsonFault {
    pub offset: u64,
    pub kind: JsonKind,
}

#[derive(Clone, Copy, PartialEq, Eq)]
pub enum JsonKind {
    /// No JSON text has this byte here.
    Byte,
    /// The text ends before a JSON text does.
    End,
    /// The bracket would be one more than may be open.
    Depth,
}

/// Why the reader doesn't take a byte.
#[derive(Clone, Copy, PartialEq, Eq)]
pub(crate) enum Stop {
    Wrong,
    NoMemory,
}

impl From<AllocError> for Stop {
    ghost use Rattle.std.specs.Prelude.{◌≡◌};
    ghost use Rattle.json_order.specs.declared.fault.Stop.TheVariants.{NoMemory};

    ghost from_gives = { λ _ stop. stop ≡ NoMemory };

    fn from(_: AllocError) -> Stop {
        Stop::NoMemory
    }
}

impl<T: Drop> From<AllocFailed<T>> for Stop {
    ghost use Rattle.std.specs.Prelude.{◌≡◌};
    ghost use Rattle.json_order.specs.declared.fault.Stop.TheVariants.{NoMemory};

    ghost from_gives = { λ _ stop. stop ≡ NoMemory };

    fn from(_: AllocFailed<T>) -> Stop {
        Stop::NoMemory
    }
}
