ghost use Rattle.std.specs.Prelude.{◌≡◌};
ghost use Rattle.pkg_manifest.specs.declared.manifest_end.ManifestEnd.TheVariants.{NoMemory};

use std::alloc::{AllocError, AllocFailed};

/// Why a text is no manifest.
#[derive(Clone, Copy, PartialEq, Eq)]
pub enum ManifestEnd {
    /// The text is too long, isn't JSON or isn't an object.
    BadManifest,
    NoMemory,
}

impl From<AllocError> for ManifestEnd {
    ghost from_gives = { λ _ end. end ≡ NoMemory };

    fn from(_: AllocError) -> ManifestEnd {
        ManifestEnd::NoMemory
    }
}

impl<T: Drop> From<AllocFailed<T>> for ManifestEnd {
    ghost from_gives = { λ _ end. end ≡ NoMemory };

    fn from(_: AllocFailed<T>) -> ManifestEnd {
        ManifestEnd::NoMemory
    }
}
