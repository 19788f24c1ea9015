ghost use Rattle.std.specs.Prelude.{◌≡◌, option_map};
ghost use Rattle.graph_types.specs.Modules.{file_id};
ghost use Rattle.resolve_path.specs.Places.{file_or};

use pack_util::{FileId, Text};

/// What a request names.
#[derive(PartialEq, Eq, Drop)]
pub enum Resolution {
    File(FileId),
    /// No file.
    Unresolved,
    /// Nothing, since the package's `exports` doesn't have it.
    NotExported,
    /// Nothing, since the manifest at this path is none.
    BadManifest(Text),
    /// Nothing, since the manifest at this path has an `exports` that can't be followed.
    BadTarget(Text),
}

impl Resolution {
    /// The file where there is one.
    pub(crate) fn file_or_unresolved(found: Option<FileId>) -> Resolution
        ensures { result ≡ file_or Resolution.Unresolved (option_map (λ file. file.0) found) }
    {
        match found {
            Some(file) => Resolution::File(file),
            None => Resolution::Unresolved,
        }
    }
}
