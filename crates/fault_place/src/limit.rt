ghost use Rattle.std.specs.Prelude.{◌≡◌};

/// What a build counts, and refuses above a number.
#[derive(Clone, Copy, PartialEq, Eq)]
pub enum Limit {
    /// Files and folders of the tree, the root not counted.
    Files,
    /// Bytes of the longest path of a file or folder.
    PathBytes,
    /// Reached files.
    Modules,
    /// Bytes of the reached files that aren't too long.
    TextBytes,
    /// Items of all modules.
    Items,
    /// Items that load on demand.
    Blocks,
    /// Chunk groups.
    Groups,
    /// Chunk numbers given out.
    Chunks,
    /// Bytes of all assets with the stats.
    OutputBytes,
}

impl Limit {
    ghost use Rattle.std.specs.Prelude.{◌≡◌};
    ghost use Rattle.fault_place.specs.Limit.{name_of, number_of};

    pub fn name(self) -> &'static str
        ensures { result.now ≡ name_of self }
    {
        match self {
            Limit::Files => "Files",
            Limit::PathBytes => "PathBytes",
            Limit::Modules => "Modules",
            Limit::TextBytes => "TextBytes",
            Limit::Items => "Items",
            Limit::Blocks => "Blocks",
            Limit::Groups => "Groups",
            Limit::Chunks => "Chunks",
            Limit::OutputBytes => "OutputBytes",
        }
    }

    /// The largest number allowed.
    pub fn number(self) -> u64
        ensures { result ≡ number_of self }
    {
        match self {
            Limit::Files => 1_048_576,
            Limit::PathBytes => 1_024,
            Limit::Modules => 32_768,
            Limit::TextBytes => 268_435_456,
            Limit::Items => 2_097_152,
            Limit::Blocks => 16_384,
            Limit::Groups => 4_096,
            Limit::Chunks => 8_192,
            Limit::OutputBytes => 1_073_741_824,
        }
    }
}
