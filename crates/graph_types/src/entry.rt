use fault_place::Spot;
use pack_util::{Seq, Text};

/// A file that an entry names, and where the configuration names it.
#[derive(Clone, PartialEq, Eq, Drop)]
pub struct EntryFile {
    pub request: Text,
    /// The place of the request's text; of the default, the first of the configuration.
    pub at: Spot,
}

/// An entry of a build.
#[derive(Clone, PartialEq, Eq, Drop)]
pub struct EntrySpec {
    pub name: Text,
    pub files: Seq<EntryFile>,
}
