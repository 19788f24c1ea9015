use outside::Asset;
use pack_util::{Bytes, Seq};

/// What a build makes.
#[derive(Drop)]
pub struct Sealed {
    /// A file for each chunk: first for those that are no entry's, then for those of entries.
    pub assets: Seq<Asset>,
    /// The text of the stats.
    pub stats: Bytes,
    /// How many groups there are.
    pub groups: u32,
    /// How many chunks there are, those that are gone left out.
    pub chunks: u32,
    /// How many splits there were.
    pub splits: u32,
}
