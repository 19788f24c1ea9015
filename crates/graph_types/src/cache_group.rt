use crate::Condition;
use fault_place::Spot;
use pack_util::Text;

/// Which chunks a cache group takes modules from.
#[derive(Clone, Copy, PartialEq, Eq)]
pub enum Select {
    /// Those that are loaded on demand.
    Async,
    /// Those that an entry loads first.
    Initial,
    All,
}

/// A rule by which modules move to chunks of their own.
#[derive(Drop)]
pub struct CacheGroup {
    pub key: Text,
    /// The name of its one chunk, where it has one.
    pub name: Option<Text>,
    /// The place of the name's value; of none, the first of the configuration.
    pub name_at: Spot,
    pub test: Condition,
    pub select: Select,
    /// In bytes.
    pub min_size: u64,
    /// How many chunks a module must be in.
    pub min_chunks: u32,
    /// How many chunks may be loaded at once on demand.
    pub max_async: Option<u32>,
    /// How many chunks an entry may load at once.
    pub max_initial: Option<u32>,
    /// The size in bytes from which a chunk is made whatever the limits are.
    pub threshold: Option<u64>,
    /// Of two groups the one of the higher goes first.
    pub priority: i32,
    /// Whether a chunk that has these very modules serves.
    pub reuse: bool,
}
