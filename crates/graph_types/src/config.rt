ghost use Rattle.std.specs.Prelude.{◌≤◌, length, IsTrue};
ghost use Rattle.std.specs.List.{list_all};
ghost use Rattle.graph_types.specs.CacheGroups.{is_counted};

use crate::{CacheGroup, EntrySpec, Template};
use pack_util::{Seq, Text};

/// How to build. Lists stand in the order of the configuration.
#[derive(Drop)]
pub struct Config {
    pub entries: Seq<EntrySpec>,
    /// The names of the entries' chunks.
    pub filename: Template,
    /// The names of all other chunks.
    pub chunk_filename: Template,
    pub public_path: Text,
    /// Each alias with what stands for it.
    pub alias: Seq<(Text, Text)>,
    pub extensions: Seq<Text>,
    pub main_fields: Seq<Text>,
    pub main_files: Seq<Text>,
    /// The conditions of `exports` that hold.
    pub conditions: Seq<Text>,
    /// Whether ids are names in place of numbers.
    pub named_ids: bool,
    pub merge_equal: bool,
    pub drop_empty: bool,
    pub cache_groups: Seq<CacheGroup>,
    pub ghost some_entry: { 1 ≤ length entries },
    pub ghost few_groups: { length cache_groups ≤ 16 },
    /// A group counts at least one chunk.
    pub ghost counted: { IsTrue (list_all is_counted cache_groups) },
}
