ghost use Rattle.std.specs.Prelude.{◌≡◌, [], OnOk, IfOk};
ghost use Rattle.std.specs.String.{string_eq};
ghost use Rattle.indexmap.specs.IndexMap.{insert_entry};
ghost use Rattle.json_order.specs.Members.{put};
ghost use Rattle.json_order.specs.inner.Held.{held, pair_of, place_of};

use crate::seed::Seed;
use crate::word::Key;
use crate::{JsonPair, JsonTree};
use indexmap::IndexMap;
use indexmap::map::Entry;
use pack_util::{Seq, Text};
use std::alloc::{AllocError, Global};
use std::marker::Model;

#[derive(Drop)]
struct Held {
    key_at: u64,
    value: JsonTree,
}

/// The members of an object that is still open, found by their keys.
#[derive(Drop)]
pub(crate) struct Members {
    map: IndexMap<String, Held, Seed>,
}

impl Model for Members {
    ghost use Rattle.std.specs.Prelude.{List};
    ghost use Rattle.std.specs.Coded.{coded_list};
    ghost use Rattle.json_order.specs.declared.tree.JsonPair.{JsonPair};
    ghost use Rattle.json_order.specs.contracts.tree.JsonPair as pair;
    ghost use Rattle.json_order.specs.inner.Held.{pairs_of};

    ghost Value = { List JsonPair };

    ghost coded = { coded_list pair.the_row.coded };

    ghost view = { λ members. pairs_of members.map.entries };
}

impl Members {
    pub(crate) fn new(alloc: Global, seed: Seed) -> Members
        ensures { result ≡ [] }
    {
        Members {
            map: IndexMap::with_hasher(alloc, seed),
        }
    }

    /// A key that is there keeps its place and takes the value.
    pub(crate) fn put(&mut self, key: Key, key_at: u64, value: JsonTree) -> Result<(), AllocError>
        ensures { OnOk result (self.new ≡ put self.old key key_at value) }
    {
        insert(&mut self.map, key.into_string(), key_at, value)?;
        Ok(())
    }

    pub(crate) fn into_pairs(self, alloc: Global) -> Result<Seq<JsonPair>, AllocError>
        ensures { IfOk result (λ pairs. pairs ≡ self) }
    {
        let Members { map } = self;
        let mut pairs = Vec::new(alloc);
        pairs.reserve_exact(map.len())?;
        pairs.extend(map.into_iter().map(|(key, held)| pair_of(key, held)))?;
        Ok(Seq::from_vec(pairs))
    }
}

/// What the map holds at a key changes in its place.
fn insert(
    map: &mut IndexMap<String, Held, Seed>,
    key: String,
    key_at: u64,
    value: JsonTree,
) -> Result<(), AllocError>
    ensures { OnOk result (map.new.entries
        ≡ insert_entry string_eq map.old.entries key (held (place_of map.old.entries key key_at) value)) }
{
    match map.entry(key)? {
        Entry::Occupied(mut entry) => {
            let key_at = entry.get().key_at;
            entry.insert(Held { key_at, value });
        }
        Entry::Vacant(entry) => {
            entry.insert_entry(Held { key_at, value });
        }
    }
    Ok(())
}

fn pair_of(key: String, held: Held) -> JsonPair
    ensures { result ≡ pair_of (key, held) }
{
    let Held { key_at, value } = held;
    JsonPair {
        key: Text::from_string(key),
        key_at,
        value,
    }
}
