//! Assets with their names.
ghost use Rattle.std.specs.Prelude.{◌≡◌, ◌+◌, ◌<◌, ◌≤◌, ◌++◌, [], length, OnOk, IfErr, MatchResult};
ghost use Rattle.chunk_code.specs.Texts.{shown_id};
ghost use Rattle.fault_place.specs.Limit.{number_of};
ghost use Rattle.fault_place.specs.declared.limit.Limit.TheVariants.{OutputBytes};
ghost use Rattle.seal_build.specs.Assets.{asset_of};
ghost use Rattle.seal_build.specs.inner.Adding.{IsAdded, IsTooLong};
ghost use Rattle.seal_build.specs.declared.seal_end.SealEnd.TheVariants as ends;

use crate::SealEnd;
use asset_names::name_of;
use fault_place::Limit;
use graph_types::Template;
use module_code::{SealView, chunk_id};
use outside::Asset;
use pack_util::{Bytes, ChunkNo, NoMemory, Text};
use std::alloc::Global;

/// A number of bytes with those of one more text, where they are within the limit.
pub(crate) fn add_bytes(bytes: u64, text: &[u8]) -> Result<u64, SealEnd>
    ensures { MatchResult result (λ sum. (sum ≡ bytes + length text.now) × (sum ≤ number_of OutputBytes))
        (λ end. (end ≡ ends.Limit OutputBytes) × (number_of OutputBytes < bytes + length text.now)) }
{
    let sum = bytes.saturating_add(text.len() as u64);
    if sum > Limit::OutputBytes.number() {
        return Err(SealEnd::Limit(Limit::OutputBytes));
    }
    Ok(sum)
}

/// Assets, and their names with the ids of their chunks.
#[derive(Drop)]
pub(crate) struct NamedAssets {
    pub assets: Vec<Asset>,
    pub names: Vec<(u32, Text)>,
    /// How many bytes these assets and those before them have.
    pub bytes: u64,
}

impl NamedAssets {
    /// None yet, behind assets of so many bytes.
    pub(crate) fn new(alloc: Global, bytes: u64) -> NamedAssets
        ensures assets { result.assets.items ≡ [] }
        ensures names { result.names.items ≡ [] }
        ensures bytes { result.bytes ≡ bytes }
    {
        NamedAssets {
            assets: Vec::new(alloc),
            names: Vec::new(alloc),
            bytes,
        }
    }

    /// Adds the asset of a chunk with its text, named by the template.
    pub(crate) fn add(
        &mut self,
        alloc: Global,
        view: &SealView<'_>,
        template: &Template,
        c: ChunkNo,
        text: Vec<u8>,
    ) -> Result<(), SealEnd>
        requires { c.0 < length view.now.chunks.chunks }
        ensures added { OnOk result (IsAdded self.old self.new (shown_id view.now.chunks c.0) (asset_of template.now view.now c.0 text.items)) }
        ensures err { IfErr result (IsTooLong self.old.bytes (asset_of template.now view.now c.0 text.items)) }
    {
        let bytes = add_bytes(self.bytes, &text)?;
        let id = chunk_id(view.chunks, c).unwrap_or(0);
        let name = name_of(alloc, template, view.chunks.name(c), id, &text)?;
        self.names.push((id, name.clone()?))?;
        self.assets.push(Asset {
            name,
            bytes: Bytes::from_vec(text),
        })?;
        self.bytes = bytes;
        Ok(())
    }

    /// Adds assets that were made behind these.
    pub(crate) fn append(&mut self, other: NamedAssets) -> Result<(), NoMemory>
        ensures assets { OnOk result (self.new.assets.items ≡ self.old.assets.items ++ other.assets.items) }
        ensures names { OnOk result (self.new.names.items ≡ self.old.names.items ++ other.names.items) }
        ensures bytes { OnOk result (self.new.bytes ≡ other.bytes) }
    {
        let NamedAssets {
            mut assets,
            mut names,
            bytes,
        } = other;
        self.assets.append(&mut assets)?;
        self.names.append(&mut names)?;
        self.bytes = bytes;
        Ok(())
    }
}
