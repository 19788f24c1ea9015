ghost use Rattle.std.specs.Prelude.{◌≡◌, ◌<◌, ◌++◌, ◌∷◌, [], nat_lt, position, length, IfOk, OnOk, OnErr, slice_index_or};
ghost use Rattle.resolve_path.specs.inner.Fetches.{is_at, nothing};

use crate::kept::KeptManifest;
use pack_util::{NoMemory, Text};
use pkg_manifest::Manifest;
use std::alloc::Global;
use std::marker::Model;

/// How many manifests a cache keeps.
const KEPT: usize = 32;

/// The manifests that were read of one tree, each with its path, so that the first of them aren't read again.
#[derive(Drop)]
pub struct ManifestCache {
    kept: Vec<KeptManifest>,
}

impl Model for ManifestCache {
    ghost use Rattle.std.specs.Prelude.{List};
    ghost use Rattle.std.specs.Coded.{coded_list};
    ghost use Rattle.resolve_path.specs.Caches.{IsCache};
    ghost use Rattle.resolve_path.specs.declared.kept.KeptManifest.{KeptManifest};
    ghost use Rattle.resolve_path.specs.contracts.kept.KeptManifest as kept_manifest;

    ghost Value = { List KeptManifest };

    ghost coded = { coded_list kept_manifest.the_row.coded };

    ghost view = { λ cache. cache.kept.items };

    ghost invariant = { λ cache. IsCache cache.kept.items };
}

impl ManifestCache {
    /// Keeps nothing yet.
    pub fn new(alloc: Global) -> Result<ManifestCache, NoMemory>
        ensures { IfOk result (λ cache. cache ≡ []) }
    {
        Ok(ManifestCache {
            kept: Vec::new(alloc),
        })
    }

    /// The place of a path.
    pub(crate) fn place(&self, path: &str) -> Option<usize>
        ensures { result ≡ position (is_at path.now) self.now }
    {
        self.kept.iter().position(|kept| kept.path.get() == path)
    }

    /// What is kept at a place.
    pub(crate) fn at(&self, place: usize) -> &Option<Manifest>
        requires { place < length self.now }
        ensures { result.now ≡ (slice_index_or self.now place nothing).answer }
    {
        &self.kept[place].answer
    }

    /// Whether one more is kept.
    pub(crate) fn has_room(&self) -> bool
        ensures { result ≡ nat_lt (length self.now) 32 }
    {
        self.kept.len() < KEPT
    }

    /// How many are kept.
    pub(crate) fn len(&self) -> usize
        ensures { result ≡ length self.now }
    {
        self.kept.len()
    }

    /// Keeps what was read at a path.
    pub(crate) fn add(&mut self, path: Text, answer: Option<Manifest>) -> Result<(), NoMemory>
        requires room { length self.old < 32 }
        requires new { position (is_at path) self.old ≡ None }
        ensures ok { OnOk result (self.new ≡ self.old ++ record { path = path; answer = answer } ∷ []) }
        ensures err { OnErr result (self.new ≡ self.old) }
    {
        self.kept.push(KeptManifest { path, answer })?;
        Ok(())
    }
}
