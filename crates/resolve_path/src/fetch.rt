//! Manifests, read once while the cache has room.
ghost use Rattle.std.specs.Prelude.{◌≡◌, ℕ, List, IfOk};
ghost use Rattle.std.specs.Option.{option_copied};
ghost use Rattle.outside.specs.Cause.{HasCause};
ghost use Rattle.outside.specs.Reads.{read_of};
ghost use Rattle.outside.specs.Tree.{Told};
ghost use Rattle.pkg_manifest.specs.Manifest.{IsManifestOf, size_limit};
ghost use Rattle.resolve_path.specs.inner.Fetches.{FetchesFrom, IsHeld, ReadsManifest, held_of};

use crate::ManifestCache;
use crate::as_file::put;
use outside::{OutsideEnd, ReadGot, TreeReader, Why};
use pack_util::{NoMemory, Text};
use pkg_manifest::{Manifest, ManifestEnd, manifest};
use std::alloc::{AllocError, Global};
use tree_listing::Listing;

/// How many bytes a manifest may have.
const SIZE_LIMIT: u64 = 1_048_576;

/// What a folder has as its manifest: no file, or one that is a manifest or is none.
#[derive(Drop)]
pub(crate) enum Fetched {
    Missing,
    /// At this place of the cache.
    Kept(usize),
    /// Read now, where the cache had no room.
    Fresh(Option<Manifest>),
}

impl Fetched {
    pub(crate) fn get<'a>(&'a self, cache: &'a ManifestCache) -> Option<&'a Option<Manifest>>
        requires { IsHeld cache.now self.now }
        ensures { option_copied result ≡ held_of cache.now self.now }
    {
        match self {
            Fetched::Missing => None,
            Fetched::Kept(place) => Some(cache.at(*place)),
            Fetched::Fresh(answer) => Some(answer),
        }
    }
}

/// Which manifest a file is, by what a read gave.
fn manifest_in(alloc: Global, got: ReadGot) -> Result<Option<Manifest>, NoMemory>
    ensures { (bytes : List ℕ) → got ≡ read_of size_limit bytes → IfOk result (IsManifestOf bytes) }
{
    let ReadGot::Whole(bytes) = got else {
        return Ok(None);
    };
    match manifest(alloc, bytes.get()) {
        Ok(manifest) => Ok(Some(manifest)),
        Err(ManifestEnd::BadManifest) => Ok(None),
        Err(ManifestEnd::NoMemory) => Err(AllocError),
    }
}

fn read<R: TreeReader>(
    alloc: Global,
    reader: &mut R,
    path: &str,
) -> Result<Option<Manifest>, OutsideEnd>
    ensures follows { R.follows reader.old reader.new }
    ensures cause { HasCause (R.view reader.old).faults (R.view reader.new).faults result }
    ensures told { Told (R.view reader.old).tree (λ tree. ReadsManifest tree path.now (R.view reader.old) (R.view reader.new) result) }
{
    let got = reader.read(alloc, path, Why::Manifest, SIZE_LIMIT)?;
    Ok(manifest_in(alloc, got)?)
}

/// What a folder has as its manifest.
pub(crate) fn fetch<R: TreeReader>(
    alloc: Global,
    reader: &mut R,
    listing: &Listing,
    cache: &mut ManifestCache,
    buffer: &mut String,
    folder: &str,
) -> Result<Fetched, OutsideEnd>
    ensures follows { R.follows reader.old reader.new }
    ensures cause { HasCause (R.view reader.old).faults (R.view reader.new).faults result }
    ensures held { IfOk result (IsHeld cache.new) }
    ensures told { Told (R.view reader.old).tree (λ tree. FetchesFrom tree listing.now folder.now cache.old cache.new (R.view reader.old) (R.view reader.new) result) }
{
    put(buffer, folder, "package.json", "")?;
    if listing.find(buffer.as_str()).is_none() {
        return Ok(Fetched::Missing);
    }
    if let Some(place) = cache.place(buffer.as_str()) {
        return Ok(Fetched::Kept(place));
    }
    let path = Text::new(alloc, buffer.as_str())?;
    let answer = read(alloc, reader, path.get())?;
    if !cache.has_room() {
        return Ok(Fetched::Fresh(answer));
    }
    let place = cache.len();
    cache.add(path, answer)?;
    Ok(Fetched::Kept(place))
}
