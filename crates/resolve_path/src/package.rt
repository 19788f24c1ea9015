//! Packages.
ghost use Rattle.std.specs.Prelude.{◌≡◌, length, IfOk, IfSome};
ghost use Rattle.std.specs.Option.{option_copied};
ghost use Rattle.outside.specs.Cause.{HasCause};
ghost use Rattle.outside.specs.Tree.{Told};
ghost use Rattle.path_text.specs.Path.{IsFolderPath};
ghost use Rattle.resolve_path.specs.Manifests.{Manifests};
ghost use Rattle.resolve_path.specs.Packages.{package_places};
ghost use Rattle.resolve_path.specs.Places.{HasFileWithin};
ghost use Rattle.resolve_path.specs.inner.Fetches.{FindsIn};
ghost use Rattle.resolve_path.specs.inner.Parts.{Decides, exports_held};

use crate::as_folder::{in_folder, manifest_path};
use crate::fetch::fetch;
use crate::path::named_from;
use crate::target::exported;
use crate::{ManifestCache, RequestKind, Resolution};
use graph_types::Config;
use json_order::JsonTree;
use outside::{OutsideEnd, TreeReader};
use pack_util::NoMemory;
use pkg_manifest::Manifest;
use std::alloc::Global;
use tree_listing::Listing;

/// The `exports` of a manifest, where there is a manifest and it has them.
fn exports_of<'a>(manifest: Option<&'a Option<Manifest>>) -> Option<&'a JsonTree>
    ensures { option_copied result ≡ exports_held (option_copied manifest.entry) }
{
    match manifest {
        Some(Some(manifest)) => manifest.exports.as_ref(),
        _ => None,
    }
}

/// What is asked for in a package, where its manifest decides alone, or nothing follows the package's name.
fn by_manifest(
    alloc: Global,
    listing: &Listing,
    config: &Config,
    kind: RequestKind,
    buffer: &mut String,
    folder: &str,
    rest: &str,
    manifest: Option<&Option<Manifest>>,
) -> Result<Option<Resolution>, NoMemory>
    requires { IsFolderPath folder.now }
    ensures within { IfOk result (λ decided. IfSome decided (HasFileWithin (length listing.now.files))) }
    ensures is { (manifests : Manifests) → manifests folder.now ≡ option_copied manifest.entry
        → IfOk result (Decides listing.now.files manifests config.now kind folder.now rest.now) }
{
    if let Some(exports) = exports_of(manifest) {
        let answer = exported(alloc, listing, config, kind, folder, exports, rest)?;
        return Ok(Some(answer));
    }
    if let Some(None) = manifest {
        return Ok(Some(Resolution::BadManifest(manifest_path(alloc, folder)?)));
    }
    if !rest.is_empty() {
        return Ok(None);
    }
    let answer = in_folder(alloc, listing, config, buffer, folder, manifest)?;
    Ok(Some(answer))
}

/// What is asked for in the folder of a package.
pub(crate) fn in_package<R: TreeReader>(
    alloc: Global,
    reader: &mut R,
    listing: &Listing,
    config: &Config,
    cache: &mut ManifestCache,
    buffer: &mut String,
    kind: RequestKind,
    folder: &str,
    rest: &str,
) -> Result<Resolution, OutsideEnd>
    requires { IsFolderPath folder.now }
    ensures follows { R.follows reader.old reader.new }
    ensures cause { HasCause (R.view reader.old).faults (R.view reader.new).faults result }
    ensures within { IfOk result (HasFileWithin (length listing.now.files)) }
    ensures told { Told (R.view reader.old).tree (λ tree. FindsIn tree listing.now cache.old cache.new (R.view reader.old) (R.view reader.new) result
        (λ manifests. package_places manifests config.now kind folder.now rest.now)) }
{
    let fetched = fetch(alloc, reader, listing, cache, buffer, folder)?;
    let manifest = fetched.get(cache);
    let decided = by_manifest(alloc, listing, config, kind, buffer, folder, rest, manifest)?;
    match decided {
        Some(answer) => Ok(answer),
        None => named_from(alloc, reader, listing, config, cache, buffer, folder, rest),
    }
}
