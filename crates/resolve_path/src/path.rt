//! Paths that a text names from a folder.
ghost use Rattle.std.specs.Prelude.{◌≡◌, length, IfOk};
ghost use Rattle.outside.specs.Cause.{HasCause};
ghost use Rattle.outside.specs.Tree.{Told};
ghost use Rattle.path_text.specs.Path.{IsFolderPath};
ghost use Rattle.resolve_path.specs.Folders.{folder_places, places_from};
ghost use Rattle.resolve_path.specs.Places.{HasFileWithin};
ghost use Rattle.resolve_path.specs.inner.Fetches.{FindsIn};

use crate::as_folder::{in_folder, joined, named_as_file};
use crate::fetch::fetch;
use crate::{ManifestCache, Resolution};
use graph_types::Config;
use outside::{OutsideEnd, TreeReader};
use std::alloc::Global;
use tree_listing::Listing;

/// What a path is as a folder.
fn as_folder<R: TreeReader>(
    alloc: Global,
    reader: &mut R,
    listing: &Listing,
    config: &Config,
    cache: &mut ManifestCache,
    buffer: &mut String,
    folder: &str,
) -> Result<Resolution, OutsideEnd>
    requires { IsFolderPath folder.now }
    ensures follows { R.follows reader.old reader.new }
    ensures cause { HasCause (R.view reader.old).faults (R.view reader.new).faults result }
    ensures within { IfOk result (HasFileWithin (length listing.now.files)) }
    ensures told { Told (R.view reader.old).tree (λ tree. FindsIn tree listing.now cache.old cache.new (R.view reader.old) (R.view reader.new) result
        (λ manifests. folder_places config.now folder.now (manifests folder.now))) }
{
    let fetched = fetch(alloc, reader, listing, cache, buffer, folder)?;
    Ok(in_folder(alloc, listing, config, buffer, folder, fetched.get(cache))?)
}

/// What a text names from a folder: a file, else a folder.
pub(crate) fn named_from<R: TreeReader>(
    alloc: Global,
    reader: &mut R,
    listing: &Listing,
    config: &Config,
    cache: &mut ManifestCache,
    buffer: &mut String,
    folder: &str,
    text: &str,
) -> Result<Resolution, OutsideEnd>
    requires { IsFolderPath folder.now }
    ensures follows { R.follows reader.old reader.new }
    ensures cause { HasCause (R.view reader.old).faults (R.view reader.new).faults result }
    ensures within { IfOk result (HasFileWithin (length listing.now.files)) }
    ensures told { Told (R.view reader.old).tree (λ tree. FindsIn tree listing.now cache.old cache.new (R.view reader.old) (R.view reader.new) result
        (λ manifests. places_from manifests config.now folder.now text.now)) }
{
    let Some(path) = joined(alloc, folder, text)? else {
        return Ok(Resolution::Unresolved);
    };
    if let Some(file) = named_as_file(listing, config, buffer, text, path.get())? {
        return Ok(Resolution::File(file));
    }
    as_folder(alloc, reader, listing, config, cache, buffer, path.get())
}
