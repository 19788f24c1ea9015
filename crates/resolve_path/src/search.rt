ghost use Rattle.std.specs.Prelude.{◌≡◌, [], length, IfOk, if◌then◌else◌};
ghost use Rattle.outside.specs.Cause.{HasCause};
ghost use Rattle.outside.specs.Tree.{Told};
ghost use Rattle.path_text.specs.Path.{IsFolderPath};
ghost use Rattle.resolve_path.specs.Packages.{bare_places};
ghost use Rattle.resolve_path.specs.Places.{HasFileWithin};
ghost use Rattle.resolve_path.specs.Requests.{bare_of, is_relative};
ghost use Rattle.resolve_path.specs.Resolution.{asked_places, resolution_of};
ghost use Rattle.resolve_path.specs.Resolves.{Finds, KeepsManifests};
ghost use Rattle.resolve_path.specs.inner.Fetches.{FindsIn};
ghost use Rattle.resolve_path.specs.inner.Parts.{is_listed};

use crate::alias::replaced;
use crate::package::in_package;
use crate::path::named_from;
use crate::request::{bare, is_relative};
use crate::upward::package_from;
use crate::{ManifestCache, RequestKind, Resolution};
use graph_types::Config;
use outside::{OutsideEnd, TreeReader};
use std::alloc::Global;
use tree_listing::Listing;

/// What a request that isn't relative names.
fn bare_from<R: TreeReader>(
    alloc: Global,
    reader: &mut R,
    listing: &Listing,
    config: &Config,
    cache: &mut ManifestCache,
    buffer: &mut String,
    base: &str,
    request: &str,
    kind: RequestKind,
) -> Result<Resolution, OutsideEnd>
    ensures follows { R.follows reader.old reader.new }
    ensures cause { HasCause (R.view reader.old).faults (R.view reader.new).faults result }
    ensures within { IfOk result (HasFileWithin (length listing.now.files)) }
    ensures told { Told (R.view reader.old).tree (λ tree. FindsIn tree listing.now cache.old cache.new (R.view reader.old) (R.view reader.new) result
        (λ manifests. bare_places manifests (is_listed listing.now.folders) config.now kind base.now (bare_of request.now))) }
{
    let Some(asked) = bare(alloc, request)? else {
        return Ok(Resolution::Unresolved);
    };
    let Some(home) = package_from(alloc, listing, buffer, asked.name.get(), base)? else {
        return Ok(Resolution::Unresolved);
    };
    let rest = asked.rest.get();
    in_package(
        alloc,
        reader,
        listing,
        config,
        cache,
        buffer,
        kind,
        home.get(),
        rest,
    )
}

/// What a request names to which no alias is applied any more.
fn located<R: TreeReader>(
    alloc: Global,
    reader: &mut R,
    listing: &Listing,
    config: &Config,
    cache: &mut ManifestCache,
    base: &str,
    request: &str,
    kind: RequestKind,
) -> Result<Resolution, OutsideEnd>
    requires { IsFolderPath base.now }
    ensures follows { R.follows reader.old reader.new }
    ensures cause { HasCause (R.view reader.old).faults (R.view reader.new).faults result }
    ensures within { IfOk result (HasFileWithin (length listing.now.files)) }
    ensures told { Told (R.view reader.old).tree (λ tree. FindsIn tree listing.now cache.old cache.new (R.view reader.old) (R.view reader.new) result
        (λ manifests. asked_places manifests (is_listed listing.now.folders) config.now kind (record { base = base.now; request = request.now }))) }
{
    let mut buffer = String::new(alloc);
    if is_relative(request) {
        return named_from(
            alloc,
            reader,
            listing,
            config,
            cache,
            &mut buffer,
            base,
            request,
        );
    }
    bare_from(
        alloc,
        reader,
        listing,
        config,
        cache,
        &mut buffer,
        base,
        request,
        kind,
    )
}

/// The folder from which a request is looked up that an alias gave.
fn base_of<'a>(folder: &'a str, request: &str) -> &'a str
    ensures { result.now ≡ (if is_relative request.now then [] else folder.now) }
{
    if is_relative(request) { "" } else { folder }
}

/// What a request of a module in a folder names.
pub fn resolve<R: TreeReader>(
    alloc: Global,
    reader: &mut R,
    listing: &Listing,
    config: &Config,
    cache: &mut ManifestCache,
    folder: &str,
    request: &str,
    kind: RequestKind,
) -> Result<Resolution, OutsideEnd>
    requires { IsFolderPath folder.now }
    ensures follows { R.follows reader.old reader.new }
    ensures cause { HasCause (R.view reader.old).faults (R.view reader.new).faults result }
    ensures within { IfOk result (HasFileWithin (length listing.now.files)) }
    ensures keeps { Told (R.view reader.old).tree (λ tree. KeepsManifests tree listing.now cache.old cache.new (R.view reader.old) (R.view reader.new)) }
    ensures finds { Told (R.view reader.old).tree (λ tree. Finds tree listing.now cache.old result
        (λ reading. resolution_of reading tree config.now folder.now request.now kind)) }
{
    match replaced(alloc, config.alias.as_slice(), request)? {
        Some(other) => {
            let base = base_of(folder, other.get());
            located(
                alloc,
                reader,
                listing,
                config,
                cache,
                base,
                other.get(),
                kind,
            )
        }
        None => located(alloc, reader, listing, config, cache, folder, request, kind),
    }
}
